ghost use Rattle.std.specs.Prelude.{◌≡◌, ◌-◌, nat_le, None, Some, IfOk, map, slice_index_or};
ghost use Rattle.cl_base.specs.Sets.{has};
ghost use Rattle.heartbeats.specs.Due.{begins, breaks, is_broken, is_least, shows_apart, wants_another};
ghost use Rattle.heartbeats.specs.Peers.{at_boot, heard, beat_after, is_near, older, peer_in};
ghost use Rattle.heartbeats.specs.Views.{is_heard, is_in_view, is_receiver, receivers_of, stable_after, ticked, view_of};

use crate::due::Membership;
use crate::peer::{Beat, Peer};
use cl_base::{Epoch, NodeId, NodeSet};
use std::alloc::{AllocError, Global};
use std::marker::Model;

/// How many nodes there may be.
const NODES: usize = 32;

/// The oldest age of a node that is in the view, in ticks.
const NEAR: u8 = 3;

/// For how many ticks no attempt begins after one that ended.
const WAIT: u64 = 4;

/// What a node keeps of the others' heartbeats since its boot. Contracts see it as a `State`.
#[derive(Drop)]
pub struct Heartbeats {
    me: NodeId,
    /// Of each node what it was heard last, node 1 first.
    peers: Vec<Option<Peer>>,
    view: Option<NodeSet>,
    stable: u64,
    wait: u64,
}

impl Model for Heartbeats {
    ghost use Rattle.std.specs.Prelude.{◌≡◌, length};
    ghost use Rattle.heartbeats.specs.State.{State};

    ghost Value = { State };

    ghost view = { λ h. record { me = h.me; peers = h.peers.items; view = h.view; stable = h.stable; wait = h.wait } };

    ghost invariant = { λ h. length h.peers.items ≡ 32 };
}

impl Heartbeats {
    /// At the boot of this node: it has heard nobody.
    pub fn new(alloc: Global, me: NodeId) -> Result<Heartbeats, AllocError>
        ensures value { IfOk result (λ beats. beats ≡ at_boot me) }
    {
        match Vec::from_slice(alloc, &[None; NODES]) {
            Ok(peers) => Ok(Heartbeats {
                me,
                peers,
                view: None,
                stable: 0,
                wait: 0,
            }),
            Err(failed) => Err(failed),
        }
    }

    /// A packet from this node was delivered, which is this heartbeat or none.
    pub fn hear(&mut self, from: NodeId, beat: Option<Beat>)
        ensures after { self.new ≡ heard self.old from beat }
    {
        let beat = beat_after(beat, self.peer(from));
        self.peers[from.number() as usize - 1] = Some(Peer { age: 0, beat });
    }

    /// A tick of the node, of which these nodes are configured by its committed updates: each age
    /// grows, and the view is taken anew.
    pub fn tick(&mut self, configured: NodeSet)
        ensures after { self.new ≡ ticked self.old configured }
    {
        age(self.peers.as_mut_slice());
        let view = self.view_of(configured);
        self.stable = stable_after(self.view, self.stable, view);
        self.view = Some(view);
    }

    /// The view of the last tick: the nodes that the node reaches, and itself. None before the first.
    pub fn view(&self) -> Option<NodeSet>
        ensures value { result ≡ self.now.view }
    {
        self.view
    }

    #[tactic(auto, unfolding(crate::specs::Views::receivers_of))]
    /// The nodes that a heartbeat goes to, where these are configured by its committed updates.
    pub fn receivers(&self, configured: NodeSet) -> NodeSet
        ensures value { result ≡ receivers_of self.now configured }
    {
        let mut receivers = NodeSet::empty();
        for n in 0..NodeId::MOST {
            match NodeId::new(n + 1) {
                Ok(node) if self.is_receiver(configured, node) => receivers = receivers.with(node),
                _ => {}
            }
        }
        receivers
    }

    /// An attempt of the node ended: for four ticks it begins none.
    pub fn attempt_ended(&mut self)
        ensures after { self.new ≡ record self.old { wait = 4 } }
    {
        self.wait = WAIT;
    }

    /// Whether the node waits after an attempt that ended; the wait falls by one tick.
    pub fn waits(&mut self) -> bool
        ensures answer { result ≡ nat_le 1 self.old.wait }
        ensures after { self.new ≡ record self.old { wait = self.old.wait - 1 } }
    {
        let wait = self.wait;
        self.wait = wait.saturating_sub(1);
        wait > 0
    }

    /// Whether the node is to begin an attempt: it is the least of its view, which has stood for three
    /// ticks; it is no member, or its membership is not its view, or is broken; and it is configured or
    /// not alone.
    pub fn begins(&self, configured: NodeSet, membership: Option<Membership>) -> bool
        ensures value { result ≡ begins self.now configured membership }
    {
        let Some(view) = self.view else {
            return false;
        };
        let alone = view == NodeSet::empty().with(self.me);
        is_least(view, self.me)
            && self.stable >= 3
            && self.wants_another(view, membership)
            && (configured.has(self.me) || !alone)
    }

    fn wants_another(&self, view: NodeSet, membership: Option<Membership>) -> bool
        ensures { result ≡ wants_another self.now view membership }
    {
        match membership {
            None => true,
            Some(m) => m.members != view || self.is_broken(&m),
        }
    }

    #[tactic(auto, unfolding(crate::specs::Due::is_broken), using(crate::proofs::Found::found_at))]
    fn is_broken(&self, m: &Membership) -> bool
        ensures { result ≡ is_broken self.now m.now }
    {
        for n in 0..NodeId::MOST {
            match NodeId::new(n + 1) {
                Ok(node) if self.breaks(m, node) => return true,
                _ => {}
            }
        }
        false
    }

    fn breaks(&self, m: &Membership, n: NodeId) -> bool
        ensures { result ≡ breaks self.now m.now n }
    {
        n != self.me && m.members.has(n) && shows_apart(m.epoch, self.peer(n))
    }

    #[tactic(auto, unfolding(crate::specs::Views::view_of))]
    fn view_of(&self, configured: NodeSet) -> NodeSet
        ensures { result ≡ view_of self.now.me self.now.peers configured }
    {
        let mut view = NodeSet::empty();
        for n in 0..NodeId::MOST {
            match NodeId::new(n + 1) {
                Ok(node) if self.is_in_view(configured, node) => view = view.with(node),
                _ => {}
            }
        }
        view
    }

    fn is_in_view(&self, configured: NodeSet, n: NodeId) -> bool
        ensures { result ≡ is_in_view self.now.me self.now.peers configured n }
    {
        n == self.me || (is_near(self.peer(n)) && (!configured.has(self.me) || configured.has(n)))
    }

    fn is_receiver(&self, configured: NodeSet, n: NodeId) -> bool
        ensures { result ≡ is_receiver self.now configured n }
    {
        if n == self.me {
            return false;
        }
        if configured.has(self.me) {
            configured.has(n)
        } else {
            is_heard(self.peer(n))
        }
    }

    fn peer(&self, n: NodeId) -> Option<Peer>
        ensures { result ≡ peer_in self.now.peers n }
    {
        self.peers[n.number() as usize - 1]
    }
}

fn beat_after(beat: Option<Beat>, peer: Option<Peer>) -> Option<Beat>
    ensures { result ≡ beat_after beat peer }
{
    match (beat, peer) {
        (Some(beat), _) => Some(beat),
        (None, Some(peer)) => peer.beat,
        (None, None) => None,
    }
}

/// Each of them a tick later.
fn age(peers: &mut [Option<Peer>])
    ensures { peers.new ≡ map older peers.old }
{
    for peer in peers.iter_mut() {
        *peer = older(*peer);
    }
}

fn older(peer: Option<Peer>) -> Option<Peer>
    ensures { result ≡ older peer }
{
    let Some(peer) = peer else {
        return None;
    };
    let age = if peer.age > NEAR {
        NEAR + 1
    } else {
        peer.age + 1
    };
    Some(Peer {
        age,
        beat: peer.beat,
    })
}

fn is_near(peer: Option<Peer>) -> bool
    ensures { result ≡ is_near peer }
{
    match peer {
        Some(peer) => peer.age <= NEAR,
        None => false,
    }
}

fn is_heard(peer: Option<Peer>) -> bool
    ensures { result ≡ is_heard peer }
{
    peer.is_some()
}

fn stable_after(last: Option<NodeSet>, stable: u64, view: NodeSet) -> u64
    ensures { result ≡ stable_after last stable view }
{
    match last {
        Some(last) if last == view => { if stable >= 3 { 3 } else { stable + 1 } }
        _ => 1,
    }
}

fn shows_apart(epoch: Epoch, peer: Option<Peer>) -> bool
    ensures { result ≡ shows_apart epoch peer }
{
    let Some(
        Peer {
            beat: Some(beat),
            ..
        },
    ) = peer
    else {
        return false;
    };
    beat.session != epoch || beat.promised > epoch
}

#[tactic(auto, using(crate::proofs::Least::least_tells, crate::proofs::Least::none_tells))]
fn is_least(set: NodeSet, me: NodeId) -> bool
    ensures { result ≡ is_least set me }
{
    match set.least() {
        Some(least) => least == me,
        None => false,
    }
}
