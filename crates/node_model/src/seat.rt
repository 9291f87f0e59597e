ghost use Rattle.std.specs.Prelude.{◌≡◌, ◌≤◌, ◌<◌, IfErr, IfOk, MatchResult};
ghost use Rattle.cl_base.specs.Sets.{set_without};
ghost use Rattle.cmm_member.specs.Nodes.{promised_to, with_joined, with_valid};
ghost use Rattle.cmm_member.specs.Views.{kept};
ghost use Rattle.node_model.specs.Seats.{is_member, state_of, with_state};

use ccr_commit::Entries;
use cl_base::{DevId, DevSet, Epoch, NodeSet};
use cmm_member::{FormingNode, MemberNode, Record};

/// The state of a node that is up.
#[derive(Drop)]
pub enum Seat {
    /// It is no member.
    Forming(FormingNode),
    /// It is a member.
    Member(MemberNode),
}

impl Seat {
    /// Its record, to be saved.
    pub fn record(&self) -> &Record
        ensures value { kept result.now ≡ (state_of self.now).saved }
    {
        match self {
            Seat::Forming(node) => node.record(),
            Seat::Member(node) => node.record(),
        }
    }

    /// Its promise.
    pub fn promised(&self) -> Epoch
        ensures value { result ≡ (state_of self.now).saved.promised }
    {
        match self {
            Seat::Forming(node) => node.promised(),
            Seat::Member(node) => node.promised(),
        }
    }

    /// Its session, or zero.
    pub fn session(&self) -> Epoch
        ensures value { result ≡ (state_of self.now).session }
    {
        match self {
            Seat::Forming(node) => node.session(),
            Seat::Member(node) => node.session(),
        }
    }

    /// The epoch that it installed last, or zero.
    pub fn installed(&self) -> Epoch
        ensures value { result ≡ (state_of self.now).saved.installed }
    {
        match self {
            Seat::Forming(node) => node.installed(),
            Seat::Member(node) => node.installed(),
        }
    }

    /// The members of the attempt that it installed last.
    pub fn members(&self) -> NodeSet
        ensures value { result ≡ (state_of self.now).saved.members }
    {
        match self {
            Seat::Forming(node) => node.members(),
            Seat::Member(node) => node.members(),
        }
    }

    /// The devices that are valid to it.
    pub fn valid(&self) -> DevSet
        ensures value { result ≡ (state_of self.now).saved.valid }
    {
        match self {
            Seat::Forming(node) => node.valid(),
            Seat::Member(node) => node.valid(),
        }
    }

    /// The devices that it has joined in its session.
    pub fn joined_devices(&self) -> DevSet
        ensures value { result ≡ (state_of self.now).joined }
    {
        match self {
            Seat::Forming(node) => node.joined_devices(),
            Seat::Member(node) => node.joined_devices(),
        }
    }

    /// The updates that it has.
    pub fn entries(&self) -> &Entries
        ensures value { result.now ≡ (state_of self.now).saved.entries }
    {
        match self {
            Seat::Forming(node) => node.entries(),
            Seat::Member(node) => node.entries(),
        }
    }

    /// Whether it is a member.
    pub fn is_member(&self) -> bool
        ensures value { result ≡ is_member self.now }
    {
        matches!(self, Seat::Member(_))
    }

    /// The node promises p and enters its session: it is no member then. Refused where its promise is
    /// p or more: the seat as it was.
    pub fn promise(self, p: Epoch) -> Result<FormingNode, Seat>
        ensures when { MatchResult result (λ _. (state_of self).saved.promised < p) (λ _. p ≤ (state_of self).saved.promised) }
        ensures ok { IfOk result (λ node. node ≡ promised_to (state_of self) p) }
        ensures refused { IfErr result (λ back. back ≡ self) }
    {
        match self {
            Seat::Forming(node) => match node.promise(p) {
                Ok(node) => Ok(node),
                Err((node, _)) => Err(Seat::Forming(node)),
            },
            Seat::Member(node) => match node.promise(p) {
                Ok(node) => Ok(node),
                Err((node, _)) => Err(Seat::Member(node)),
            },
        }
    }

    /// The device is valid to it no longer.
    pub fn invalidate(&mut self, d: DevId)
        ensures after { self.new ≡ with_state self.old (with_valid (state_of self.old) (set_without (state_of self.old).saved.valid d)) }
    {
        match self {
            Seat::Forming(node) => node.invalidate(d),
            Seat::Member(node) => node.invalidate(d),
        }
    }

    /// It has joined the device, which is valid to it from now on.
    pub fn joined(&mut self, d: DevId)
        ensures after { self.new ≡ with_state self.old (with_joined (state_of self.old) d) }
    {
        match self {
            Seat::Forming(node) => node.joined(d),
            Seat::Member(node) => node.joined(d),
        }
    }
}
