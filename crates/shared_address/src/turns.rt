ghost use Rattle.std.specs.Prelude.{◌≡◌, ◌≢◌, ◌<◌, ◌≤◌, [], All, OnOk, OnErr, length, true, false};
ghost use Rattle.std.specs.Cmp.Lexicographic.{pointwise};
ghost use Rattle.shared_address.specs.Choosing.{after_turn, is_target, next_node, same_target, seen, HaveWeights};
ghost use Rattle.shared_address.specs.States.{no_turns};

use crate::choice::{NoMemory, Target};
use cl_base::NodeId;
use std::alloc::Global;
use std::marker::Model;

/// The targets at the last request, and whose turn it is: the target at `place`, which had
/// `served` turns in a row. Contracts see how many turns of the round were taken.
#[derive(Debug, Drop)]
pub struct Turns {
    targets: Vec<Target>,
    place: usize,
    served: u64,
}

impl Model for Turns {
    ghost use Rattle.shared_address.specs.States.{TurnState};

    ghost Value = { TurnState };

    ghost use Rattle.std.specs.Prelude.{◌+◌, take};
    ghost use Rattle.shared_address.specs.Choosing.{total_weight};
    ghost use Rattle.shared_address.specs.Places.{IsWithin};

    ghost view = { λ t. record { targets = t.targets.items; taken = total_weight (take t.place t.targets.items) + t.served } };

    ghost invariant = { λ t. IsWithin t.targets.items t.place t.served };
}

impl Turns {
    /// Before the first request.
    pub fn new(alloc: Global) -> Turns
        ensures value { result ≡ no_turns }
    {
        Turns {
            targets: Vec::new(alloc),
            place: 0,
            served: 0,
        }
    }

    /// A request shows these targets: where they differ from the last, the turns begin anew.
    pub fn see(&mut self, targets: &[Target]) -> Result<(), NoMemory>
        requires weights { HaveWeights targets.now }
        ensures ok { OnOk result (self.new ≡ seen self.old targets.now) }
        ensures targets { OnOk result (self.new.targets ≡ targets.now) }
        ensures err { OnErr result (self.new ≡ self.old) }
        ensures wanted { OnErr result (pointwise same_target self.old.targets targets.now ≡ false) }
    {
        if self.targets.as_slice() != targets {
            self.targets = targets.to_vec(*self.targets.allocator())?;
            self.place = 0;
            self.served = 0;
        }
        Ok(())
    }

    /// The node whose turn it is. It takes the turn.
    pub fn next(&mut self) -> NodeId
        requires { 0 < length self.old.targets }
        ensures node { result ≡ next_node self.old }
        ensures after { self.new ≡ after_turn self.old }
        ensures target { is_target self.old.targets result ≡ true }
    {
        let target = self.targets[self.place];
        if self.served + 1 < target.weight {
            self.served += 1;
        } else if self.place + 1 < self.targets.len() {
            self.served = 0;
            self.place += 1;
        } else {
            self.served = 0;
            self.place = 0;
        }
        target.node
    }
}
