ghost use Rattle.std.specs.Prelude.{◌≡◌};
ghost use Rattle.rgm_member.specs.Dues.{due_of};

use crate::names::name_of;
use crate::settings::agent_of;
use crate::worker::Worker;
use ccr_tables::Config;
use cl_base::{Call, Name};
use wire::Order;

/// A call that an order asks for.
#[derive(Clone, Copy, Debug, PartialEq, Eq)]
pub struct Due {
    /// The agent that the type of the resource names; none where the resource is not there.
    pub agent: Option<Name>,
    /// The call.
    pub call: Call,
}

impl Worker {
    /// The call that the order asks for if it is carried out at the second `now`. There is none where
    /// the order is of another membership, was carried out before or is to clear, nor where its text is
    /// no name.
    pub fn due(&self, o: &Order, c: &Config, now: u64) -> Option<Due>
        ensures value { result ≡ due_of self.now c.now o.now now }
    {
        if o.epoch != self.epoch || self.outcomes.contains_key(&o.number) {
            return None;
        }
        let method = o.method?;
        let resource = name_of(o.resource.items())?;
        Some(Due {
            agent: agent_of(c, &resource),
            call: Call {
                node: self.me,
                resource,
                method,
                second: now,
            },
        })
    }
}
