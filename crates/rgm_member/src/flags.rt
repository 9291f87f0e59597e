ghost use Rattle.std.specs.Prelude.{◌≡◌};
ghost use Rattle.rgm_member.specs.Flags.{has_a_flag, has_flag};
ghost use Rattle.rgm_member.specs.State.{marks_of};

use crate::tables::marks_of;
use crate::worker::Worker;
use cl_base::Name;
use wire::Marks;

impl Worker {
    /// Whether a resource has a flag here.
    pub fn has_flag(&self) -> bool
        ensures value { result ≡ has_flag self.now }
    {
        self.resources.iter().any(|(_, marks)| has_a_flag(*marks))
    }

    /// Whether the resource has a running monitor here.
    pub fn monitors(&self, r: &Name) -> bool
        ensures value { result ≡ (marks_of self.now.resources r.now).mon }
    {
        marks_of(&self.resources, r).mon
    }
}

fn has_a_flag(m: Marks) -> bool
    ensures { result ≡ has_a_flag m }
{
    m.pre || m.run || m.mon
}
