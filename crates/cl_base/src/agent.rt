ghost use Rattle.std.specs.Prelude.{◌≡◌, List, ℕ};
ghost use Rattle.cl_base.specs.declared.agent.Call.{Call};
ghost use Rattle.cl_base.specs.declared.method.Outcome.{Outcome};

use crate::method::{Method, Outcome};
use crate::name::Name;
use crate::node::NodeId;

/// A call of a resource's method, as its agent is told.
#[derive(Clone, Copy, Debug, PartialEq, Eq)]
pub struct Call {
    /// The node on which the method is called.
    pub node: NodeId,
    /// The resource.
    pub resource: Name,
    /// The method.
    pub method: Method,
    /// The second at which it is called.
    pub second: u64,
}

/// Who carries out the methods of the resource types that name it. It promises nothing about the
/// outcomes: what it has kept of the calls so far decides each, in a way of its own.
pub trait Agent: Drop {
    /// The name that resource types name it by.
    ghost named: { Self → List ℕ };

    /// What it has kept of the calls so far, as a list of numbers.
    ghost kept: { Self → List ℕ };

    /// How a call ends, by what was kept before it.
    ghost outcome: { List ℕ → Call → Outcome };

    /// What is kept after a call.
    ghost then_kept: { List ℕ → Call → List ℕ };

    /// The agent's name.
    fn name(&self) -> &[u8]
        ensures value { result.now ≡ named self.now };

    /// Carries out the call. The name stays.
    fn call(&mut self, call: &Call) -> Outcome
        ensures same_name { named self.new ≡ named self.old }
        ensures outcome { result ≡ outcome (kept self.old) call.now }
        ensures after { kept self.new ≡ then_kept (kept self.old) call.now };
}
