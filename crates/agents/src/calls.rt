ghost use Rattle.std.specs.Prelude.{◌≡◌, position};
ghost use Rattle.std.specs.Str.{bytes_eq};
ghost use Rattle.agents.specs.Calls.{called, rules_of, states_of};

use cl_base::{Agent, Call, Name, Outcome};

/// Has the first agent of this name carry out the call. Without one it is a failure.
pub fn call_named<A: Agent>(agents: &mut Vec<A>, name: &Name, call: &Call) -> Outcome
    ensures outcome { result ≡ (called (rules_of A.outcome A.then_kept) (states_of A.named A.kept agents.old.items) name.now call.now).outcome }
    ensures after { states_of A.named A.kept agents.new.items ≡ (called (rules_of A.outcome A.then_kept) (states_of A.named A.kept agents.old.items) name.now call.now).agents }
{
    match place_of(agents, name.bytes()) {
        Some(place) => agents[place].call(call),
        None => Outcome::Failure,
    }
}

/// The place of the first agent of this name.
fn place_of<A: Agent>(agents: &[A], name: &[u8]) -> Option<usize>
    ensures { result ≡ position (λ a. bytes_eq (A.named a) name.now) agents.now }
{
    agents.iter().position(|a| a.name() == name)
}
