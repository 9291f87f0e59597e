ghost use Rattle.std.specs.Prelude.{◌≡◌, IfOk};
ghost use Rattle.std.specs.String.{string_bytes};
ghost use Rattle.schedule_gen.specs.Lines.{event_line, event_words, create_words, round_words, spaced};

use crate::draw::{Form, chosen_form, first_node, second_node};
use std::alloc::{AllocError, Global};

/// The line of a draw; it is the line `index` after the opening, from 0.
pub fn event(alloc: Global, drawn: u64, index: u64) -> Result<String, AllocError>
    ensures value { IfOk result (λ text. string_bytes text ≡ event_line drawn index) }
{
    let a = first_node(drawn);
    let b = second_node(drawn);
    line_of_form(alloc, chosen_form(drawn), a, b, index)
}

fn line_of_form(alloc: Global, form: Form, a: u64, b: u64, index: u64) -> Result<String, AllocError>
    ensures { IfOk result (λ text. string_bytes text ≡ spaced (event_words form a b index)) }
{
    match form {
        Form::Tick => format!(in alloc; "tick {a}"),
        Form::Next => format!(in alloc; "next {a} {b}"),
        Form::Drop => format!(in alloc; "drop {a} {b}"),
        Form::Again => format!(in alloc; "again {a} {b}"),
        Form::Disk => format!(in alloc; "disk {a}"),
        Form::Write => format!(in alloc; "write {a} 2 {index}"),
        Form::Crash => format!(in alloc; "crash {a}"),
        Form::Boot => format!(in alloc; "boot {a}"),
        Form::RoundOfAll => String::from_str(alloc, "rounds 1 1 2 3 4"),
        Form::Create => create(alloc, a, index % 16),
        Form::RoundOfTwo => round_of_two(alloc, a, b),
        Form::Clock => format!(in alloc; "clock {index}"),
    }
}

fn create(alloc: Global, node: u64, group: u64) -> Result<String, AllocError>
    ensures { IfOk result (λ text. string_bytes text ≡ spaced (create_words node group)) }
{
    format!(in alloc; "cmd {node} clrg create g{group} 1,2,3,4")
}

/// A round of two nodes, the lesser first.
fn round_of_two(alloc: Global, a: u64, b: u64) -> Result<String, AllocError>
    ensures { IfOk result (λ text. string_bytes text ≡ spaced (round_words a b)) }
{
    let low = a.min(b);
    let high = a.max(b);
    format!(in alloc; "rounds 1 {low} {high}")
}
