// The numbers of a set, and how they are written.
ghost use Rattle.std.specs.Prelude.{◌≡◌, ◌≤◌, ◌++◌, ◌∷◌, IfOk, OnOk};
ghost use Rattle.std.specs.Fmt.{decimal};
ghost use Rattle.std.specs.List.{flat_map};
ghost use Rattle.std.specs.String.{string_bytes};
ghost use Rattle.cl_base.specs.Numbers.{numbers_to, by_commas, set_text};

use crate::number_set::NumberSet;
use std::alloc::{AllocError, Global};

#[tactic(auto, unfolding(crate::specs::Numbers::set_text))]
/// The numbers of the set by commas, or `none`.
pub fn set_text(alloc: Global, set: NumberSet) -> Result<String, AllocError>
    ensures { IfOk result (λ text. string_bytes text ≡ set_text set) }
{
    let numbers = numbers(alloc, set)?;
    list_text(alloc, numbers.as_slice())
}

fn numbers(alloc: Global, set: NumberSet) -> Result<Vec<u8>, AllocError>
    ensures { IfOk result (λ numbers. numbers.items ≡ numbers_to set 32) }
{
    let mut numbers = Vec::new(alloc);
    for n in 0..32u8 {
        if set.has(n + 1) {
            numbers.push(n + 1)?;
        }
    }
    Ok(numbers)
}

fn list_text(alloc: Global, numbers: &[u8]) -> Result<String, AllocError>
    ensures { IfOk result (λ text. string_bytes text ≡ by_commas numbers.now) }
{
    let [first, rest @ ..] = numbers else {
        return String::from_str(alloc, "none");
    };
    let mut text = format!(in alloc; "{first}")?;
    push_numbers(&mut text, rest)?;
    Ok(text)
}

/// Each number after a comma.
fn push_numbers(text: &mut String, numbers: &[u8]) -> Result<(), AllocError>
    ensures { OnOk result (string_bytes text.new ≡ string_bytes text.old ++ flat_map (λ n. 44 ∷ decimal n) numbers.now) }
{
    for number in numbers {
        write!(text, ",{number}")?;
    }
    Ok(())
}
