// What was made before is gone on with where it fits, and else it is made anew.
ghost use Rattle.std.specs.Prelude.{◌≡◌, ◌≤◌, ◌++◌, length, take, IfOk, OnOk};
ghost use Rattle.std.specs.Option.{option_copied};
ghost use Rattle.cl_base.specs.Limits.{most_devices};
ghost use Rattle.ccr_commit.specs.Entries.{listed};
ghost use Rattle.config_cache.specs.Lists.{these};

use crate::made::Made;
use crate::same_header::is_same;
use crate::wanted::{begin, count, text_at};
use cl_base::{Bytes, Header};
use std::alloc::{AllocError, Global};
use update_log::NoMemory;

/// What these updates make. What was made before saves the work where it was made of the same
/// header and of the first of these updates.
pub fn made_of(
    alloc: Global,
    before: Option<Box<Made>>,
    header: &Header,
    committed: &[Bytes],
    pending: Option<&Bytes>,
) -> Result<Box<Made>, NoMemory>
    requires devices { length header.now.devices ≤ most_devices }
    ensures value { IfOk result (λ made. made.value ≡ these header.now (committed.now ++ listed (option_copied pending.entry))) }
{
    let mut made = begun(alloc, before, header, committed, pending)?;
    go_on(alloc, &mut made, committed, pending)?;
    Ok(made)
}

/// What was made before of the first of these updates: of none of them where it was made of others.
fn begun(
    alloc: Global,
    before: Option<Box<Made>>,
    header: &Header,
    committed: &[Bytes],
    pending: Option<&Bytes>,
) -> Result<Box<Made>, NoMemory>
    requires devices { length header.now.devices ≤ most_devices }
    ensures header { IfOk result (λ made. made.value.header ≡ header.now) }
    ensures texts { IfOk result (λ made.
        take (length made.value.texts) (committed.now ++ listed (option_copied pending.entry)) ≡ made.value.texts) }
{
    if let Some(made) = before {
        if is_same(made.header(), header) && begin(made.texts(), committed, pending) {
            return Ok(made);
        }
    }
    Ok(boxed(alloc, Made::new(alloc, header)?)?)
}

fn boxed(alloc: Global, made: Made) -> Result<Box<Made>, AllocError>
    ensures { IfOk result (λ b. b.value ≡ made) }
{
    Ok(Box::new(alloc, made)?)
}

/// Adds the updates that are missing.
#[tactic(auto, using(crate::proofs::Fronts::one_more, crate::proofs::Fronts::none_beyond, crate::proofs::Fronts::take_whole))]
fn go_on(
    alloc: Global,
    made: &mut Made,
    committed: &[Bytes],
    pending: Option<&Bytes>,
) -> Result<(), NoMemory>
    requires begun { take (length made.old.texts) (committed.now ++ listed (option_copied pending)) ≡ made.old.texts }
    ensures ok { OnOk result (made.new ≡ these made.old.header (committed.now ++ listed (option_copied pending.entry))) }
{
    for place in made.texts().len()..count(committed, pending) {
        if let Some(text) = text_at(committed, pending, place) {
            made.push(alloc, text.items())?;
        }
    }
    Ok(())
}
