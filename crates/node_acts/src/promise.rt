// A node's record as a Promise shows it.
ghost use Rattle.std.specs.Prelude.{◌≡◌, IfOk};
ghost use Rattle.node_model.specs.Attempts.{shown_in};
ghost use Rattle.node_model.specs.Seats.{state_of};
ghost use Rattle.rgm_member.specs.Flags.{has_flag};

use cl_base::{Bytes, Epoch};
use node_model::Seat;
use rgm_member::Worker;
use std::alloc::{AllocError, Global};
use wire::{Body, Texts};

/// The node's record, as it is shown in a Promise of p, and whether a resource has a flag there.
pub fn promise_body(
    alloc: Global,
    seat: &Seat,
    worker: &Worker,
    p: Epoch,
) -> Result<Body, AllocError>
    ensures body { IfOk result (λ body. body ≡ shown_in (state_of seat.now).saved (has_flag worker.now) p) }
{
    let entries = seat.entries();
    let committed = copy_texts(alloc, entries.committed())?;
    let pending = match entries.pending() {
        Some(text) => Some(copy_text(alloc, text)?),
        None => None,
    };
    Ok(Body::Promise {
        epoch: p,
        installed: seat.installed(),
        members: seat.members(),
        valid: seat.valid(),
        flagged: worker.has_flag(),
        committed,
        pending,
    })
}

fn copy_texts(alloc: Global, texts: &[Bytes]) -> Result<Texts, AllocError>
    ensures { IfOk result (λ copy. copy ≡ texts.now) }
{
    let mut copies = Vec::new(alloc);
    for text in texts {
        copies.push(copy_text(alloc, text)?)?;
    }
    Ok(Texts::new(copies))
}

fn copy_text(alloc: Global, text: &Bytes) -> Result<Bytes, AllocError>
    ensures { IfOk result (λ copy. copy ≡ text.now) }
{
    Ok(Bytes::new(text.items().to_vec(alloc)?))
}
