ghost use Rattle.std.specs.Prelude.{◌≡◌, ◌<◌, IfOk};
ghost use Rattle.std.specs.List.{All};
ghost use Rattle.rg_deps.specs.Cycles.{arrangement};
ghost use Rattle.rg_deps.specs.Flags.{flag};
ghost use Rattle.rg_deps.specs.Order.{first_left};
ghost use Rattle.rg_deps.specs.Places.{IsAscending};

use crate::choice::choose;
use crate::graph::{Edge, Thing};
use crate::walk::cycle;
use cl_base::Items;
use std::alloc::{AllocError, Global};

/// Places in order.
pub type Places = Items<usize>;

/// The order of things in order of creation whose places are below the count, or the cycle as the
/// error.
pub fn arrange(
    alloc: Global,
    things: &[Thing],
    edges: &[Edge],
    count: usize,
) -> Result<Result<Places, Places>, AllocError>
    requires below { All (λ t. t.place < count) things.now }
    requires ascending { IsAscending things.now }
    ensures { IfOk result (λ r. r ≡ arrangement things.now edges.now) }
{
    let chosen = choose(alloc, things, edges, count)?;
    let Some(first) = first_left(things, &chosen.standing) else {
        return Ok(Ok(Items::new(chosen.order)));
    };
    let path = cycle(alloc, edges, &chosen.standing, things.len() + 1, first)?;
    Ok(Err(Items::new(path)))
}

/// Whether the place is flagged.
pub fn is_flagged(standing: &[bool], place: usize) -> bool
    ensures { result ≡ flag standing.now place }
{
    place < standing.len() && standing[place]
}

fn first_left(things: &[Thing], standing: &[bool]) -> Option<usize>
    ensures { result ≡ first_left things.now (flag standing.now) }
{
    things
        .iter()
        .find(|t| !is_flagged(standing, t.place))
        .map(|t| t.place)
}
