// The rows of resource groups.
ghost use Rattle.std.specs.Prelude.{◌≡◌, ◌++◌, ◌∷◌, [], OnOk, codes};
ghost use Rattle.std.specs.Fmt.{decimal};
ghost use Rattle.cl_base.specs.Numbers.{by_commas};
ghost use Rattle.ccr_rows.specs.Texts.{affinities_text, choice_text, names_text};
ghost use Rattle.ccr_rows.specs.Rows.{all_group_rows, group_rows, later_group_rows, row_of};

use crate::row::{push_choice, push_list, push_nodes, push_number};
use ccr_text::Row;
use cl_base::{Name, Version};
use rg_props::{Group, Groups};
use std::alloc::{AllocError, Global};

/// Adds the rows of the table `groups`.
pub fn push_groups(rows: &mut Vec<Row>, alloc: Global, groups: &Groups) -> Result<(), AllocError>
    ensures { OnOk result (rows.new.items ≡ rows.old.items ++ all_group_rows groups.now.version groups.now.groups) }
{
    for place in 0..groups.group_count() {
        if let Some((name, group)) = groups.group_at(place) {
            push_group(rows, alloc, groups, name, group)?;
        }
    }
    Ok(())
}

fn push_group(
    rows: &mut Vec<Row>,
    alloc: Global,
    groups: &Groups,
    name: &Name,
    group: &Group,
) -> Result<(), AllocError>
    ensures { OnOk result (rows.new.items ≡ rows.old.items ++ group_rows groups.now.version name.now group.now) }
{
    push_places(rows, alloc, name, group)?;
    push_relations(rows, alloc, name, group)?;
    push_moves(rows, alloc, name, group)?;
    push_flags(rows, alloc, name, group)?;
    push_later(rows, alloc, groups, name, group)
}

// Where it may be, and on how many nodes.
fn push_places(
    rows: &mut Vec<Row>,
    alloc: Global,
    name: &Name,
    group: &Group,
) -> Result<(), AllocError>
    ensures { OnOk result (rows.new.items ≡ rows.old.items ++
        row_of name.now (codes "Nodelist") (by_commas group.now.nodelist)
        ∷ row_of name.now (codes "Maximum_primaries") (decimal group.now.maximum)
        ∷ row_of name.now (codes "Desired_primaries") (decimal group.now.desired) ∷ []) }
{
    push_nodes(rows, alloc, name, "Nodelist", &group.nodelist)?;
    push_number(rows, alloc, name, "Maximum_primaries", group.maximum)?;
    push_number(rows, alloc, name, "Desired_primaries", group.desired)
}

// What it is to other groups.
fn push_relations(
    rows: &mut Vec<Row>,
    alloc: Global,
    name: &Name,
    group: &Group,
) -> Result<(), AllocError>
    ensures { OnOk result (rows.new.items ≡ rows.old.items ++
        row_of name.now (codes "RG_dependencies") (names_text group.now.dependencies)
        ∷ row_of name.now (codes "RG_affinities") (affinities_text group.now.affinities) ∷ []) }
{
    push_list(rows, alloc, name, "RG_dependencies", &group.dependencies)?;
    push_list(rows, alloc, name, "RG_affinities", &group.affinities)
}

// When it moves.
fn push_moves(
    rows: &mut Vec<Row>,
    alloc: Global,
    name: &Name,
    group: &Group,
) -> Result<(), AllocError>
    ensures { OnOk result (rows.new.items ≡ rows.old.items ++
        row_of name.now (codes "Pingpong_interval") (decimal group.now.pingpong)
        ∷ row_of name.now (codes "Failback") (choice_text group.now.failback) ∷ []) }
{
    push_number(rows, alloc, name, "Pingpong_interval", group.pingpong)?;
    push_choice(rows, alloc, name, "Failback", group.failback)
}

// What commands of its own set.
fn push_flags(
    rows: &mut Vec<Row>,
    alloc: Global,
    name: &Name,
    group: &Group,
) -> Result<(), AllocError>
    ensures { OnOk result (rows.new.items ≡ rows.old.items ++
        row_of name.now (codes "managed") (choice_text group.now.managed)
        ∷ row_of name.now (codes "wanted") (choice_text group.now.wanted)
        ∷ row_of name.now (codes "Suspend_automatic_recovery") (choice_text group.now.suspended) ∷ []) }
{
    push_choice(rows, alloc, name, "managed", group.managed)?;
    push_choice(rows, alloc, name, "wanted", group.wanted)?;
    let suspended = "Suspend_automatic_recovery";
    push_choice(rows, alloc, name, suspended, group.suspended)
}

// What it has under the second version alone.
fn push_later(
    rows: &mut Vec<Row>,
    alloc: Global,
    groups: &Groups,
    name: &Name,
    group: &Group,
) -> Result<(), AllocError>
    ensures { OnOk result (rows.new.items ≡ rows.old.items ++ later_group_rows groups.now.version name.now group.now) }
{
    if groups.version() == Version::One {
        return Ok(());
    }
    push_list(rows, alloc, name, "Load_factors", &group.factors)?;
    push_number(rows, alloc, name, "Priority", group.priority)
}
