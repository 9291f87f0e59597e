// How groups stand.
ghost use Rattle.std.specs.Prelude.{◌≡◌, ◌++◌, IfOk, IsSome, OnOk, slice_get};
ghost use Rattle.std.specs.List.{flat_map};
ghost use Rattle.rg_props.specs.Lookups.{named};
ghost use Rattle.group_lines.specs.Groups.{group_lines, lines_of, lines_on, why_line};
ghost use Rattle.group_lines.specs.Places.{made_of};

use ccr_tables::Config;
use cl_base::{Name, NodeId, Reason};
use rgm_president::{NoMemory, President};
use status_report::StatusEntry;
use std::alloc::Global;

#[tactic(auto, using(crate::proofs::Places::one_more_place))]
/// How each group stands on each node of its Nodelist, and after it why it is not online there, where
/// that is told: groups in order of creation, and the nodes of each in its order.
pub fn group_lines(
    alloc: Global,
    c: &Config,
    president: &President,
) -> Result<Vec<StatusEntry>, NoMemory>
    ensures value { IfOk result (λ lines. lines.items ≡ group_lines c.now president.now.view) }
{
    let mut lines = Vec::new(alloc);
    for place in 0..c.groups().group_count() {
        push_group(alloc, &mut lines, c, president, place)?;
    }
    Ok(lines)
}

#[tactic(auto, using(crate::proofs::Places::found_there))]
/// The lines of the group at this place in order of creation.
fn push_group(
    alloc: Global,
    lines: &mut Vec<StatusEntry>,
    c: &Config,
    president: &President,
    place: usize,
) -> Result<(), NoMemory>
    ensures { OnOk result (lines.new.items ≡ lines.old.items ++ made_of (lines_of c.now president.now.view) (slice_get c.now.groups.groups place)) }
{
    if let Some((name, group)) = c.groups().group_at(place) {
        push_nodes(alloc, lines, c, president, name, group.nodelist.items())?;
    }
    Ok(())
}

/// The lines of the group on these nodes.
fn push_nodes(
    alloc: Global,
    lines: &mut Vec<StatusEntry>,
    c: &Config,
    president: &President,
    group: &Name,
    nodes: &[NodeId],
) -> Result<(), NoMemory>
    requires { IsSome (named c.now.groups.groups group.now) }
    ensures { OnOk result (lines.new.items ≡ lines.old.items ++ flat_map (lines_on c.now president.now.view group.now) nodes.now) }
{
    for node in nodes {
        push_node(alloc, lines, c, president, group, *node)?;
    }
    Ok(())
}

/// How the group stands on the node, and then why.
fn push_node(
    alloc: Global,
    lines: &mut Vec<StatusEntry>,
    c: &Config,
    president: &President,
    group: &Name,
    node: NodeId,
) -> Result<(), NoMemory>
    requires { IsSome (named c.now.groups.groups group.now) }
    ensures { OnOk result (lines.new.items ≡ lines.old.items ++ lines_on c.now president.now.view group.now node) }
{
    let state = president.state(alloc, c, group, node)?;
    let reason = president.why(alloc, c, group, node)?;
    lines.push(StatusEntry::Group {
        group: *group,
        node,
        state,
    })?;
    push_why(lines, group, node, reason)
}

/// The reason, where there is one.
fn push_why(
    lines: &mut Vec<StatusEntry>,
    group: &Name,
    node: NodeId,
    reason: Option<Reason>,
) -> Result<(), NoMemory>
    ensures { OnOk result (lines.new.items ≡ lines.old.items ++ why_line group.now node reason) }
{
    if let Some(reason) = reason {
        lines.push(StatusEntry::Why {
            group: *group,
            node,
            reason,
        })?;
    }
    Ok(())
}
