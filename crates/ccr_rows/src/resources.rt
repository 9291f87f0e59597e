// The rows of resources.
ghost use Rattle.std.specs.Prelude.{◌≡◌, ◌++◌, ◌∷◌, [], OnOk, codes};
ghost use Rattle.std.specs.Fmt.{decimal};
ghost use Rattle.ccr_rows.specs.Texts.{choice_text, mode_text, names_text};
ghost use Rattle.ccr_rows.specs.Rows.{all_resource_rows, resource_rows, row_of};

use crate::row::{push_choice, push_list, push_name, push_number, push_word};
use crate::words::mode_word;
use ccr_text::Row;
use cl_base::Name;
use rg_props::{Groups, Resource};
use std::alloc::{AllocError, Global};

/// Adds the rows of the table `resources`.
pub fn push_resources(rows: &mut Vec<Row>, alloc: Global, groups: &Groups) -> Result<(), AllocError>
    ensures { OnOk result (rows.new.items ≡ rows.old.items ++ all_resource_rows groups.now.resources) }
{
    for place in 0..groups.resource_count() {
        if let Some((name, resource)) = groups.resource_at(place) {
            push_resource(rows, alloc, name, resource)?;
        }
    }
    Ok(())
}

fn push_resource(
    rows: &mut Vec<Row>,
    alloc: Global,
    name: &Name,
    resource: &Resource,
) -> Result<(), AllocError>
    ensures { OnOk result (rows.new.items ≡ rows.old.items ++ resource_rows name.now resource.now) }
{
    push_kind(rows, alloc, name, resource)?;
    push_flags(rows, alloc, name, resource)?;
    push_dependencies(rows, alloc, name, resource)?;
    push_mode(rows, alloc, name, resource)?;
    push_retries(rows, alloc, name, resource)
}

// What it is.
fn push_kind(
    rows: &mut Vec<Row>,
    alloc: Global,
    name: &Name,
    resource: &Resource,
) -> Result<(), AllocError>
    ensures { OnOk result (rows.new.items ≡ rows.old.items ++
        row_of name.now (codes "group") resource.now.group
        ∷ row_of name.now (codes "type") resource.now.resource_type ∷ []) }
{
    push_name(rows, alloc, name, "group", &resource.group)?;
    push_name(rows, alloc, name, "type", &resource.resource_type)
}

// What commands of its own set.
fn push_flags(
    rows: &mut Vec<Row>,
    alloc: Global,
    name: &Name,
    resource: &Resource,
) -> Result<(), AllocError>
    ensures { OnOk result (rows.new.items ≡ rows.old.items ++
        row_of name.now (codes "enabled") (choice_text resource.now.enabled)
        ∷ row_of name.now (codes "monitored") (choice_text resource.now.monitored) ∷ []) }
{
    push_choice(rows, alloc, name, "enabled", resource.enabled)?;
    push_choice(rows, alloc, name, "monitored", resource.monitored)
}

// Which resources it depends on.
fn push_dependencies(
    rows: &mut Vec<Row>,
    alloc: Global,
    name: &Name,
    resource: &Resource,
) -> Result<(), AllocError>
    ensures { OnOk result (rows.new.items ≡ rows.old.items ++
        row_of name.now (codes "Resource_dependencies") (names_text resource.now.strong)
        ∷ row_of name.now (codes "Resource_dependencies_weak") (names_text resource.now.weak)
        ∷ row_of name.now (codes "Resource_dependencies_offline_restart") (names_text resource.now.offline_restart) ∷ []) }
{
    push_list(rows, alloc, name, "Resource_dependencies", &resource.strong)?;
    push_list(
        rows,
        alloc,
        name,
        "Resource_dependencies_weak",
        &resource.weak,
    )?;
    let word = "Resource_dependencies_offline_restart";
    push_list(rows, alloc, name, word, &resource.offline_restart)
}

// What becomes of it where a method fails.
fn push_mode(
    rows: &mut Vec<Row>,
    alloc: Global,
    name: &Name,
    resource: &Resource,
) -> Result<(), AllocError>
    ensures { OnOk result (rows.new.items ≡ rows.old.items ++
        row_of name.now (codes "Failover_mode") (mode_text resource.now.mode) ∷ []) }
{
    push_word(rows, alloc, name, "Failover_mode", mode_word(resource.mode))
}

// How often it is restarted, and within how many seconds.
fn push_retries(
    rows: &mut Vec<Row>,
    alloc: Global,
    name: &Name,
    resource: &Resource,
) -> Result<(), AllocError>
    ensures { OnOk result (rows.new.items ≡ rows.old.items ++
        row_of name.now (codes "Retry_count") (decimal resource.now.retry_count)
        ∷ row_of name.now (codes "Retry_interval") (decimal resource.now.retry_interval) ∷ []) }
{
    push_number(rows, alloc, name, "Retry_count", resource.retry_count)?;
    push_number(rows, alloc, name, "Retry_interval", resource.retry_interval)
}
