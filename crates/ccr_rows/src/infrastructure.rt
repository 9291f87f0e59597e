// The rows of votes and load limits.
ghost use Rattle.std.specs.Prelude.{◌≡◌, ◌++◌, ◌∷◌, [], map, OnOk};
ghost use Rattle.cl_base.specs.Limits.{most_devices};
ghost use Rattle.ccr_rows.specs.Rows.{device_rows, device_rows_to, infrastructure_rows, limit_row, node_row};

use crate::row::push_row;
use crate::words::{device_word, number_text, word_text};
use ccr_tables::Config;
use ccr_text::Row;
use cl_base::{DevId, NodeId};
use load_limits::Limit;
use std::alloc::{AllocError, Global};

/// Adds the rows of the table `infrastructure`.
pub fn push_infrastructure(
    rows: &mut Vec<Row>,
    alloc: Global,
    config: &Config,
) -> Result<(), AllocError>
    ensures { OnOk result (rows.new.items ≡ rows.old.items ++ infrastructure_rows config.now) }
{
    push_nodes(rows, alloc, config)?;
    push_devices(rows, alloc, config)?;
    push_limits(rows, alloc, config)
}

fn push_nodes(rows: &mut Vec<Row>, alloc: Global, config: &Config) -> Result<(), AllocError>
    ensures { OnOk result (rows.new.items ≡ rows.old.items ++ map (node_row config.now) config.now.order) }
{
    for node in config.order() {
        push_node(rows, alloc, config, *node)?;
    }
    Ok(())
}

fn push_node(
    rows: &mut Vec<Row>,
    alloc: Global,
    config: &Config,
    node: NodeId,
) -> Result<(), AllocError>
    ensures { OnOk result (rows.new.items ≡ rows.old.items ++ node_row config.now node ∷ []) }
{
    let key = format!(in alloc; "node.{node}")?;
    let vote = number_text(alloc, config.votes().node_vote(node))?;
    push_row(rows, key.into_bytes(), vote)
}

fn push_devices(rows: &mut Vec<Row>, alloc: Global, config: &Config) -> Result<(), AllocError>
    ensures { OnOk result (rows.new.items ≡ rows.old.items ++ device_rows_to config.now most_devices) }
{
    for place in 0..DevId::MOST {
        if let Ok(device) = DevId::new(place + 1) {
            push_device(rows, alloc, config, device)?;
        }
    }
    Ok(())
}

fn push_device(
    rows: &mut Vec<Row>,
    alloc: Global,
    config: &Config,
    device: DevId,
) -> Result<(), AllocError>
    ensures { OnOk result (rows.new.items ≡ rows.old.items ++ device_rows config.now device) }
{
    if !config.has_device(device) {
        return Ok(());
    }
    let key = format!(in alloc; "device.{device}")?;
    let state = word_text(alloc, device_word(config.votes().device_state(device)))?;
    push_row(rows, key.into_bytes(), state)
}

fn push_limits(rows: &mut Vec<Row>, alloc: Global, config: &Config) -> Result<(), AllocError>
    ensures { OnOk result (rows.new.items ≡ rows.old.items ++ map limit_row config.now.limits) }
{
    for limit in config.limits().items() {
        push_limit(rows, alloc, limit)?;
    }
    Ok(())
}

fn push_limit(rows: &mut Vec<Row>, alloc: Global, limit: &Limit) -> Result<(), AllocError>
    ensures { OnOk result (rows.new.items ≡ rows.old.items ++ limit_row limit.now ∷ []) }
{
    let node = limit.node;
    let soft = limit.soft;
    let hard = limit.hard;
    let mut key = format!(in alloc; "load.{node}.")?.into_bytes();
    key.extend_from_slice(limit.name.bytes())?;
    let bounds = format!(in alloc; "{soft} {hard}")?;
    push_row(rows, key, bounds.into_bytes())
}
