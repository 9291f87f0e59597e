// The lines of a query.
ghost use Rattle.std.specs.Prelude.{◌≡◌, ◌++◌, IfOk, OnOk};
ghost use Rattle.group_lines.specs.Groups.{group_lines};
ghost use Rattle.group_lines.specs.Resources.{resource_lines};
ghost use Rattle.node_model.specs.Presidents.{told_lines};
ghost use Rattle.node_queries.specs.Queries.{lines_under};
ghost use Rattle.query_lines.specs.Lines.{table_lines};

use ccr_tables::Config;
use cl_base::{NodeSet, Query, Table};
use group_lines::{group_lines, resource_lines};
use node_model::{Output, Presidency, give};
use query_lines::{quorum_lines, table_lines};
use rgm_president::President;
use status_report::{Entry, StatusEntry};
use std::alloc::{AllocError, Global};

/// What the query is answered by a president of these members under this configuration.
pub fn lines_of(
    alloc: Global,
    config: &Config,
    members: NodeSet,
    presidency: &Presidency,
    query: Query,
) -> Result<Vec<StatusEntry>, AllocError>
    ensures value { IfOk result (λ lines. lines.items ≡ lines_under config.now members presidency.now query) }
{
    match query {
        Query::GroupStatus => lines_of_groups(alloc, config, &presidency.groups),
        Query::ResourceStatus => lines_of_resources(alloc, config, &presidency.groups),
        Query::QuorumStatus => quorum_lines(alloc, config.votes(), members, presidency.held),
        Query::Rows(table) => lines_of_table(alloc, config, table),
    }
}

fn lines_of_groups(
    alloc: Global,
    config: &Config,
    president: &President,
) -> Result<Vec<StatusEntry>, AllocError>
    ensures value { IfOk result (λ lines. lines.items ≡ group_lines config.now president.now.view) }
{
    match group_lines(alloc, config, president) {
        Ok(lines) => Ok(lines),
        Err(_) => Err(AllocError),
    }
}

fn lines_of_resources(
    alloc: Global,
    config: &Config,
    president: &President,
) -> Result<Vec<StatusEntry>, AllocError>
    ensures value { IfOk result (λ lines. lines.items ≡ resource_lines config.now president.now.view) }
{
    match resource_lines(alloc, config, president.view()) {
        Ok(lines) => Ok(lines),
        Err(_) => Err(AllocError),
    }
}

fn lines_of_table(
    alloc: Global,
    config: &Config,
    table: Table,
) -> Result<Vec<StatusEntry>, AllocError>
    ensures value { IfOk result (λ lines. lines.items ≡ table_lines config.now table) }
{
    match table_lines(alloc, config, table) {
        Ok(lines) => Ok(lines),
        Err(_) => Err(AllocError),
    }
}

/// The lines are told.
pub fn tell_lines(lines: Vec<StatusEntry>, out: &mut Vec<Output>) -> Result<(), AllocError>
    ensures told { OnOk result (out.new.items ≡ out.old.items ++ told_lines lines.items) }
{
    for line in lines {
        give(out, Output::Tells(Entry::Status(line)))?;
    }
    Ok(())
}
