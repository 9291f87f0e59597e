ghost use Rattle.std.specs.Prelude.{◌≡◌, ◌++◌, IfOk, OnOk};
ghost use Rattle.ccr_tables.specs.Updates.{generation_of};
ghost use Rattle.ccr_rows.specs.Rows.{rows_of};

use crate::addresses::push_addresses;
use crate::error::NoMemory;
use crate::groups::push_groups;
use crate::infrastructure::push_infrastructure;
use crate::resource_types::push_types;
use crate::resources::push_resources;
use ccr_tables::Config;
use ccr_text::{Row, TableRows};
use cl_base::Table;
use std::alloc::{AllocError, Global};

/// The table's generation number and its rows.
pub fn table(alloc: Global, config: &Config, t: Table) -> Result<(u64, TableRows), NoMemory>
    ensures number { IfOk result (λ found. found.0 ≡ generation_of config.now.generations t) }
    ensures rows { IfOk result (λ found. found.1 ≡ rows_of config.now t) }
{
    let mut rows = Vec::new(alloc);
    push_table(&mut rows, alloc, config, t)?;
    Ok((config.generation(t), TableRows::new(rows)))
}

fn push_table(
    rows: &mut Vec<Row>,
    alloc: Global,
    config: &Config,
    t: Table,
) -> Result<(), AllocError>
    ensures { OnOk result (rows.new.items ≡ rows.old.items ++ rows_of config.now t) }
{
    match t {
        Table::Infrastructure => push_infrastructure(rows, alloc, config),
        Table::Types => push_types(rows, alloc, config.types()),
        Table::Groups => push_groups(rows, alloc, config.groups()),
        Table::Resources => push_resources(rows, alloc, config.groups()),
        Table::Addresses => push_addresses(rows, alloc, config.addresses()),
    }
}
