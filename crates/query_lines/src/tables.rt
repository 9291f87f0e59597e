// The text of a table.
ghost use Rattle.std.specs.Prelude.{◌≡◌, ◌++◌, map, IfOk, OnOk};
ghost use Rattle.query_lines.specs.Lines.{row_line, table_lines};

use crate::error::NoMemory;
use ccr_rows::table;
use ccr_tables::Config;
use ccr_text::{Row, checksum};
use cl_base::Table;
use status_report::{StatusEntry, TableLine};
use std::alloc::{AllocError, Global};

/// The lines of the table: its generation number, the checksum of its rows, and each row in order.
pub fn table_lines(alloc: Global, config: &Config, t: Table) -> Result<Vec<StatusEntry>, NoMemory>
    ensures value { IfOk result (λ lines. lines.items ≡ table_lines config.now t) }
{
    let (number, rows) = table(alloc, config, t)?;
    let digest = checksum(alloc, &rows)?;
    let mut lines = vec![in alloc;
        StatusEntry::Table(TableLine::Generation(number)),
        StatusEntry::Table(TableLine::Checksum(digest)),
    ]?;
    push_rows(&mut lines, rows.into_items())?;
    Ok(lines)
}

fn push_rows(lines: &mut Vec<StatusEntry>, rows: Vec<Row>) -> Result<(), AllocError>
    ensures { OnOk result (lines.new.items ≡ lines.old.items ++ map row_line rows.items) }
{
    for row in rows {
        lines.push(StatusEntry::Table(TableLine::Row {
            key: row.key,
            value: row.value,
        }))?;
    }
    Ok(())
}
