// The rows of shared addresses.
ghost use Rattle.std.specs.Prelude.{◌≡◌, ◌++◌, OnOk};
ghost use Rattle.ccr_rows.specs.Rows.{address_rows, all_address_rows};

use crate::row::{push_list, push_name, push_row_of};
use ccr_tables::{Address, Addresses};
use ccr_text::Row;
use cl_base::Name;
use std::alloc::{AllocError, Global};
use update_words::policy_word;

/// Adds the rows of the table `addresses`.
pub fn push_addresses(
    rows: &mut Vec<Row>,
    alloc: Global,
    addresses: &Addresses,
) -> Result<(), AllocError>
    ensures { OnOk result (rows.new.items ≡ rows.old.items ++ all_address_rows addresses.now) }
{
    for place in 0..addresses.len() {
        if let Some((name, address)) = addresses.at(place) {
            push_address(rows, alloc, name, address)?;
        }
    }
    Ok(())
}

fn push_address(
    rows: &mut Vec<Row>,
    alloc: Global,
    name: &Name,
    address: &Address,
) -> Result<(), AllocError>
    ensures { OnOk result (rows.new.items ≡ rows.old.items ++ address_rows name.now address.now) }
{
    push_name(rows, alloc, name, "group", &address.group)?;
    let policy = policy_word(address.policy).to_vec(alloc)?;
    push_row_of(rows, alloc, name, "policy", policy)?;
    push_list(rows, alloc, name, "weights", &address.weights)
}
