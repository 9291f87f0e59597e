ghost use Rattle.std.specs.Prelude.{◌≡◌};
ghost use Rattle.ccr_tables.specs.Updates.{has_addresses, table_named};

use crate::update::Update;
use cl_base::{Ask, Name, Query, Table, Version};

/// A command of an administrator.
#[derive(Drop)]
pub enum AdminCommand {
    /// It changes the configuration.
    Change(Update),
    /// It asks the president for something else: to remaster, to evacuate or to clear.
    Act(Ask),
    /// It asks how the groups, the resources or the votes stand.
    Status(Query),
    /// `ccr`: it asks for the table of this name, which may not be there.
    Rows(Name),
}

#[tactic(auto, unfolding(crate::specs::Updates::table_named))]
/// The table of this name under the version, if there is one.
pub fn table_named(version: Version, name: &Name) -> Option<Table>
    ensures value { result ≡ table_named version name.now }
{
    let word = name.bytes();
    if word == b"infrastructure".as_slice() {
        Some(Table::Infrastructure)
    } else if word == b"types".as_slice() {
        Some(Table::Types)
    } else if word == b"groups".as_slice() {
        Some(Table::Groups)
    } else if word == b"resources".as_slice() {
        Some(Table::Resources)
    } else if word == b"addresses".as_slice() && has_addresses(version) {
        Some(Table::Addresses)
    } else {
        None
    }
}

fn has_addresses(version: Version) -> bool
    ensures { result ≡ has_addresses version }
{
    match version {
        Version::One => false,
        Version::Two => true,
    }
}
