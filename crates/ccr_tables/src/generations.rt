ghost use Rattle.std.specs.Prelude.{◌≡◌};
ghost use Rattle.ccr_tables.specs.Updates.{counted, generation_of};

use cl_base::Table;

/// How many updates have changed each table; a count that would pass 2^64 - 1 stays there.
#[derive(Clone, Copy, Debug, PartialEq, Eq)]
pub struct Generations {
    /// Of `infrastructure`.
    pub infrastructure: u64,
    /// Of `types`.
    pub types: u64,
    /// Of `groups`.
    pub groups: u64,
    /// Of `resources`.
    pub resources: u64,
    /// Of `addresses`.
    pub addresses: u64,
}

impl Generations {
    /// The generation number of the table.
    pub fn of(self, t: Table) -> u64
        ensures value { result ≡ generation_of self t }
    {
        match t {
            Table::Infrastructure => self.infrastructure,
            Table::Types => self.types,
            Table::Groups => self.groups,
            Table::Resources => self.resources,
            Table::Addresses => self.addresses,
        }
    }

    /// The same with one more update of the table.
    pub(crate) fn counted(self, t: Table) -> Generations
        ensures { result ≡ counted self t }
    {
        let mut next = self;
        let count = self.of(t).saturating_add(1);
        match t {
            Table::Infrastructure => next.infrastructure = count,
            Table::Types => next.types = count,
            Table::Groups => next.groups = count,
            Table::Resources => next.resources = count,
            Table::Addresses => next.addresses = count,
        }
        next
    }
}
