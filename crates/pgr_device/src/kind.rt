ghost use Rattle.std.specs.Prelude.{◌≡◌};
ghost use Rattle.pgr_device.specs.Access.{reads_allowed, writes_allowed};

/// The type of a persistent reservation (SPC-3, clause 6.11.3.4).
#[derive(Clone, Copy, Debug, PartialEq, Eq)]
pub enum PrKind {
    /// Type 1h: anyone may read, and the holder alone may write.
    WriteExclusive,
    /// Type 3h: the holder alone may read and write.
    ExclusiveAccess,
    /// Type 5h: anyone may read, and the registered may write.
    WriteExclusiveRegistrantsOnly,
    /// Type 6h: the registered may read and write.
    ExclusiveAccessRegistrantsOnly,
}

impl PrKind {
    /// Whether a reservation of this type lets a node read.
    pub(crate) fn allows_read(self, holds: bool, registered: bool) -> bool
        ensures { result ≡ reads_allowed self holds registered }
    {
        match self {
            PrKind::WriteExclusive | PrKind::WriteExclusiveRegistrantsOnly => true,
            PrKind::ExclusiveAccess => holds,
            PrKind::ExclusiveAccessRegistrantsOnly => registered,
        }
    }

    /// Whether a reservation of this type lets a node write.
    pub(crate) fn allows_write(self, holds: bool, registered: bool) -> bool
        ensures { result ≡ writes_allowed self holds registered }
    {
        match self {
            PrKind::WriteExclusive | PrKind::ExclusiveAccess => holds,
            PrKind::WriteExclusiveRegistrantsOnly | PrKind::ExclusiveAccessRegistrantsOnly => {
                registered
            }
        }
    }
}
