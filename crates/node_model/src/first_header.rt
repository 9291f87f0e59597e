ghost use Rattle.std.specs.Prelude.{◌≡◌, ◌≤◌, length};
ghost use Rattle.cl_base.specs.Limits.{most_devices};

use cl_base::Header;
use std::marker::Model;

/// The header of a schedule, which has no more devices than there may be. Contracts see the header.
#[derive(Drop)]
pub struct FirstHeader {
    header: Header,
}

impl Model for FirstHeader {
    ghost use Rattle.std.specs.Prelude.{◌≤◌, length};
    ghost use Rattle.cl_base.specs.declared.header.Header.{Header};

    ghost Value = { Header };

    ghost view = { λ h. h.header };

    ghost invariant = { λ h. length h.header.devices ≤ 16 };
}

impl FirstHeader {
    /// This header.
    pub fn new(header: Header) -> FirstHeader
        requires devices { length header.devices ≤ most_devices }
        ensures value { result ≡ header }
    {
        FirstHeader { header }
    }

    /// The header.
    pub fn get(&self) -> &Header
        ensures value { result.now ≡ self.now }
        ensures devices { length result.now.devices ≤ most_devices }
    {
        &self.header
    }
}
