ghost use Rattle.std.specs.Prelude.{◌≡◌};
ghost use Rattle.cl_base.specs.Seizings.{bare};

use crate::device::DevId;
use crate::items::Items;

/// How the seizing of a device for an attempt ended, with what is told of the keys that were read
/// last.
#[derive(Clone, Copy, Debug, PartialEq, Eq, Drop)]
pub enum SeizeEnd<K> {
    /// It is held: the keys are members' alone, and the epoch word is the attempt's.
    Held(K),
    /// The node's key is not registered, or is registered and not validated.
    NotRegistered(K),
    /// The epoch word is this, and not the attempt's.
    Greater(u64),
    /// The node's key was taken off.
    Expelled,
    /// The 64th reading of the keys still had this key of a node that is no member.
    Contended(u64),
    /// A command failed.
    Fault,
}

impl<K> SeizeEnd<K> {
    /// The same, without the keys.
    pub fn bare(&self) -> SeizeEnd<()>
        ensures value { result ≡ bare self.now }
    {
        match self {
            SeizeEnd::Held(_) => SeizeEnd::Held(()),
            SeizeEnd::NotRegistered(_) => SeizeEnd::NotRegistered(()),
            SeizeEnd::Greater(word) => SeizeEnd::Greater(*word),
            SeizeEnd::Expelled => SeizeEnd::Expelled,
            SeizeEnd::Contended(key) => SeizeEnd::Contended(*key),
            SeizeEnd::Fault => SeizeEnd::Fault,
        }
    }
}

/// Why an attempt does not count a device.
#[derive(Clone, Copy, Debug, PartialEq, Eq)]
pub enum Obstacle {
    /// No member has a path to it.
    NoPath,
    /// Its seizing ended so.
    Seizing(SeizeEnd<()>),
}

/// A device that an attempt does not count.
#[derive(Clone, Copy, Debug, PartialEq, Eq)]
pub struct Lack {
    /// The device.
    pub device: DevId,
    /// Why.
    pub obstacle: Obstacle,
}

/// The devices that an attempt does not count, by number.
pub type Lacking = Items<Lack>;
