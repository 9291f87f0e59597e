ghost use Rattle.std.specs.Prelude.{◌≡◌};
ghost use Rattle.rg_props.specs.Affinities.{affinity_sign, is_close, is_best, same_affinity};

use cl_base::Name;
use std::fmt;

/// Where a group is to be, seen from the nodes of another.
#[derive(Clone, Copy, Debug, PartialEq, Eq)]
pub enum Affinity {
    /// On a node where the other is, and nowhere else.
    PlusPlus,
    /// Rather where the other is.
    Plus,
    /// Rather where the other is not.
    Minus,
    /// On no node where the other is.
    MinusMinus,
    /// As `PlusPlus`, and where the other moves, it moves with it.
    PlusPlusPlus,
}

/// A group and the affinity that is declared to it.
#[derive(Clone, Copy, Debug, PartialEq, Eq)]
pub struct Affine {
    /// The affinity.
    pub affinity: Affinity,
    /// The group that it is declared to.
    pub group: Name,
}

impl Affinity {
    /// Its sign, as it stands before the group's name.
    pub fn sign(self) -> &'static [u8]
        ensures value { result.now ≡ affinity_sign self }
    {
        match self {
            Affinity::PlusPlus => b"++",
            Affinity::Plus => b"+",
            Affinity::Minus => b"-",
            Affinity::MinusMinus => b"--",
            Affinity::PlusPlusPlus => b"+++",
        }
    }

    /// Whether the two groups are to be on the same node.
    pub fn is_close(self) -> bool
        ensures value { result ≡ is_close self }
    {
        match self {
            Affinity::PlusPlus | Affinity::PlusPlusPlus => true,
            Affinity::Plus | Affinity::Minus | Affinity::MinusMinus => false,
        }
    }

    /// Whether it is the one that a group declares once at most.
    pub fn is_best(self) -> bool
        ensures value { result ≡ is_best self }
    {
        match self {
            Affinity::PlusPlusPlus => true,
            Affinity::PlusPlus | Affinity::Plus | Affinity::Minus | Affinity::MinusMinus => false,
        }
    }

    /// Whether the two are the same.
    pub fn is(self, other: Affinity) -> bool
        ensures value { result ≡ same_affinity self other }
    {
        self == other
    }
}

impl fmt::Display for Affinity {
    ghost use Rattle.std.specs.Prelude.{Some};
    ghost use Rattle.rg_props.specs.Affinities.{affinity_sign};

    ghost output = { λ a. Some (affinity_sign a) };

    fn fmt<W: fmt::Write>(&self, f: &mut fmt::Formatter<W>) -> fmt::Result {
        match *self {
            Affinity::PlusPlus => write!(f, "++"),
            Affinity::Plus => write!(f, "+"),
            Affinity::Minus => write!(f, "-"),
            Affinity::MinusMinus => write!(f, "--"),
            Affinity::PlusPlusPlus => write!(f, "+++"),
        }
    }
}
