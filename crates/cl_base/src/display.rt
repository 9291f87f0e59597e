// How numbers of nodes, devices and attempts are printed: in decimal digits.
use crate::device::DevId;
use crate::epoch::Epoch;
use crate::node::NodeId;
use std::fmt;

impl fmt::Display for NodeId {
    ghost use Rattle.std.specs.Prelude.{Some};
    ghost use Rattle.std.specs.Fmt.{decimal};

    ghost output = { λ n. Some (decimal n) };

    fn fmt<W: fmt::Write>(&self, f: &mut fmt::Formatter<W>) -> fmt::Result {
        let number = self.number();
        write!(f, "{number}")
    }
}

impl fmt::Display for DevId {
    ghost use Rattle.std.specs.Prelude.{Some};
    ghost use Rattle.std.specs.Fmt.{decimal};

    ghost output = { λ n. Some (decimal n) };

    fn fmt<W: fmt::Write>(&self, f: &mut fmt::Formatter<W>) -> fmt::Result {
        let number = self.number();
        write!(f, "{number}")
    }
}

impl fmt::Display for Epoch {
    ghost use Rattle.std.specs.Prelude.{Some};
    ghost use Rattle.std.specs.Fmt.{decimal};

    ghost output = { λ e. Some (decimal e) };

    fn fmt<W: fmt::Write>(&self, f: &mut fmt::Formatter<W>) -> fmt::Result {
        let number = self.number();
        write!(f, "{number}")
    }
}
