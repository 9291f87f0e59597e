ghost use Rattle.std.specs.Prelude.{◌∷◌};
ghost use Rattle.std.specs.Hash.{u64 as words};
ghost use Rattle.std.proofs.Common.{rules};
ghost use Rattle.rg_view.specs.Places.{same_place};
ghost use Rattle.rg_view.specs.PlaceLaws.{same_place_laws, same_place_equiv, place_is};

use cl_base::{Name, NodeId};
use std::hash::{Hash, Hasher};

/// The name of a group or resource, and a node.
#[derive(Clone, Copy, Debug)]
pub struct NameAt {
    /// The name.
    pub name: Name,
    /// The node.
    pub node: NodeId,
}

impl PartialEq for NameAt {
    ghost eq = { same_place };

    ghost laws = { same_place_laws };

    fn eq(&self, other: &NameAt) -> bool {
        self.name.bytes() == other.name.bytes() && self.node == other.node
    }
}

impl Eq for NameAt {
    ghost laws = { same_place_equiv };
}

impl Hash for NameAt {
    ghost hash_input = { λ p. p.name ∷ words p.node };

    ghost respects_eq = { place_is };

    fn hash<H: Hasher>(&self, state: &mut H) {
        state.write(self.name.bytes());
        state.write_u64(self.node.number());
    }
}
