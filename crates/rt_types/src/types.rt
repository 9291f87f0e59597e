ghost use Rattle.std.specs.Prelude.{◌≡◌, ◌++◌, ◌∷◌, [], None, Some, IsSome, OnOk, OnErr, length, slice_get};
ghost use Rattle.std.specs.Option.{option_copied, option_map};
ghost use Rattle.rt_types.specs.Types.{type_of, types_without, FindsAt};

use crate::resource_type::ResourceType;
use cl_base::Name;
use indexmap::IndexMap;
use std::alloc::Global;
use std::marker::Model;
use thiserror::Error;

/// There was no memory for one more type.
#[derive(Clone, Copy, Debug, PartialEq, Eq, Error)]
#[error("no memory")]
pub struct NoMemory;

/// The resource types of a cluster. Contracts see the list of their names with their fields, in
/// order of creation.
#[derive(Debug, Drop)]
pub struct Types {
    types: IndexMap<Name, ResourceType>,
}

impl Model for Types {
    ghost use Rattle.std.specs.Prelude.{List, ℕ};
    ghost use Rattle.rt_types.specs.Fields.{TypeFields};

    ghost Value = { List (List ℕ × TypeFields) };

    ghost view = { λ t. t.types.entries };
}

impl Types {
    /// No types yet.
    pub fn new(alloc: Global) -> Types
        ensures value { result ≡ [] }
    {
        Types {
            types: IndexMap::new(alloc),
        }
    }

    /// The type of this name, if there is one.
    pub fn resource_type(&self, name: &Name) -> Option<&ResourceType>
        ensures value { option_copied result ≡ type_of self.now name.now }
    {
        self.types.get(name)
    }

    /// Adds a type of a new name after the others. After `NoMemory` nothing is changed.
    pub fn register(&mut self, name: Name, t: ResourceType) -> Result<(), NoMemory>
        requires { type_of self.old name ≡ None }
        ensures ok { OnOk result (self.new ≡ self.old ++ (name, t) ∷ []) }
        ensures found { OnOk result (FindsAt self.old name (Some t) self.new) }
        ensures err { OnErr result (self.new ≡ self.old) }
    {
        match self.types.insert(name, t) {
            Ok(_) => Ok(()),
            Err(_) => Err(NoMemory),
        }
    }

    /// Removes the type of this name. The others keep their order.
    pub fn unregister(&mut self, name: &Name)
        requires { IsSome (type_of self.old name.now) }
        ensures value { self.new ≡ types_without self.old name.now }
        ensures found { FindsAt self.old name.now None self.new }
    {
        self.types.shift_remove(name);
    }

    /// How many types there are.
    pub fn len(&self) -> usize
        ensures value { result ≡ length self.now }
    {
        self.types.len()
    }

    /// The name and the type at this place in order of creation, counted from 0.
    pub fn at(&self, place: usize) -> Option<(&Name, &ResourceType)>
        ensures value { option_map (λ p. (p.0.now, p.1.now)) result ≡ slice_get self.now place }
    {
        self.types.get_index(place)
    }
}
