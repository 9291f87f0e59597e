ghost use Rattle.std.specs.Prelude.{◌≡◌, [], true, false, OnOk, OnErr, length, slice_get};
ghost use Rattle.rg_view.specs.Marks.{MarksAreApart, is_marked, marks_with, marks_without, marks_of_others, MarksAfter, MarksGone};

use crate::memory::NoMemory;
use crate::name_at::NameAt;
use cl_base::{Name, NodeId};
use indexmap::IndexSet;
use std::alloc::Global;
use std::marker::Model;

/// Names at nodes that have a mark. Contracts see the list of them, none twice, in the order in
/// which they were added.
#[derive(Debug, Drop)]
pub struct Marks {
    marks: IndexSet<NameAt>,
}

impl Model for Marks {
    ghost use Rattle.std.specs.Prelude.{List};
    ghost use Rattle.rg_view.specs.declared.name_at.NameAt.{NameAt};

    ghost Value = { List NameAt };

    ghost use Rattle.std.specs.List.{IsDistinct};
    ghost use Rattle.rg_view.specs.Places.{same_place};

    ghost view = { λ m. m.marks.keys };

    ghost invariant = { λ m. IsDistinct same_place m.marks.keys };
}

impl Marks {
    /// Nothing has the mark.
    pub fn new(alloc: Global) -> Marks
        ensures value { result ≡ [] }
    {
        Marks {
            marks: IndexSet::new(alloc),
        }
    }

    /// Whether the name has the mark at the node.
    pub fn has(&self, x: &Name, n: NodeId) -> bool
        ensures value { result ≡ is_marked self.now x.now n }
    {
        self.marks.contains(&NameAt { name: *x, node: n })
    }

    /// Marks the name at the node. Where it has the mark nothing is changed.
    pub fn add(&mut self, x: &Name, n: NodeId) -> Result<(), NoMemory>
        ensures ok { OnOk result (self.new ≡ marks_with self.old x.now n) }
        ensures after { OnOk result (MarksAfter self.old x.now n true self.new) }
        ensures err { OnErr result (self.new ≡ self.old) }
    {
        match self.marks.insert(NameAt { name: *x, node: n }) {
            Ok(_) => Ok(()),
            Err(_) => Err(NoMemory),
        }
    }

    /// Takes the mark from the name at the node. The others keep their order.
    pub fn remove(&mut self, x: &Name, n: NodeId)
        ensures value { self.new ≡ marks_without self.old x.now n }
        ensures after { MarksAfter self.old x.now n false self.new }
    {
        self.marks.shift_remove(&NameAt { name: *x, node: n });
    }

    /// Takes the mark from the name at all nodes. The others keep their order.
    pub fn remove_all(&mut self, x: &Name)
        ensures value { self.new ≡ marks_of_others self.old x.now }
        ensures after { MarksGone self.old x.now self.new }
    {
        self.marks.retain(|m| x.bytes() != m.name.bytes());
    }

    /// How many marks there are.
    pub fn len(&self) -> usize
        ensures value { result ≡ length self.now }
        ensures apart { MarksAreApart self.now }
    {
        self.marks.len()
    }

    /// The mark at this place of the list, counted from 0.
    pub fn get(&self, place: usize) -> Option<NameAt>
        ensures value { result ≡ slice_get self.now place }
    {
        self.marks.get_index(place).copied()
    }
}
