ghost use Rattle.std.specs.Prelude.{◌≡◌, [], OnOk, OnErr, length, slice_get};
ghost use Rattle.rg_view.specs.Goals.{GoalsAreApart, goal_of, goals_with, goals_without, GoalsAfter};

use crate::memory::NoMemory;
use cl_base::{Name, NodeSet};
use indexmap::IndexMap;
use std::alloc::Global;
use std::marker::Model;

/// For groups, the nodes that are the goal. Contracts see the list of groups with their nodes, none
/// twice, in the order in which they came. A group that is not listed has no node as its goal.
#[derive(Debug, Drop)]
pub struct Goals {
    goals: IndexMap<Name, NodeSet>,
}

impl Model for Goals {
    ghost use Rattle.std.specs.Prelude.{List, ℕ};

    ghost Value = { List (List ℕ × ℕ) };

    ghost use Rattle.std.specs.List.{IsDistinct};
    ghost use Rattle.std.specs.Map.{keys_of};
    ghost use Rattle.std.specs.Str.{bytes_eq};

    ghost view = { λ g. g.goals.entries };

    ghost invariant = { λ g. IsDistinct bytes_eq (keys_of g.goals.entries) };
}

impl Goals {
    /// No group is listed.
    pub fn new(alloc: Global) -> Goals
        ensures value { result ≡ [] }
    {
        Goals {
            goals: IndexMap::new(alloc),
        }
    }

    /// The nodes that are the group's goal.
    pub fn goal(&self, g: &Name) -> NodeSet
        ensures value { result ≡ goal_of self.now g.now }
    {
        self.goals.get(g).copied().unwrap_or(NodeSet::empty())
    }

    /// Sets the group's goal, in its place of the list or else at the end.
    pub fn set(&mut self, g: Name, nodes: NodeSet) -> Result<(), NoMemory>
        ensures ok { OnOk result (self.new ≡ goals_with self.old g nodes) }
        ensures after { OnOk result (GoalsAfter self.old g nodes self.new) }
        ensures err { OnErr result (self.new ≡ self.old) }
    {
        match self.goals.insert(g, nodes) {
            Ok(_) => Ok(()),
            Err(_) => Err(NoMemory),
        }
    }

    /// Takes the group from the list. The others keep their order.
    pub fn remove(&mut self, g: &Name)
        ensures value { self.new ≡ goals_without self.old g.now }
        ensures after { GoalsAfter self.old g.now 0 self.new }
    {
        self.goals.shift_remove(g);
    }

    /// Takes all groups from the list.
    pub fn clear(&mut self)
        ensures value { self.new ≡ [] }
    {
        self.goals.clear();
    }

    /// How many groups are listed.
    pub fn len(&self) -> usize
        ensures value { result ≡ length self.now }
        ensures apart { GoalsAreApart self.now }
    {
        self.goals.len()
    }

    /// The group at this place of the list, counted from 0, with its goal.
    pub fn get(&self, place: usize) -> Option<(Name, NodeSet)>
        ensures value { result ≡ slice_get self.now place }
    {
        self.goals.get_index(place).map(|(g, nodes)| (*g, *nodes))
    }
}
