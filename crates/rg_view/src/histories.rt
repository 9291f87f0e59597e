ghost use Rattle.std.specs.Prelude.{◌≡◌, [], Some, OnOk, OnErr, length, slice_get};
ghost use Rattle.std.specs.Option.{option_copied};
ghost use Rattle.rg_view.specs.Histories.{HistoriesAreApart, history_at, histories_with, histories_of_others};
ghost use Rattle.rg_view.specs.Tables.{FindsAt, LosesAt};

use crate::memory::NoMemory;
use crate::name_at::NameAt;
use cl_base::{Name, NodeId, Seconds};
use indexmap::IndexMap;
use std::alloc::Global;
use std::marker::Model;

/// What is remembered of a group on a node.
#[derive(Debug, Drop)]
pub struct GroupAt {
    /// The group.
    pub group: Name,
    /// The node.
    pub node: NodeId,
    /// The seconds at which a start of it failed there.
    pub failures: Seconds,
    /// The seconds at which it was moved away from there.
    pub moves: Seconds,
}

/// The histories of groups on nodes. Contracts see the list of them, none twice for a group and
/// node, in the order in which they came.
#[derive(Debug, Drop)]
pub struct GroupHistories {
    histories: IndexMap<NameAt, GroupAt>,
}

impl Model for GroupHistories {
    ghost use Rattle.std.specs.Prelude.{List};
    ghost use Rattle.std.specs.Map.{values_of};
    ghost use Rattle.rg_view.specs.declared.histories.GroupAt.{GroupAt};

    ghost Value = { List GroupAt };

    ghost use Rattle.rg_view.specs.Histories.{place_of_history};
    ghost use Rattle.rg_view.specs.Tables.{IsTable};

    ghost view = { λ s. values_of s.histories.entries };

    ghost invariant = { λ s. IsTable place_of_history s.histories.entries };
}

impl GroupHistories {
    /// Nothing is remembered.
    pub fn new(alloc: Global) -> GroupHistories
        ensures value { result ≡ [] }
    {
        GroupHistories {
            histories: IndexMap::new(alloc),
        }
    }

    /// The history of the group on the node, if there is one.
    pub fn history(&self, g: &Name, n: NodeId) -> Option<&GroupAt>
        ensures value { option_copied result ≡ history_at self.now g.now n }
    {
        self.histories.get(&NameAt { name: *g, node: n })
    }

    /// Lists this history in the place of the one for its group and node, or else at the end.
    pub fn put(&mut self, h: GroupAt) -> Result<(), NoMemory>
        ensures ok { OnOk result (self.new ≡ histories_with self.old h) }
        ensures found { OnOk result (FindsAt history_at self.old h.group h.node (Some h) self.new) }
        ensures err { OnErr result (self.new ≡ self.old) }
    {
        let place = NameAt {
            name: h.group,
            node: h.node,
        };
        match self.histories.insert(place, h) {
            Ok(_) => Ok(()),
            Err(_) => Err(NoMemory),
        }
    }

    /// Forgets the group on all nodes. The others keep their order.
    pub fn remove_group(&mut self, g: &Name)
        ensures value { self.new ≡ histories_of_others self.old g.now }
        ensures found { LosesAt history_at self.old g.now self.new }
    {
        self.histories.retain(|_, h| g.bytes() != h.group.bytes());
    }

    /// How many are listed.
    pub fn len(&self) -> usize
        ensures value { result ≡ length self.now }
        ensures apart { HistoriesAreApart self.now }
    {
        self.histories.len()
    }

    /// The history at this place of the list, counted from 0.
    pub fn get(&self, place: usize) -> Option<&GroupAt>
        ensures value { option_copied result ≡ slice_get self.now place }
    {
        self.histories.get_index(place).map(|(_, h)| h)
    }
}
