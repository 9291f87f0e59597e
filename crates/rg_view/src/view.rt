ghost use Rattle.std.specs.Prelude.{◌≡◌, []};
ghost use Rattle.rg_view.specs.Orders.{no_orders};

use crate::goals::Goals;
use crate::histories::GroupHistories;
use crate::marks::Marks;
use crate::orders::Orders;
use crate::states::ResourceStates;
use cl_base::NodeSet;
use std::alloc::Global;

/// What the president of a membership knows of groups.
#[derive(Debug)]
pub struct GroupView {
    /// The members.
    pub members: NodeSet,
    /// The second.
    pub now: u64,
    /// The states of resources on nodes.
    pub resources: ResourceStates,
    /// The histories of groups on nodes.
    pub groups: GroupHistories,
    /// The nodes that are the groups' goals.
    pub goals: Goals,
    /// The groups that were evacuated from a node.
    pub evacuated: Marks,
    /// The groups that leave a node.
    pub leaving: Marks,
    /// The resources that are started anew on a node.
    pub restarting: Marks,
    /// The orders that are not done.
    pub outstanding: Orders,
}

impl Drop for GroupView {
    fn drop(self) {
        let GroupView {
            members: _,
            now: _,
            resources: _,
            groups: _,
            goals: _,
            evacuated: _,
            leaving: _,
            restarting: _,
            outstanding: _,
        } = self;
    }
}

impl GroupView {
    /// Nothing is known but the members, and the second is 0.
    pub fn new(alloc: Global, members: NodeSet) -> GroupView
        ensures value { result ≡ record { members = members; now = 0; resources = []; groups = []; goals = []; evacuated = []; leaving = []; restarting = []; outstanding = no_orders } }
    {
        GroupView {
            members,
            now: 0,
            resources: ResourceStates::new(alloc),
            groups: GroupHistories::new(alloc),
            goals: Goals::new(alloc),
            evacuated: Marks::new(alloc),
            leaving: Marks::new(alloc),
            restarting: Marks::new(alloc),
            outstanding: Orders::new(alloc),
        }
    }
}
