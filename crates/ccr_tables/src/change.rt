// What each update changes, where it is not refused.
ghost use Rattle.std.specs.Prelude.{◌≡◌, ◌==◌, not, OnOk, OnErr, None};
ghost use Rattle.std.specs.List.{filter};
ghost use Rattle.ccr_tables.specs.Changes.{changed, group_flag, or_same, resource_flag, sets_group, sets_resource, state_after, voted};
ghost use Rattle.quorum_votes.specs.Changes.{IsVote};
ghost use Rattle.ccr_tables.specs.Refusals.{refusal_of};
ghost use Rattle.ccr_tables.specs.declared.update.Update.TheVariants.{RegisterType, UnregisterType, CreateGroup, DeleteGroup, SetGroup, ChangeGroup, SwitchGroup, CreateResource, DeleteResource, SetResource, ChangeResource, Device, NodeVote, AddNode, RemoveNode, CreateLimit, DeleteLimit, CreateAddress, DeleteAddress, SetWeights};

use crate::address::Weight;
use crate::config::Config;
use crate::error::NoMemory;
use crate::refuse_nodes::vote_number;
use crate::update::{DeviceChange, GroupChange, ResourceChange};
use cl_base::{DevId, Items, MethodSet, Name, NodeId, Policy};
use load_limits::Limit;
use quorum_votes::{DevState, VoteChange};
use rg_props::{Flag, SetError};
use rt_types::ResourceType;

impl Config {
    pub(crate) fn register_type(
        &mut self,
        name: Name,
        agent: Name,
        methods: MethodSet,
        single: bool,
        failover: bool,
    ) -> Result<(), NoMemory>
        requires { refusal_of self.old (RegisterType name agent methods single failover) ≡ None }
        ensures ok { OnOk result (self.new ≡ changed self.old (RegisterType name agent methods single failover)) }
        ensures err { OnErr result (self.new ≡ self.old) }
    {
        // Methods that make no type are refused.
        if let Ok(t) = ResourceType::new(agent, methods, single, failover) {
            self.types.register(name, t)?;
        }
        Ok(())
    }

    pub(crate) fn unregister_type(&mut self, name: &Name)
        requires { refusal_of self.old (UnregisterType name.now) ≡ None }
        ensures { self.new ≡ changed self.old (UnregisterType name.now) }
    {
        self.types.unregister(name);
    }

    pub(crate) fn create_group(&mut self, group: Name, nodes: &[NodeId]) -> Result<(), NoMemory>
        requires { refusal_of self.old (CreateGroup group nodes.now) ≡ None }
        ensures ok { OnOk result (self.new ≡ changed self.old (CreateGroup group nodes.now)) }
        ensures err { OnErr result (self.new ≡ self.old) }
    {
        self.groups.create_group(group, nodes)?;
        Ok(())
    }

    pub(crate) fn delete_group(&mut self, group: &Name)
        requires { refusal_of self.old (DeleteGroup group.now) ≡ None }
        ensures { self.new ≡ changed self.old (DeleteGroup group.now) }
    {
        self.groups.delete_group(group);
    }

    pub(crate) fn set_group(
        &mut self,
        group: &Name,
        property: &[u8],
        value: &[u8],
    ) -> Result<(), NoMemory>
        requires { refusal_of self.old (SetGroup group.now property.now value.now) ≡ None }
        ensures ok { OnOk result (self.new ≡ changed self.old (SetGroup group.now property.now value.now)) }
        ensures err { OnErr result (self.new ≡ self.old) }
    {
        match self.groups.set_group(group, property, value) {
            Err(SetError::NoMemory) => Err(NoMemory),
            Ok(()) | Err(SetError::BadProperty) | Err(SetError::BadSetting) => Ok(()),
        }
    }

    pub(crate) fn change_group(&mut self, group: &Name, change: GroupChange)
        requires { refusal_of self.old (ChangeGroup group.now change) ≡ None }
        ensures { self.new ≡ changed self.old (ChangeGroup group.now change) }
    {
        self.groups.set_flag(group, change.flag(), change.sets());
    }

    pub(crate) fn switch_group(&mut self, group: &Name, nodes: &[NodeId])
        requires { refusal_of self.old (SwitchGroup group.now nodes.now) ≡ None }
        ensures { self.new ≡ changed self.old (SwitchGroup group.now nodes.now) }
    {
        self.groups.set_flag(group, Flag::Wanted, true);
    }

    pub(crate) fn create_resource(
        &mut self,
        resource: Name,
        group: Name,
        resource_type: Name,
    ) -> Result<(), NoMemory>
        requires { refusal_of self.old (CreateResource resource group resource_type) ≡ None }
        ensures ok { OnOk result (self.new ≡ changed self.old (CreateResource resource group resource_type)) }
        ensures err { OnErr result (self.new ≡ self.old) }
    {
        self.groups.create_resource(resource, group, resource_type)?;
        Ok(())
    }

    pub(crate) fn delete_resource(&mut self, resource: &Name)
        requires { refusal_of self.old (DeleteResource resource.now) ≡ None }
        ensures { self.new ≡ changed self.old (DeleteResource resource.now) }
    {
        self.groups.delete_resource(resource);
    }

    pub(crate) fn set_resource(
        &mut self,
        resource: &Name,
        property: &[u8],
        value: &[u8],
    ) -> Result<(), NoMemory>
        requires { refusal_of self.old (SetResource resource.now property.now value.now) ≡ None }
        ensures ok { OnOk result (self.new ≡ changed self.old (SetResource resource.now property.now value.now)) }
        ensures err { OnErr result (self.new ≡ self.old) }
    {
        match self.groups.set_resource(resource, property, value) {
            Err(SetError::NoMemory) => Err(NoMemory),
            Ok(()) | Err(SetError::BadProperty) | Err(SetError::BadSetting) => Ok(()),
        }
    }

    pub(crate) fn change_resource(&mut self, resource: &Name, change: ResourceChange)
        requires { refusal_of self.old (ChangeResource resource.now change) ≡ None }
        ensures { self.new ≡ changed self.old (ChangeResource resource.now change) }
    {
        self.groups.set_flag(resource, change.flag(), change.sets());
    }

    /// A change that is refused by the votes leaves them.
    fn vote(&mut self, change: VoteChange)
        requires { IsVote change }
        ensures { self.new ≡ record self.old { votes = voted self.old.votes change } }
    {
        if let Ok(votes) = self.votes.change(change) {
            self.votes = votes;
        }
    }

    pub(crate) fn change_device(&mut self, d: DevId, change: DeviceChange)
        ensures { self.new ≡ changed self.old (Device d change) }
    {
        self.vote(VoteChange::Device {
            dev: d,
            state: change.state(),
        });
    }

    pub(crate) fn change_vote(&mut self, n: NodeId, vote: bool)
        ensures { self.new ≡ changed self.old (NodeVote n vote) }
    {
        self.vote(VoteChange::NodeVote {
            node: n,
            vote: vote_number(vote),
        });
    }

    pub(crate) fn add_node(&mut self, n: NodeId) -> Result<(), NoMemory>
        ensures ok { OnOk result (self.new ≡ changed self.old (AddNode n)) }
        ensures err { OnErr result (self.new ≡ self.old) }
    {
        self.order.push(n)?;
        self.vote(VoteChange::Configure(n));
        Ok(())
    }

    pub(crate) fn remove_node(&mut self, n: NodeId)
        ensures { self.new ≡ changed self.old (RemoveNode n) }
    {
        self.vote(VoteChange::Remove(n));
        without(&mut self.order, n);
        self.limits.delete_node(n);
    }

    pub(crate) fn create_limit(
        &mut self,
        n: NodeId,
        name: Name,
        soft: u64,
        hard: u64,
    ) -> Result<(), NoMemory>
        requires { refusal_of self.old (CreateLimit n name soft hard) ≡ None }
        ensures ok { OnOk result (self.new ≡ changed self.old (CreateLimit n name soft hard)) }
        ensures err { OnErr result (self.new ≡ self.old) }
    {
        self.limits.create(Limit {
            node: n,
            name,
            soft,
            hard,
        })?;
        Ok(())
    }

    pub(crate) fn delete_limit(&mut self, n: NodeId, name: &Name)
        requires { refusal_of self.old (DeleteLimit n name.now) ≡ None }
        ensures { self.new ≡ changed self.old (DeleteLimit n name.now) }
    {
        self.limits.delete(n, name);
    }

    pub(crate) fn create_address(
        &mut self,
        address: Name,
        group: Name,
        policy: Policy,
    ) -> Result<(), NoMemory>
        requires { refusal_of self.old (CreateAddress address group policy) ≡ None }
        ensures ok { OnOk result (self.new ≡ changed self.old (CreateAddress address group policy)) }
        ensures err { OnErr result (self.new ≡ self.old) }
    {
        self.addresses.create(address, group, policy)
    }

    pub(crate) fn delete_address(&mut self, address: &Name)
        requires { refusal_of self.old (DeleteAddress address.now) ≡ None }
        ensures { self.new ≡ changed self.old (DeleteAddress address.now) }
    {
        self.addresses.delete(address);
    }

    pub(crate) fn set_weights(&mut self, address: &Name, weights: &[Weight]) -> Result<(), NoMemory>
        ensures ok { OnOk result (self.new ≡ changed self.old (SetWeights address.now weights.now)) }
        ensures err { OnErr result (self.new ≡ self.old) }
    {
        let copy = weights.to_vec(self.alloc())?;
        self.addresses.set_weights(address, Items::new(copy));
        Ok(())
    }
}

/// Takes the node out of the list.
fn without(order: &mut Vec<NodeId>, n: NodeId)
    ensures { order.new.items ≡ filter (λ m. not (m == n)) order.old.items }
{
    order.retain(|m| *m != n);
}

impl GroupChange {
    /// The flag that the command sets or clears.
    fn flag(self) -> Flag
        ensures { result ≡ group_flag self }
    {
        match self {
            GroupChange::Manage | GroupChange::Unmanage => Flag::Managed,
            GroupChange::Online | GroupChange::Offline => Flag::Wanted,
            GroupChange::Suspend | GroupChange::Resume => Flag::Suspended,
        }
    }

    /// Whether it sets it.
    fn sets(self) -> bool
        ensures { result ≡ sets_group self }
    {
        match self {
            GroupChange::Manage | GroupChange::Online | GroupChange::Suspend => true,
            GroupChange::Unmanage | GroupChange::Offline | GroupChange::Resume => false,
        }
    }
}

impl ResourceChange {
    /// The flag that the command sets or clears.
    fn flag(self) -> Flag
        ensures { result ≡ resource_flag self }
    {
        match self {
            ResourceChange::Enable | ResourceChange::Disable => Flag::Enabled,
            ResourceChange::Monitor | ResourceChange::Unmonitor => Flag::Monitored,
        }
    }

    /// Whether it sets it.
    fn sets(self) -> bool
        ensures { result ≡ sets_resource self }
    {
        match self {
            ResourceChange::Enable | ResourceChange::Monitor => true,
            ResourceChange::Disable | ResourceChange::Unmonitor => false,
        }
    }
}

impl DeviceChange {
    /// What the device is afterwards.
    fn state(self) -> DevState
        ensures { result ≡ state_after self }
    {
        match self {
            DeviceChange::Add | DeviceChange::Enable => DevState::Enabled,
            DeviceChange::Remove => DevState::Absent,
            DeviceChange::Disable => DevState::Disabled,
        }
    }
}
