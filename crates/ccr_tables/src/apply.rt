// An update is refused, or applied and counted.
ghost use Rattle.std.specs.Prelude.{◌≡◌, ◌++◌, ◌∷◌, [], List, OnOk, OnErr, IfOk, IsErrOf, None, Some};
ghost use Rattle.cl_base.specs.declared.header.Header.{Header};
ghost use Rattle.cl_base.specs.declared.refusal.Refusal.{Refusal};
ghost use Rattle.ccr_tables.specs.Changes.{applied, changed, config_of};
ghost use Rattle.ccr_tables.specs.Refusals.{refusal_of};
ghost use Rattle.ccr_tables.specs.declared.update.Update.{Update};
ghost use Rattle.ccr_tables.specs.declared.error.ApplyError.TheVariants as because;

use crate::config::Config;
use crate::error::{ApplyError, NoMemory};
use crate::update::Update;
use cl_base::Refusal;

impl Config {
    /// Why the update is refused, if it is: the first reason in the order of their numbers, of those
    /// that the configuration alone tells.
    pub fn refusal(&self, u: &Update) -> Result<Option<Refusal>, NoMemory>
        ensures value { IfOk result (λ refusal. refusal ≡ refusal_of self.now u.now) }
    {
        Ok(match u {
            Update::RegisterType { name, methods, .. } => self.register_type_refusal(
                name, *methods,
            ),
            Update::UnregisterType(name) => self.unregister_type_refusal(name),
            Update::CreateGroup { group, nodes } => self.create_group_refusal(group, nodes.items()),
            Update::DeleteGroup(group) => self.delete_group_refusal(group),
            Update::SetGroup {
                group,
                property,
                value,
            } => self.set_group_refusal(group, property.items(), value.items())?,
            Update::ChangeGroup { group, change } => self.change_group_refusal(group, *change),
            Update::SwitchGroup { group, nodes } => self.switch_group_refusal(group, nodes.items()),
            Update::CreateResource {
                resource,
                group,
                resource_type,
            } => self.create_resource_refusal(resource, group, resource_type),
            Update::DeleteResource(resource) => self.delete_resource_refusal(resource),
            Update::SetResource {
                resource,
                property,
                value,
            } => self.set_resource_refusal(resource, property.items(), value.items())?,
            Update::ChangeResource { resource, change } => self.change_resource_refusal(
                resource, *change,
            ),
            Update::Device { device, change } => self.device_refusal(*device, *change),
            Update::NodeVote { node, vote } => self.node_vote_refusal(*node, *vote),
            Update::AddNode(node) => self.add_node_refusal(*node),
            Update::RemoveNode(node) => self.remove_node_refusal(*node),
            Update::CreateLimit {
                node,
                limit,
                soft,
                hard,
            } => self.create_limit_refusal(*node, limit, *soft, *hard),
            Update::DeleteLimit { node, limit } => self.delete_limit_refusal(*node, limit),
            Update::CreateAddress { address, group, .. } => self.create_address_refusal(
                address, group,
            ),
            Update::DeleteAddress(address) => self.delete_address_refusal(address),
            Update::SetWeights { address, weights } => self.set_weights_refusal(
                address,
                weights.items(),
            ),
        })
    }

    /// Makes the update, which is not refused. After `NoMemory` nothing is changed.
    fn change(&mut self, u: &Update) -> Result<(), NoMemory>
        requires { refusal_of self.old u.now ≡ None }
        ensures ok { OnOk result (self.new ≡ changed self.old u.now) }
        ensures err { OnErr result (self.new ≡ self.old) }
    {
        match u {
            Update::RegisterType {
                name,
                agent,
                methods,
                single,
                failover,
            } => self.register_type(*name, *agent, *methods, *single, *failover)?,
            Update::UnregisterType(name) => self.unregister_type(name),
            Update::CreateGroup { group, nodes } => self.create_group(*group, nodes.items())?,
            Update::DeleteGroup(group) => self.delete_group(group),
            Update::SetGroup {
                group,
                property,
                value,
            } => self.set_group(group, property.items(), value.items())?,
            Update::ChangeGroup { group, change } => self.change_group(group, *change),
            Update::SwitchGroup { group, nodes } => self.switch_group(group, nodes.items()),
            Update::CreateResource {
                resource,
                group,
                resource_type,
            } => self.create_resource(*resource, *group, *resource_type)?,
            Update::DeleteResource(resource) => self.delete_resource(resource),
            Update::SetResource {
                resource,
                property,
                value,
            } => self.set_resource(resource, property.items(), value.items())?,
            Update::ChangeResource { resource, change } => self.change_resource(resource, *change),
            Update::Device { device, change } => self.change_device(*device, *change),
            Update::NodeVote { node, vote } => self.change_vote(*node, *vote),
            Update::AddNode(node) => self.add_node(*node)?,
            Update::RemoveNode(node) => self.remove_node(*node),
            Update::CreateLimit {
                node,
                limit,
                soft,
                hard,
            } => self.create_limit(*node, *limit, *soft, *hard)?,
            Update::DeleteLimit { node, limit } => self.delete_limit(*node, limit),
            Update::CreateAddress {
                address,
                group,
                policy,
            } => self.create_address(*address, *group, *policy)?,
            Update::DeleteAddress(address) => self.delete_address(address),
            Update::SetWeights { address, weights } => self.set_weights(address, weights.items())?,
        }
        Ok(())
    }

    #[tactic(auto, using(crate::proofs::Histories::one_more))]
    /// Applies the update, or says why not: then nothing is changed, also after `NoMemory`.
    pub fn apply(&mut self, u: &Update) -> Result<(), ApplyError>
        ensures allowed { OnOk result (refusal_of self.old u.now ≡ None) }
        ensures refused { (r : Refusal) → IsErrOf result (because.Refused r) → refusal_of self.old u.now ≡ Some r }
        ensures ok { OnOk result (self.new ≡ applied self.old u.now) }
        ensures history { OnOk result ((h : Header) (updates : List Update) → self.old ≡ config_of h updates → self.new ≡ config_of h (updates ++ u.now ∷ [])) }
        ensures err { OnErr result (self.new ≡ self.old) }
    {
        if let Some(refusal) = self.refusal(u)? {
            return Err(ApplyError::Refused(refusal));
        }
        self.change(u)?;
        self.generations = self.generations.counted(u.table());
        Ok(())
    }
}
