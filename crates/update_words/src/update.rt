ghost use Rattle.std.specs.Prelude.{◌≡◌, ◌++◌, ◌∷◌, codes, IfOk, OnOk};
ghost use Rattle.std.specs.List.{flat_map};
ghost use Rattle.update_words.specs.Joined.{spaced};
ghost use Rattle.update_words.specs.Words.{device_words, flag_words, group_word, policy_text, resource_word, vote_word, words_of};
ghost use Rattle.ccr_tables.specs.declared.update.Update.TheVariants.{RegisterType, CreateGroup, SetGroup, SwitchGroup, CreateResource, SetResource, Device, NodeVote, CreateLimit, DeleteLimit, CreateAddress, SetWeights};

use crate::lists::{push_nodes, push_weights};
use crate::method::push_methods;
use crate::spaced::{command, named, numbered, push_number_word, push_word};
use ccr_tables::{DeviceChange, GroupChange, ResourceChange, Update, Weight};
use cl_base::{DevId, MethodSet, Name, NodeId, Policy};
use std::alloc::{AllocError, Global};

/// The canonical words of an update: those of the command that makes it, with one space between.
pub fn words(alloc: Global, u: &Update) -> Result<Vec<u8>, AllocError>
    ensures value { IfOk result (λ text. text.items ≡ words_of u.now) }
{
    match u {
        Update::RegisterType {
            name,
            agent,
            methods,
            single,
            failover,
        } => register(alloc, name, agent, *methods, *single, *failover),
        Update::UnregisterType(name) => named(alloc, b"clrt", b"unregister", name),
        Update::CreateGroup { group, nodes } => create_group(alloc, group, nodes.items()),
        Update::DeleteGroup(group) => named(alloc, b"clrg", b"delete", group),
        Update::SetGroup {
            group,
            property,
            value,
        } => set_group(alloc, group, property.items(), value.items()),
        Update::ChangeGroup { group, change } => named(alloc, b"clrg", group_word(*change), group),
        Update::SwitchGroup { group, nodes } => switch_group(alloc, group, nodes.items()),
        Update::CreateResource {
            resource,
            group,
            resource_type,
        } => create_resource(alloc, resource, group, resource_type),
        Update::DeleteResource(resource) => named(alloc, b"clrs", b"delete", resource),
        Update::SetResource {
            resource,
            property,
            value,
        } => set_resource(alloc, resource, property.items(), value.items()),
        Update::ChangeResource { resource, change } => {
            named(alloc, b"clrs", resource_word(*change), resource)
        }
        Update::Device { device, change } => device_command(alloc, *device, *change),
        Update::NodeVote { node, vote } => node_vote(alloc, *node, *vote),
        Update::AddNode(node) => numbered(alloc, b"clnode", b"add", node.number()),
        Update::RemoveNode(node) => numbered(alloc, b"clnode", b"remove", node.number()),
        Update::CreateLimit {
            node,
            limit,
            soft,
            hard,
        } => create_limit(alloc, *node, limit, *soft, *hard),
        Update::DeleteLimit { node, limit } => delete_limit(alloc, *node, limit),
        Update::CreateAddress {
            address,
            group,
            policy,
        } => create_address(alloc, address, group, *policy),
        Update::DeleteAddress(address) => named(alloc, b"clsa", b"delete", address),
        Update::SetWeights { address, weights } => set_weights(alloc, address, weights.items()),
    }
}

fn register(
    alloc: Global,
    name: &Name,
    agent: &Name,
    methods: MethodSet,
    single: bool,
    failover: bool,
) -> Result<Vec<u8>, AllocError>
    ensures { IfOk result (λ text. text.items ≡ words_of (RegisterType name.now agent.now methods single failover)) }
{
    let mut text = named(alloc, b"clrt", b"register", name)?;
    push_word(&mut text, agent.bytes())?;
    text.push(b' ')?;
    push_methods(alloc, &mut text, methods)?;
    push_flags(&mut text, single, failover)?;
    Ok(text)
}

#[tactic(auto, unfolding(crate::specs::Words::flag_words))]
/// The flags of a type, each after a space, behind the text.
fn push_flags(text: &mut Vec<u8>, single: bool, failover: bool) -> Result<(), AllocError>
    ensures { OnOk result (text.new.items ≡ text.old.items ++ flat_map (λ w. 32 ∷ w) (flag_words single failover)) }
{
    if single {
        push_word(text, b"single")?;
    }
    if failover {
        push_word(text, b"failover")?;
    }
    Ok(())
}

fn create_group(alloc: Global, group: &Name, nodes: &[NodeId]) -> Result<Vec<u8>, AllocError>
    ensures { IfOk result (λ text. text.items ≡ words_of (CreateGroup group.now nodes.now)) }
{
    let mut text = named(alloc, b"clrg", b"create", group)?;
    text.push(b' ')?;
    push_nodes(&mut text, nodes)?;
    Ok(text)
}

fn set_group(
    alloc: Global,
    group: &Name,
    property: &[u8],
    value: &[u8],
) -> Result<Vec<u8>, AllocError>
    ensures { IfOk result (λ text. text.items ≡ words_of (SetGroup group.now property.now value.now)) }
{
    let mut text = named(alloc, b"clrg", b"set", group)?;
    push_word(&mut text, property)?;
    push_word(&mut text, value)?;
    Ok(text)
}

fn group_word(change: GroupChange) -> &'static [u8]
    ensures { result.now ≡ group_word change }
{
    match change {
        GroupChange::Manage => b"manage",
        GroupChange::Unmanage => b"unmanage",
        GroupChange::Online => b"online",
        GroupChange::Offline => b"offline",
        GroupChange::Suspend => b"suspend",
        GroupChange::Resume => b"resume",
    }
}

fn switch_group(alloc: Global, group: &Name, nodes: &[NodeId]) -> Result<Vec<u8>, AllocError>
    ensures { IfOk result (λ text. text.items ≡ words_of (SwitchGroup group.now nodes.now)) }
{
    let mut text = named(alloc, b"clrg", b"switch", group)?;
    text.push(b' ')?;
    push_nodes(&mut text, nodes)?;
    Ok(text)
}

fn create_resource(
    alloc: Global,
    resource: &Name,
    group: &Name,
    resource_type: &Name,
) -> Result<Vec<u8>, AllocError>
    ensures { IfOk result (λ text. text.items ≡ words_of (CreateResource resource.now group.now resource_type.now)) }
{
    let mut text = named(alloc, b"clrs", b"create", resource)?;
    push_word(&mut text, group.bytes())?;
    push_word(&mut text, resource_type.bytes())?;
    Ok(text)
}

fn set_resource(
    alloc: Global,
    resource: &Name,
    property: &[u8],
    value: &[u8],
) -> Result<Vec<u8>, AllocError>
    ensures { IfOk result (λ text. text.items ≡ words_of (SetResource resource.now property.now value.now)) }
{
    let mut text = named(alloc, b"clrs", b"set", resource)?;
    push_word(&mut text, property)?;
    push_word(&mut text, value)?;
    Ok(text)
}

fn resource_word(change: ResourceChange) -> &'static [u8]
    ensures { result.now ≡ resource_word change }
{
    match change {
        ResourceChange::Enable => b"enable",
        ResourceChange::Disable => b"disable",
        ResourceChange::Monitor => b"monitor",
        ResourceChange::Unmonitor => b"unmonitor",
    }
}

fn device_command(alloc: Global, device: DevId, change: DeviceChange) -> Result<Vec<u8>, AllocError>
    ensures { IfOk result (λ text. text.items ≡ words_of (Device device change)) }
{
    let mut text = device_words(alloc, change)?;
    push_number_word(&mut text, device.number())?;
    Ok(text)
}

/// The words of a command on a device in front of the device's number.
fn device_words(alloc: Global, change: DeviceChange) -> Result<Vec<u8>, AllocError>
    ensures { IfOk result (λ text. text.items ≡ spaced (codes "clq" ∷ device_words change)) }
{
    match change {
        DeviceChange::Add => command(alloc, b"clq", b"add"),
        DeviceChange::Remove => command(alloc, b"clq", b"remove"),
        DeviceChange::Enable => command(alloc, b"clq", b"enable device"),
        DeviceChange::Disable => command(alloc, b"clq", b"disable device"),
    }
}

fn node_vote(alloc: Global, node: NodeId, vote: bool) -> Result<Vec<u8>, AllocError>
    ensures { IfOk result (λ text. text.items ≡ words_of (NodeVote node vote)) }
{
    let mut text = command(alloc, b"clq", vote_word(vote))?;
    push_word(&mut text, b"node")?;
    push_number_word(&mut text, node.number())?;
    Ok(text)
}

fn vote_word(vote: bool) -> &'static [u8]
    ensures { result.now ≡ vote_word vote }
{
    if vote { b"enable" } else { b"disable" }
}

fn create_limit(
    alloc: Global,
    node: NodeId,
    limit: &Name,
    soft: u64,
    hard: u64,
) -> Result<Vec<u8>, AllocError>
    ensures { IfOk result (λ text. text.items ≡ words_of (CreateLimit node limit.now soft hard)) }
{
    let mut text = numbered(alloc, b"clnode", b"create-loadlimit", node.number())?;
    push_word(&mut text, limit.bytes())?;
    push_number_word(&mut text, soft)?;
    push_number_word(&mut text, hard)?;
    Ok(text)
}

fn delete_limit(alloc: Global, node: NodeId, limit: &Name) -> Result<Vec<u8>, AllocError>
    ensures { IfOk result (λ text. text.items ≡ words_of (DeleteLimit node limit.now)) }
{
    let mut text = numbered(alloc, b"clnode", b"delete-loadlimit", node.number())?;
    push_word(&mut text, limit.bytes())?;
    Ok(text)
}

fn create_address(
    alloc: Global,
    address: &Name,
    group: &Name,
    policy: Policy,
) -> Result<Vec<u8>, AllocError>
    ensures { IfOk result (λ text. text.items ≡ words_of (CreateAddress address.now group.now policy)) }
{
    let mut text = named(alloc, b"clsa", b"create", address)?;
    push_word(&mut text, group.bytes())?;
    push_word(&mut text, policy_word(policy))?;
    Ok(text)
}

/// The policy's word.
pub fn policy_word(policy: Policy) -> &'static [u8]
    ensures value { result.now ≡ policy_text policy }
{
    match policy {
        Policy::Weighted => b"LB_WEIGHTED",
        Policy::Sticky => b"LB_STICKY",
        Policy::StickyPort => b"STICKY_PORT",
    }
}

fn set_weights(alloc: Global, address: &Name, weights: &[Weight]) -> Result<Vec<u8>, AllocError>
    ensures { IfOk result (λ text. text.items ≡ words_of (SetWeights address.now weights.now)) }
{
    let mut text = named(alloc, b"clsa", b"weights", address)?;
    text.push(b' ')?;
    push_weights(&mut text, weights)?;
    Ok(text)
}
