// Which command the first words name.
ghost use Rattle.std.specs.Prelude.{◌≡◌};
ghost use Rattle.admin_words.specs.Spellings.{address_command_in, group_command_in, is_of_version, node_command_in, quorum_command_in, resource_command_in, tool_in, tool_named, type_command_in, voter_in};

use ccr_tables::{GroupChange, ResourceChange};
use cl_base::Version;

/// What the first word names.
#[derive(Clone, Copy)]
pub enum Tool {
    /// `clrt`: resource types.
    Types,
    /// `clrg`: resource groups.
    Groups,
    /// `clrs`: resources.
    Resources,
    /// `clq`: votes and quorum devices.
    Quorum,
    /// `ccr`: tables.
    Tables,
    /// `clnode`: nodes.
    Nodes,
    /// `clsa`: shared addresses.
    Addresses,
}

/// A command on resource types.
#[derive(Clone, Copy)]
pub enum TypeCommand {
    Register,
    Unregister,
}

/// A command on resource groups.
#[derive(Clone, Copy)]
pub enum GroupCommand {
    Create,
    Delete,
    Set,
    Change(GroupChange),
    Switch,
    Remaster,
    Evacuate,
    Status,
}

/// A command on resources.
#[derive(Clone, Copy)]
pub enum ResourceCommand {
    Create,
    Delete,
    Set,
    Change(ResourceChange),
    Clear,
    Status,
}

/// A command on votes and quorum devices.
#[derive(Clone, Copy)]
pub enum QuorumCommand {
    Add,
    Remove,
    Enable,
    Disable,
    Status,
}

/// What is enabled or disabled.
#[derive(Clone, Copy)]
pub enum Voter {
    Device,
    Node,
}

/// A command on nodes.
#[derive(Clone, Copy)]
pub enum NodeCommand {
    Add,
    Remove,
    CreateLimit,
    DeleteLimit,
}

/// A command on shared addresses.
#[derive(Clone, Copy)]
pub enum AddressCommand {
    Create,
    Delete,
    Weights,
}

/// What the first word names under the version.
pub fn named_tool(version: Version, word: &[u8]) -> Option<Tool>
    ensures { result ≡ tool_in version word.now }
{
    let tool = tool_named(word)?;
    if is_of_version(version, tool) {
        Some(tool)
    } else {
        None
    }
}

#[tactic(auto, unfolding(crate::specs::Spellings::tool_named))]
fn tool_named(word: &[u8]) -> Option<Tool>
    ensures { result ≡ tool_named word.now }
{
    if word == b"clrt".as_slice() {
        Some(Tool::Types)
    } else if word == b"clrg".as_slice() {
        Some(Tool::Groups)
    } else if word == b"clrs".as_slice() {
        Some(Tool::Resources)
    } else if word == b"clq".as_slice() {
        Some(Tool::Quorum)
    } else if word == b"ccr".as_slice() {
        Some(Tool::Tables)
    } else if word == b"clnode".as_slice() {
        Some(Tool::Nodes)
    } else if word == b"clsa".as_slice() {
        Some(Tool::Addresses)
    } else {
        None
    }
}

/// Commands on nodes and on shared addresses are there from the second version on.
fn is_of_version(version: Version, tool: Tool) -> bool
    ensures { result ≡ is_of_version version tool }
{
    match version {
        Version::One => match tool {
            Tool::Nodes | Tool::Addresses => false,
            _ => true,
        },
        Version::Two => true,
    }
}

#[tactic(auto, unfolding(crate::specs::Spellings::type_command_in))]
pub fn type_command(word: &[u8]) -> Option<TypeCommand>
    ensures { result ≡ type_command_in word.now }
{
    if word == b"register".as_slice() {
        Some(TypeCommand::Register)
    } else if word == b"unregister".as_slice() {
        Some(TypeCommand::Unregister)
    } else {
        None
    }
}

#[tactic(auto, unfolding(crate::specs::Spellings::group_command_in))]
pub fn group_command(word: &[u8]) -> Option<GroupCommand>
    ensures { result ≡ group_command_in word.now }
{
    if word == b"create".as_slice() {
        Some(GroupCommand::Create)
    } else if word == b"delete".as_slice() {
        Some(GroupCommand::Delete)
    } else if word == b"set".as_slice() {
        Some(GroupCommand::Set)
    } else if word == b"manage".as_slice() {
        Some(GroupCommand::Change(GroupChange::Manage))
    } else if word == b"unmanage".as_slice() {
        Some(GroupCommand::Change(GroupChange::Unmanage))
    } else if word == b"online".as_slice() {
        Some(GroupCommand::Change(GroupChange::Online))
    } else if word == b"offline".as_slice() {
        Some(GroupCommand::Change(GroupChange::Offline))
    } else if word == b"switch".as_slice() {
        Some(GroupCommand::Switch)
    } else if word == b"suspend".as_slice() {
        Some(GroupCommand::Change(GroupChange::Suspend))
    } else if word == b"resume".as_slice() {
        Some(GroupCommand::Change(GroupChange::Resume))
    } else if word == b"remaster".as_slice() {
        Some(GroupCommand::Remaster)
    } else if word == b"evacuate".as_slice() {
        Some(GroupCommand::Evacuate)
    } else if word == b"status".as_slice() {
        Some(GroupCommand::Status)
    } else {
        None
    }
}

#[tactic(auto, unfolding(crate::specs::Spellings::resource_command_in))]
pub fn resource_command(word: &[u8]) -> Option<ResourceCommand>
    ensures { result ≡ resource_command_in word.now }
{
    if word == b"create".as_slice() {
        Some(ResourceCommand::Create)
    } else if word == b"delete".as_slice() {
        Some(ResourceCommand::Delete)
    } else if word == b"set".as_slice() {
        Some(ResourceCommand::Set)
    } else if word == b"enable".as_slice() {
        Some(ResourceCommand::Change(ResourceChange::Enable))
    } else if word == b"disable".as_slice() {
        Some(ResourceCommand::Change(ResourceChange::Disable))
    } else if word == b"monitor".as_slice() {
        Some(ResourceCommand::Change(ResourceChange::Monitor))
    } else if word == b"unmonitor".as_slice() {
        Some(ResourceCommand::Change(ResourceChange::Unmonitor))
    } else if word == b"clear".as_slice() {
        Some(ResourceCommand::Clear)
    } else if word == b"status".as_slice() {
        Some(ResourceCommand::Status)
    } else {
        None
    }
}

#[tactic(auto, unfolding(crate::specs::Spellings::quorum_command_in))]
pub fn quorum_command(word: &[u8]) -> Option<QuorumCommand>
    ensures { result ≡ quorum_command_in word.now }
{
    if word == b"add".as_slice() {
        Some(QuorumCommand::Add)
    } else if word == b"remove".as_slice() {
        Some(QuorumCommand::Remove)
    } else if word == b"enable".as_slice() {
        Some(QuorumCommand::Enable)
    } else if word == b"disable".as_slice() {
        Some(QuorumCommand::Disable)
    } else if word == b"status".as_slice() {
        Some(QuorumCommand::Status)
    } else {
        None
    }
}

#[tactic(auto, unfolding(crate::specs::Spellings::voter_in))]
pub fn named_voter(word: &[u8]) -> Option<Voter>
    ensures { result ≡ voter_in word.now }
{
    if word == b"device".as_slice() {
        Some(Voter::Device)
    } else if word == b"node".as_slice() {
        Some(Voter::Node)
    } else {
        None
    }
}

#[tactic(auto, unfolding(crate::specs::Spellings::node_command_in))]
pub fn node_command(word: &[u8]) -> Option<NodeCommand>
    ensures { result ≡ node_command_in word.now }
{
    if word == b"add".as_slice() {
        Some(NodeCommand::Add)
    } else if word == b"remove".as_slice() {
        Some(NodeCommand::Remove)
    } else if word == b"create-loadlimit".as_slice() {
        Some(NodeCommand::CreateLimit)
    } else if word == b"delete-loadlimit".as_slice() {
        Some(NodeCommand::DeleteLimit)
    } else {
        None
    }
}

#[tactic(auto, unfolding(crate::specs::Spellings::address_command_in))]
pub fn address_command(word: &[u8]) -> Option<AddressCommand>
    ensures { result ≡ address_command_in word.now }
{
    if word == b"create".as_slice() {
        Some(AddressCommand::Create)
    } else if word == b"delete".as_slice() {
        Some(AddressCommand::Delete)
    } else if word == b"weights".as_slice() {
        Some(AddressCommand::Weights)
    } else {
        None
    }
}
