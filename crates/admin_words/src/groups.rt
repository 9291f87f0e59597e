// Commands on resource groups.
ghost use Rattle.std.specs.Prelude.{◌≡◌, ◌⊎◌, map, Ok, Err, IfOk, IfErr};
ghost use Rattle.std.specs.Option.{option_map};
ghost use Rattle.cl_base.specs.declared.command.Ask.TheVariants.{Remaster, Evacuate};
ghost use Rattle.cl_base.specs.declared.command.Query.TheVariants.{GroupStatus};
ghost use Rattle.rg_props.specs.Values.{most_of, nodes_in};
ghost use Rattle.rg_props.specs.Words.{name_in};
ghost use Rattle.ccr_tables.specs.declared.command.AdminCommand.TheVariants.{Change, Act, Status};
ghost use Rattle.ccr_tables.specs.declared.update.Update.TheVariants.{CreateGroup, DeleteGroup, SetGroup, ChangeGroup, SwitchGroup};
ghost use Rattle.admin_words.specs.Commands.{group_least, group_operands};
ghost use Rattle.admin_words.specs.Operands.{node_in, none, one, three, two, word_in};
ghost use Rattle.admin_words.specs.Spellings.{group_command_in};
ghost use Rattle.admin_words.specs.declared.error.WordError.TheVariants.{NoMemory};
ghost use Rattle.admin_words.specs.Answers.{by_word};

use crate::command::{GroupCommand, group_command};
use crate::error::WordError;
use crate::operand;
use crate::operand::{are_fewer, kept};
use crate::weights::nodes;
use ccr_tables::{AdminCommand, GroupChange, Update};
use cl_base::{Ask, Query, Version};
use std::alloc::{AllocError, Global};

/// The command behind `clrg`.
pub fn group_words(
    alloc: Global,
    version: Version,
    words: &[&[u8]],
) -> Result<AdminCommand, WordError>
    ensures ok { IfOk result (λ c. by_word group_command_in group_least (group_operands version) (map (λ w. w.now) words.now) ≡ Ok c) }
    ensures err { IfErr result (λ e. (e ≡ NoMemory) ⊎ (by_word group_command_in group_least (group_operands version) (map (λ w. w.now) words.now) ≡ Err e)) }
{
    let [word, operands @ ..] = words else {
        return Err(WordError::UnknownCommand);
    };
    let Some(command) = group_command(word) else {
        return Err(WordError::UnknownCommand);
    };
    if are_fewer(operands, group_least(command)) {
        return Err(WordError::MissingOperand);
    }
    match group_operands(alloc, version, command, operands)? {
        Some(command) => Ok(command),
        None => Err(WordError::BadValue),
    }
}

fn group_least(command: GroupCommand) -> usize
    ensures { result ≡ group_least command }
{
    match command {
        GroupCommand::Create => 2,
        GroupCommand::Delete => 1,
        GroupCommand::Set => 3,
        GroupCommand::Change(_) => 1,
        GroupCommand::Switch => 2,
        GroupCommand::Remaster => 1,
        GroupCommand::Evacuate => 1,
        GroupCommand::Status => 0,
    }
}

fn group_operands(
    alloc: Global,
    version: Version,
    command: GroupCommand,
    words: &[&[u8]],
) -> Result<Option<AdminCommand>, AllocError>
    ensures { IfOk result (λ found. found ≡ group_operands version command (map (λ w. w.now) words.now)) }
{
    match command {
        GroupCommand::Create => create_group(alloc, version, words),
        GroupCommand::Delete => Ok(delete_group(words)),
        GroupCommand::Set => set_group(alloc, words),
        GroupCommand::Change(change) => Ok(change_group(change, words)),
        GroupCommand::Switch => switch_group(alloc, version, words),
        GroupCommand::Remaster => Ok(remaster(words)),
        GroupCommand::Evacuate => Ok(evacuate(version, words)),
        GroupCommand::Status => Ok(status(words)),
    }
}

fn create_group(
    alloc: Global,
    version: Version,
    words: &[&[u8]],
) -> Result<Option<AdminCommand>, AllocError>
    ensures { IfOk result (λ found. found ≡ two name_in (nodes_in (most_of version)) (λ name nodes. Change (CreateGroup name nodes)) (map (λ w. w.now) words.now)) }
{
    let [of_name, of_nodes] = words else {
        return Ok(None);
    };
    let Some(group) = operand::name(of_name) else {
        return Ok(None);
    };
    let Some(nodes) = nodes(alloc, version, of_nodes)? else {
        return Ok(None);
    };
    Ok(Some(AdminCommand::Change(Update::CreateGroup { group, nodes })))
}

fn delete_group(words: &[&[u8]]) -> Option<AdminCommand>
    ensures { result ≡ one name_in (λ name. Change (DeleteGroup name)) (map (λ w. w.now) words.now) }
{
    let [of_name] = words else {
        return None;
    };
    let name = operand::name(of_name)?;
    Some(AdminCommand::Change(Update::DeleteGroup(name)))
}

fn set_group(alloc: Global, words: &[&[u8]]) -> Result<Option<AdminCommand>, AllocError>
    ensures { IfOk result (λ found. found ≡ three name_in word_in word_in (λ name property value. Change (SetGroup name property value)) (map (λ w. w.now) words.now)) }
{
    let [of_name, of_property, of_value] = words else {
        return Ok(None);
    };
    let Some(group) = operand::name(of_name) else {
        return Ok(None);
    };
    let property = kept(alloc, of_property)?;
    let value = kept(alloc, of_value)?;
    Ok(Some(AdminCommand::Change(Update::SetGroup {
        group,
        property,
        value,
    })))
}

fn change_group(change: GroupChange, words: &[&[u8]]) -> Option<AdminCommand>
    ensures { result ≡ one name_in (λ name. Change (ChangeGroup name change)) (map (λ w. w.now) words.now) }
{
    let [of_name] = words else {
        return None;
    };
    let group = operand::name(of_name)?;
    Some(AdminCommand::Change(Update::ChangeGroup { group, change }))
}

fn switch_group(
    alloc: Global,
    version: Version,
    words: &[&[u8]],
) -> Result<Option<AdminCommand>, AllocError>
    ensures { IfOk result (λ found. found ≡ two name_in (nodes_in (most_of version)) (λ name nodes. Change (SwitchGroup name nodes)) (map (λ w. w.now) words.now)) }
{
    let [of_name, of_nodes] = words else {
        return Ok(None);
    };
    let Some(group) = operand::name(of_name) else {
        return Ok(None);
    };
    let Some(nodes) = nodes(alloc, version, of_nodes)? else {
        return Ok(None);
    };
    Ok(Some(AdminCommand::Change(Update::SwitchGroup { group, nodes })))
}

fn remaster(words: &[&[u8]]) -> Option<AdminCommand>
    ensures { result ≡ one name_in (λ name. Act (Remaster name)) (map (λ w. w.now) words.now) }
{
    let [of_name] = words else {
        return None;
    };
    let name = operand::name(of_name)?;
    Some(AdminCommand::Act(Ask::Remaster(name)))
}

fn evacuate(version: Version, words: &[&[u8]]) -> Option<AdminCommand>
    ensures { result ≡ one (node_in version) (λ n. Act (Evacuate n)) (map (λ w. w.now) words.now) }
{
    let [of_node] = words else {
        return None;
    };
    let node = operand::node(version, of_node)?;
    Some(AdminCommand::Act(Ask::Evacuate(node)))
}

fn status(words: &[&[u8]]) -> Option<AdminCommand>
    ensures { result ≡ none (Status GroupStatus) (map (λ w. w.now) words.now) }
{
    match words {
        [] => Some(AdminCommand::Status(Query::GroupStatus)),
        _ => None,
    }
}
