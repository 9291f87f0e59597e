// Commands on resources.
ghost use Rattle.std.specs.Prelude.{◌≡◌, ◌⊎◌, map, Ok, Err, IfOk, IfErr};
ghost use Rattle.std.specs.Option.{option_map};
ghost use Rattle.cl_base.specs.declared.command.Ask.TheVariants.{Clear};
ghost use Rattle.cl_base.specs.declared.command.Query.TheVariants.{ResourceStatus};
ghost use Rattle.rg_props.specs.Words.{name_in};
ghost use Rattle.ccr_tables.specs.declared.command.AdminCommand.TheVariants.{Change, Act, Status};
ghost use Rattle.ccr_tables.specs.declared.update.Update.TheVariants.{CreateResource, DeleteResource, SetResource, ChangeResource};
ghost use Rattle.admin_words.specs.Commands.{resource_least, resource_operands};
ghost use Rattle.admin_words.specs.Operands.{node_in, none, one, three, two, word_in};
ghost use Rattle.admin_words.specs.Spellings.{resource_command_in};
ghost use Rattle.admin_words.specs.declared.error.WordError.TheVariants.{NoMemory};
ghost use Rattle.admin_words.specs.Answers.{by_word};

use crate::command::{ResourceCommand, resource_command};
use crate::error::WordError;
use crate::operand;
use crate::operand::{are_fewer, kept};
use ccr_tables::{AdminCommand, ResourceChange, Update};
use cl_base::{Ask, Query, Version};
use std::alloc::{AllocError, Global};

/// The command behind `clrs`.
pub fn resource_words(
    alloc: Global,
    version: Version,
    words: &[&[u8]],
) -> Result<AdminCommand, WordError>
    ensures ok { IfOk result (λ c. by_word resource_command_in resource_least (resource_operands version) (map (λ w. w.now) words.now) ≡ Ok c) }
    ensures err { IfErr result (λ e. (e ≡ NoMemory) ⊎ (by_word resource_command_in resource_least (resource_operands version) (map (λ w. w.now) words.now) ≡ Err e)) }
{
    let [word, operands @ ..] = words else {
        return Err(WordError::UnknownCommand);
    };
    let Some(command) = resource_command(word) else {
        return Err(WordError::UnknownCommand);
    };
    if are_fewer(operands, resource_least(command)) {
        return Err(WordError::MissingOperand);
    }
    match resource_operands(alloc, version, command, operands)? {
        Some(command) => Ok(command),
        None => Err(WordError::BadValue),
    }
}

fn resource_least(command: ResourceCommand) -> usize
    ensures { result ≡ resource_least command }
{
    match command {
        ResourceCommand::Create => 3,
        ResourceCommand::Delete => 1,
        ResourceCommand::Set => 3,
        ResourceCommand::Change(_) => 1,
        ResourceCommand::Clear => 2,
        ResourceCommand::Status => 0,
    }
}

fn resource_operands(
    alloc: Global,
    version: Version,
    command: ResourceCommand,
    words: &[&[u8]],
) -> Result<Option<AdminCommand>, AllocError>
    ensures { IfOk result (λ found. found ≡ resource_operands version command (map (λ w. w.now) words.now)) }
{
    match command {
        ResourceCommand::Create => Ok(create_resource(words)),
        ResourceCommand::Delete => Ok(delete_resource(words)),
        ResourceCommand::Set => set_resource(alloc, words),
        ResourceCommand::Change(change) => Ok(change_resource(change, words)),
        ResourceCommand::Clear => Ok(clear(version, words)),
        ResourceCommand::Status => Ok(status(words)),
    }
}

fn create_resource(words: &[&[u8]]) -> Option<AdminCommand>
    ensures { result ≡ three name_in name_in name_in (λ name of_group of_type. Change (CreateResource name of_group of_type)) (map (λ w. w.now) words.now) }
{
    let [of_name, of_group, of_type] = words else {
        return None;
    };
    let resource = operand::name(of_name)?;
    let group = operand::name(of_group)?;
    let resource_type = operand::name(of_type)?;
    Some(AdminCommand::Change(Update::CreateResource {
        resource,
        group,
        resource_type,
    }))
}

fn delete_resource(words: &[&[u8]]) -> Option<AdminCommand>
    ensures { result ≡ one name_in (λ name. Change (DeleteResource name)) (map (λ w. w.now) words.now) }
{
    let [of_name] = words else {
        return None;
    };
    let name = operand::name(of_name)?;
    Some(AdminCommand::Change(Update::DeleteResource(name)))
}

fn set_resource(alloc: Global, words: &[&[u8]]) -> Result<Option<AdminCommand>, AllocError>
    ensures { IfOk result (λ found. found ≡ three name_in word_in word_in (λ name property value. Change (SetResource name property value)) (map (λ w. w.now) words.now)) }
{
    let [of_name, of_property, of_value] = words else {
        return Ok(None);
    };
    let Some(resource) = operand::name(of_name) else {
        return Ok(None);
    };
    let property = kept(alloc, of_property)?;
    let value = kept(alloc, of_value)?;
    Ok(Some(AdminCommand::Change(Update::SetResource {
        resource,
        property,
        value,
    })))
}

fn change_resource(change: ResourceChange, words: &[&[u8]]) -> Option<AdminCommand>
    ensures { result ≡ one name_in (λ name. Change (ChangeResource name change)) (map (λ w. w.now) words.now) }
{
    let [of_name] = words else {
        return None;
    };
    let resource = operand::name(of_name)?;
    Some(AdminCommand::Change(Update::ChangeResource { resource, change }))
}

fn clear(version: Version, words: &[&[u8]]) -> Option<AdminCommand>
    ensures { result ≡ two name_in (node_in version) (λ name n. Act (Clear name n)) (map (λ w. w.now) words.now) }
{
    let [of_name, of_node] = words else {
        return None;
    };
    let resource = operand::name(of_name)?;
    let node = operand::node(version, of_node)?;
    Some(AdminCommand::Act(Ask::Clear { resource, node }))
}

fn status(words: &[&[u8]]) -> Option<AdminCommand>
    ensures { result ≡ none (Status ResourceStatus) (map (λ w. w.now) words.now) }
{
    match words {
        [] => Some(AdminCommand::Status(Query::ResourceStatus)),
        _ => None,
    }
}
