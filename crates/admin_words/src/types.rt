// Commands on resource types.
ghost use Rattle.std.specs.Prelude.{◌≡◌, ◌⊎◌, map, Ok, Err, IfOk, IfErr};
ghost use Rattle.std.specs.Option.{option_map};
ghost use Rattle.rg_props.specs.Words.{name_in};
ghost use Rattle.ccr_tables.specs.declared.command.AdminCommand.TheVariants.{Change};
ghost use Rattle.ccr_tables.specs.declared.update.Update.TheVariants.{UnregisterType};
ghost use Rattle.admin_words.specs.Commands.{register_in, type_least, type_operands};
ghost use Rattle.admin_words.specs.Operands.{both_flags_in, flag_in, flags_in, one};
ghost use Rattle.admin_words.specs.Spellings.{type_command_in};
ghost use Rattle.admin_words.specs.declared.error.WordError.TheVariants.{NoMemory};
ghost use Rattle.admin_words.specs.Answers.{by_word};

use crate::command::{TypeCommand, type_command};
use crate::error::WordError;
use crate::methods::methods;
use crate::operand;
use crate::operand::are_fewer;
use ccr_tables::{AdminCommand, Update};
use std::alloc::{AllocError, Global};

/// The command behind `clrt`.
pub fn type_words(alloc: Global, words: &[&[u8]]) -> Result<AdminCommand, WordError>
    ensures ok { IfOk result (λ c. by_word type_command_in type_least type_operands (map (λ w. w.now) words.now) ≡ Ok c) }
    ensures err { IfErr result (λ e. (e ≡ NoMemory) ⊎ (by_word type_command_in type_least type_operands (map (λ w. w.now) words.now) ≡ Err e)) }
{
    let [word, operands @ ..] = words else {
        return Err(WordError::UnknownCommand);
    };
    let Some(command) = type_command(word) else {
        return Err(WordError::UnknownCommand);
    };
    if are_fewer(operands, type_least(command)) {
        return Err(WordError::MissingOperand);
    }
    match type_operands(alloc, command, operands)? {
        Some(command) => Ok(command),
        None => Err(WordError::BadValue),
    }
}

fn type_least(command: TypeCommand) -> usize
    ensures { result ≡ type_least command }
{
    match command {
        TypeCommand::Register => 3,
        TypeCommand::Unregister => 1,
    }
}

fn type_operands(
    alloc: Global,
    command: TypeCommand,
    words: &[&[u8]],
) -> Result<Option<AdminCommand>, AllocError>
    ensures { IfOk result (λ found. found ≡ type_operands command (map (λ w. w.now) words.now)) }
{
    match command {
        TypeCommand::Register => register(alloc, words),
        TypeCommand::Unregister => Ok(unregister(words)),
    }
}

fn register(alloc: Global, words: &[&[u8]]) -> Result<Option<AdminCommand>, AllocError>
    ensures { IfOk result (λ found. found ≡ register_in (map (λ w. w.now) words.now)) }
{
    let [of_name, of_agent, of_methods, of_flags @ ..] = words else {
        return Ok(None);
    };
    let Some(name) = operand::name(of_name) else {
        return Ok(None);
    };
    let Some(agent) = operand::name(of_agent) else {
        return Ok(None);
    };
    let Some(methods) = methods(alloc, of_methods)? else {
        return Ok(None);
    };
    let Some(flags) = type_flags(of_flags) else {
        return Ok(None);
    };
    Ok(Some(AdminCommand::Change(Update::RegisterType {
        name,
        agent,
        methods,
        single: flags.single,
        failover: flags.failover,
    })))
}

/// The flags of a resource type.
#[derive(Clone, Copy)]
pub struct Flags {
    pub single: bool,
    pub failover: bool,
}

fn type_flags(words: &[&[u8]]) -> Option<Flags>
    ensures { result ≡ flags_in (map (λ w. w.now) words.now) }
{
    match words {
        [] => Some(Flags {
            single: false,
            failover: false,
        }),
        [word] => one_flag(word),
        [first, second] => both_flags(first, second),
        _ => None,
    }
}

#[tactic(auto, unfolding(crate::specs::Operands::flag_in))]
fn one_flag(word: &[u8]) -> Option<Flags>
    ensures { result ≡ flag_in word.now }
{
    if word == b"single".as_slice() {
        Some(Flags {
            single: true,
            failover: false,
        })
    } else if word == b"failover".as_slice() {
        Some(Flags {
            single: false,
            failover: true,
        })
    } else {
        None
    }
}

#[tactic(auto, unfolding(crate::specs::Operands::both_flags_in))]
fn both_flags(first: &[u8], second: &[u8]) -> Option<Flags>
    ensures { result ≡ both_flags_in first.now second.now }
{
    if first == b"single".as_slice() && second == b"failover".as_slice() {
        Some(Flags {
            single: true,
            failover: true,
        })
    } else {
        None
    }
}

fn unregister(words: &[&[u8]]) -> Option<AdminCommand>
    ensures { result ≡ one name_in (λ name. Change (UnregisterType name)) (map (λ w. w.now) words.now) }
{
    let [of_name] = words else {
        return None;
    };
    let name = operand::name(of_name)?;
    Some(AdminCommand::Change(Update::UnregisterType(name)))
}
