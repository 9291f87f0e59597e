// Commands on shared addresses.
ghost use Rattle.std.specs.Prelude.{◌≡◌, ◌⊎◌, map, Ok, Err, IfOk, IfErr};
ghost use Rattle.std.specs.Option.{option_map};
ghost use Rattle.rg_props.specs.Words.{name_in};
ghost use Rattle.ccr_tables.specs.declared.command.AdminCommand.TheVariants.{Change};
ghost use Rattle.ccr_tables.specs.declared.update.Update.TheVariants.{CreateAddress, DeleteAddress, SetWeights};
ghost use Rattle.admin_words.specs.Commands.{address_least, address_operands};
ghost use Rattle.admin_words.specs.Operands.{one, policy_in, three, two, weights_in};
ghost use Rattle.admin_words.specs.Spellings.{address_command_in};
ghost use Rattle.admin_words.specs.declared.error.WordError.TheVariants.{NoMemory};
ghost use Rattle.admin_words.specs.Answers.{by_word};

use crate::command::{AddressCommand, address_command};
use crate::error::WordError;
use crate::operand;
use crate::operand::{are_fewer, policy};
use crate::weights::weights;
use ccr_tables::{AdminCommand, Update};
use cl_base::Version;
use std::alloc::{AllocError, Global};

/// The command behind `clsa`.
pub fn address_words(
    alloc: Global,
    version: Version,
    words: &[&[u8]],
) -> Result<AdminCommand, WordError>
    ensures ok { IfOk result (λ c. by_word address_command_in address_least (address_operands version) (map (λ w. w.now) words.now) ≡ Ok c) }
    ensures err { IfErr result (λ e. (e ≡ NoMemory) ⊎ (by_word address_command_in address_least (address_operands version) (map (λ w. w.now) words.now) ≡ Err e)) }
{
    let [word, operands @ ..] = words else {
        return Err(WordError::UnknownCommand);
    };
    let Some(command) = address_command(word) else {
        return Err(WordError::UnknownCommand);
    };
    if are_fewer(operands, address_least(command)) {
        return Err(WordError::MissingOperand);
    }
    match address_operands(alloc, version, command, operands)? {
        Some(command) => Ok(command),
        None => Err(WordError::BadValue),
    }
}

fn address_least(command: AddressCommand) -> usize
    ensures { result ≡ address_least command }
{
    match command {
        AddressCommand::Create => 3,
        AddressCommand::Delete => 1,
        AddressCommand::Weights => 2,
    }
}

fn address_operands(
    alloc: Global,
    version: Version,
    command: AddressCommand,
    words: &[&[u8]],
) -> Result<Option<AdminCommand>, AllocError>
    ensures { IfOk result (λ found. found ≡ address_operands version command (map (λ w. w.now) words.now)) }
{
    match command {
        AddressCommand::Create => Ok(create_address(words)),
        AddressCommand::Delete => Ok(delete_address(words)),
        AddressCommand::Weights => set_weights(alloc, version, words),
    }
}

fn create_address(words: &[&[u8]]) -> Option<AdminCommand>
    ensures { result ≡ three name_in name_in policy_in (λ name of_group policy. Change (CreateAddress name of_group policy)) (map (λ w. w.now) words.now) }
{
    let [of_name, of_group, of_policy] = words else {
        return None;
    };
    let address = operand::name(of_name)?;
    let group = operand::name(of_group)?;
    let policy = policy(of_policy)?;
    Some(AdminCommand::Change(Update::CreateAddress {
        address,
        group,
        policy,
    }))
}

fn delete_address(words: &[&[u8]]) -> Option<AdminCommand>
    ensures { result ≡ one name_in (λ name. Change (DeleteAddress name)) (map (λ w. w.now) words.now) }
{
    let [of_name] = words else {
        return None;
    };
    let name = operand::name(of_name)?;
    Some(AdminCommand::Change(Update::DeleteAddress(name)))
}

fn set_weights(
    alloc: Global,
    version: Version,
    words: &[&[u8]],
) -> Result<Option<AdminCommand>, AllocError>
    ensures { IfOk result (λ found. found ≡ two name_in (weights_in version) (λ name weights. Change (SetWeights name weights)) (map (λ w. w.now) words.now)) }
{
    let [of_name, of_weights] = words else {
        return Ok(None);
    };
    let Some(address) = operand::name(of_name) else {
        return Ok(None);
    };
    let Some(weights) = weights(alloc, version, of_weights)? else {
        return Ok(None);
    };
    Ok(Some(AdminCommand::Change(Update::SetWeights { address, weights })))
}
