// Commands by their first words.
ghost use Rattle.std.specs.Prelude.{◌≡◌, ◌⊎◌, map, Ok, Err, IfOk, IfErr};
ghost use Rattle.rg_props.specs.Words.{name_in};
ghost use Rattle.ccr_tables.specs.declared.command.AdminCommand.TheVariants.{Rows};
ghost use Rattle.admin_words.specs.declared.error.WordError.TheVariants.{NoMemory};
ghost use Rattle.admin_words.specs.Answers.{counted};
ghost use Rattle.admin_words.specs.Commands.{command_in, command_of};
ghost use Rattle.admin_words.specs.Operands.{one};

use crate::addresses::address_words;
use crate::command::{Tool, named_tool};
use crate::error::WordError;
use crate::groups::group_words;
use crate::nodes::node_words;
use crate::operand;
use crate::operand::parts;
use crate::quorum::quorum_words;
use crate::resources::resource_words;
use crate::types::type_words;
use ccr_tables::AdminCommand;
use cl_base::Version;
use std::alloc::Global;

/// The command that the words spell. They are cut at each space. What is wrong with them is told in
/// this order: the first words are no command's; there are fewer operands than the command has; a
/// word is not of its operand's form or range, or is one too many.
pub fn parse(alloc: Global, version: Version, words: &[u8]) -> Result<AdminCommand, WordError>
    ensures ok { IfOk result (λ c. command_of version words.now ≡ Ok c) }
    ensures err { IfErr result (λ e. (e ≡ NoMemory) ⊎ (command_of version words.now ≡ Err e)) }
{
    let words = parts(alloc, words, b' ')?;
    command(alloc, version, &words)
}

#[tactic(auto, unfolding(crate::specs::Commands::command_in))]
/// The command of these words.
pub fn command(alloc: Global, version: Version, words: &[&[u8]]) -> Result<AdminCommand, WordError>
    ensures ok { IfOk result (λ c. command_in version (map (λ w. w.now) words.now) ≡ Ok c) }
    ensures err { IfErr result (λ e. (e ≡ NoMemory) ⊎ (command_in version (map (λ w. w.now) words.now) ≡ Err e)) }
{
    let [word, rest @ ..] = words else {
        return Err(WordError::UnknownCommand);
    };
    match named_tool(version, word) {
        Some(Tool::Types) => type_words(alloc, rest),
        Some(Tool::Groups) => group_words(alloc, version, rest),
        Some(Tool::Resources) => resource_words(alloc, version, rest),
        Some(Tool::Quorum) => quorum_words(version, rest),
        Some(Tool::Tables) => rows(rest),
        Some(Tool::Nodes) => node_words(version, rest),
        Some(Tool::Addresses) => address_words(alloc, version, rest),
        None => Err(WordError::UnknownCommand),
    }
}

fn rows(words: &[&[u8]]) -> Result<AdminCommand, WordError>
    ensures ok { IfOk result (λ c. counted 1 (one name_in (λ name. Rows name)) (map (λ w. w.now) words.now) ≡ Ok c) }
    ensures err { IfErr result (λ e. counted 1 (one name_in (λ name. Rows name)) (map (λ w. w.now) words.now) ≡ Err e) }
{
    let [first, more @ ..] = words else {
        return Err(WordError::MissingOperand);
    };
    match operand::name(first) {
        Some(name) if more.is_empty() => Ok(AdminCommand::Rows(name)),
        _ => Err(WordError::BadValue),
    }
}
