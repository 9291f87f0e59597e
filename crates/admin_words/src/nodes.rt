// Commands on nodes and their load limits.
ghost use Rattle.std.specs.Prelude.{◌≡◌, map, Ok, Err, IfOk, IfErr};
ghost use Rattle.std.specs.Option.{option_map};
ghost use Rattle.rg_props.specs.Words.{name_in};
ghost use Rattle.ccr_tables.specs.declared.command.AdminCommand.TheVariants.{Change};
ghost use Rattle.ccr_tables.specs.declared.update.Update.TheVariants.{AddNode, RemoveNode, DeleteLimit};
ghost use Rattle.admin_words.specs.Commands.{limit_in, node_least, node_operands};
ghost use Rattle.admin_words.specs.Operands.{node_in, one, two};
ghost use Rattle.admin_words.specs.Spellings.{node_command_in};
ghost use Rattle.admin_words.specs.Answers.{by_word};

use crate::command::{NodeCommand, node_command};
use crate::error::WordError;
use crate::operand;
use crate::operand::{are_fewer, load};
use ccr_tables::{AdminCommand, Update};
use cl_base::Version;

/// The command behind `clnode`.
pub fn node_words(version: Version, words: &[&[u8]]) -> Result<AdminCommand, WordError>
    ensures ok { IfOk result (λ c. by_word node_command_in node_least (node_operands version) (map (λ w. w.now) words.now) ≡ Ok c) }
    ensures err { IfErr result (λ e. by_word node_command_in node_least (node_operands version) (map (λ w. w.now) words.now) ≡ Err e) }
{
    let [word, operands @ ..] = words else {
        return Err(WordError::UnknownCommand);
    };
    let Some(command) = node_command(word) else {
        return Err(WordError::UnknownCommand);
    };
    if are_fewer(operands, node_least(command)) {
        return Err(WordError::MissingOperand);
    }
    match node_operands(version, command, operands) {
        Some(command) => Ok(command),
        None => Err(WordError::BadValue),
    }
}

fn node_least(command: NodeCommand) -> usize
    ensures { result ≡ node_least command }
{
    match command {
        NodeCommand::Add => 1,
        NodeCommand::Remove => 1,
        NodeCommand::CreateLimit => 4,
        NodeCommand::DeleteLimit => 2,
    }
}

fn node_operands(version: Version, command: NodeCommand, words: &[&[u8]]) -> Option<AdminCommand>
    ensures { result ≡ node_operands version command (map (λ w. w.now) words.now) }
{
    match command {
        NodeCommand::Add => add_node(version, words),
        NodeCommand::Remove => remove_node(version, words),
        NodeCommand::CreateLimit => create_limit(version, words),
        NodeCommand::DeleteLimit => delete_limit(version, words),
    }
}

fn add_node(version: Version, words: &[&[u8]]) -> Option<AdminCommand>
    ensures { result ≡ one (node_in version) (λ n. Change (AddNode n)) (map (λ w. w.now) words.now) }
{
    let [of_node] = words else {
        return None;
    };
    let node = operand::node(version, of_node)?;
    Some(AdminCommand::Change(Update::AddNode(node)))
}

fn remove_node(version: Version, words: &[&[u8]]) -> Option<AdminCommand>
    ensures { result ≡ one (node_in version) (λ n. Change (RemoveNode n)) (map (λ w. w.now) words.now) }
{
    let [of_node] = words else {
        return None;
    };
    let node = operand::node(version, of_node)?;
    Some(AdminCommand::Change(Update::RemoveNode(node)))
}

fn create_limit(version: Version, words: &[&[u8]]) -> Option<AdminCommand>
    ensures { result ≡ limit_in version (map (λ w. w.now) words.now) }
{
    let [of_node, of_limit, of_soft, of_hard] = words else {
        return None;
    };
    let node = operand::node(version, of_node)?;
    let limit = operand::name(of_limit)?;
    let soft = load(of_soft)?;
    let hard = load(of_hard)?;
    Some(AdminCommand::Change(Update::CreateLimit {
        node,
        limit,
        soft,
        hard,
    }))
}

fn delete_limit(version: Version, words: &[&[u8]]) -> Option<AdminCommand>
    ensures { result ≡ two (node_in version) name_in (λ n limit. Change (DeleteLimit n limit)) (map (λ w. w.now) words.now) }
{
    let [of_node, of_limit] = words else {
        return None;
    };
    let node = operand::node(version, of_node)?;
    let limit = operand::name(of_limit)?;
    Some(AdminCommand::Change(Update::DeleteLimit { node, limit }))
}
