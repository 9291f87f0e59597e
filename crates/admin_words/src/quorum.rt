// Commands on votes and quorum devices.
ghost use Rattle.std.specs.Prelude.{◌≡◌, map, Ok, Err, IfOk, IfErr};
ghost use Rattle.std.specs.Option.{option_map};
ghost use Rattle.cl_base.specs.declared.command.Query.TheVariants.{QuorumStatus};
ghost use Rattle.ccr_tables.specs.declared.command.AdminCommand.TheVariants.{Change, Status};
ghost use Rattle.ccr_tables.specs.declared.update.Update.TheVariants.{NodeVote};
ghost use Rattle.admin_words.specs.Answers.{counted};
ghost use Rattle.admin_words.specs.Commands.{device_flag, device_operands, quorum_by_word, voter_operands, voters};
ghost use Rattle.admin_words.specs.Operands.{node_in, none, one};

use crate::command::{QuorumCommand, Voter, named_voter, quorum_command};
use crate::error::WordError;
use crate::operand;
use crate::operand::are_fewer;
use ccr_tables::{AdminCommand, DeviceChange, Update};
use cl_base::{Query, Version};

/// The command behind `clq`.
pub fn quorum_words(version: Version, words: &[&[u8]]) -> Result<AdminCommand, WordError>
    ensures ok { IfOk result (λ c. quorum_by_word version (map (λ w. w.now) words.now) ≡ Ok c) }
    ensures err { IfErr result (λ e. quorum_by_word version (map (λ w. w.now) words.now) ≡ Err e) }
{
    let [word, rest @ ..] = words else {
        return Err(WordError::UnknownCommand);
    };
    match quorum_command(word) {
        Some(QuorumCommand::Add) => device_words(DeviceChange::Add, rest),
        Some(QuorumCommand::Remove) => device_words(DeviceChange::Remove, rest),
        Some(QuorumCommand::Enable) => voter_words(version, true, rest),
        Some(QuorumCommand::Disable) => voter_words(version, false, rest),
        Some(QuorumCommand::Status) => status(rest),
        None => Err(WordError::UnknownCommand),
    }
}

fn device_words(change: DeviceChange, words: &[&[u8]]) -> Result<AdminCommand, WordError>
    ensures ok { IfOk result (λ c. counted 1 (device_operands change) (map (λ w. w.now) words.now) ≡ Ok c) }
    ensures err { IfErr result (λ e. counted 1 (device_operands change) (map (λ w. w.now) words.now) ≡ Err e) }
{
    if are_fewer(words, 1) {
        return Err(WordError::MissingOperand);
    }
    match device_operands(change, words) {
        Some(command) => Ok(command),
        None => Err(WordError::BadValue),
    }
}

fn device_operands(change: DeviceChange, words: &[&[u8]]) -> Option<AdminCommand>
    ensures { result ≡ device_operands change (map (λ w. w.now) words.now) }
{
    let [of_device] = words else {
        return None;
    };
    let device = operand::device(of_device)?;
    Some(AdminCommand::Change(Update::Device { device, change }))
}

/// The command behind `clq enable` and `clq disable`.
fn voter_words(version: Version, enable: bool, words: &[&[u8]]) -> Result<AdminCommand, WordError>
    ensures ok { IfOk result (λ c. voters version enable (map (λ w. w.now) words.now) ≡ Ok c) }
    ensures err { IfErr result (λ e. voters version enable (map (λ w. w.now) words.now) ≡ Err e) }
{
    let [word, operands @ ..] = words else {
        return Err(WordError::UnknownCommand);
    };
    let Some(of_voter) = named_voter(word) else {
        return Err(WordError::UnknownCommand);
    };
    if are_fewer(operands, 1) {
        return Err(WordError::MissingOperand);
    }
    match voter_operands(version, enable, of_voter, operands) {
        Some(command) => Ok(command),
        None => Err(WordError::BadValue),
    }
}

fn voter_operands(
    version: Version,
    enable: bool,
    of_voter: Voter,
    words: &[&[u8]],
) -> Option<AdminCommand>
    ensures { result ≡ voter_operands version enable of_voter (map (λ w. w.now) words.now) }
{
    match of_voter {
        Voter::Device => device_operands(device_flag(enable), words),
        Voter::Node => node_vote(version, enable, words),
    }
}

fn device_flag(enable: bool) -> DeviceChange
    ensures { result ≡ device_flag enable }
{
    if enable {
        DeviceChange::Enable
    } else {
        DeviceChange::Disable
    }
}

fn node_vote(version: Version, vote: bool, words: &[&[u8]]) -> Option<AdminCommand>
    ensures { result ≡ one (node_in version) (λ n. Change (NodeVote n vote)) (map (λ w. w.now) words.now) }
{
    let [of_node] = words else {
        return None;
    };
    let node = operand::node(version, of_node)?;
    Some(AdminCommand::Change(Update::NodeVote { node, vote }))
}

fn status(words: &[&[u8]]) -> Result<AdminCommand, WordError>
    ensures ok { IfOk result (λ c. counted 0 (none (Status QuorumStatus)) (map (λ w. w.now) words.now) ≡ Ok c) }
    ensures err { IfErr result (λ e. counted 0 (none (Status QuorumStatus)) (map (λ w. w.now) words.now) ≡ Err e) }
{
    match words {
        [] => Ok(AdminCommand::Status(Query::QuorumStatus)),
        _ => Err(WordError::BadValue),
    }
}
