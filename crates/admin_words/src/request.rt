// What one node asks of another.
ghost use Rattle.std.specs.Prelude.{◌≡◌, ◌⊎◌, map, codes, Ok, Err, IfOk, IfErr};
ghost use Rattle.rg_props.specs.Words.{name_in};
ghost use Rattle.admin_words.specs.declared.error.WordError.TheVariants.{NoMemory};
ghost use Rattle.admin_words.specs.Commands.{command_in, as_request, name_request, request_in, request_of};

use crate::error::WordError;
use crate::operand;
use crate::operand::parts;
use crate::read::command;
use ccr_tables::{AdminCommand, Update};
use cl_base::{Ask, Name, Version};
use std::alloc::Global;

/// What one node asks of another.
#[derive(Drop)]
pub enum Request {
    /// To change the configuration.
    Change(Update),
    /// To do something else.
    Act(Ask),
}

/// What the text of a request asks for: `restart R`, `move R`, or what a command changes or asks the
/// president to do. A query is no request.
pub fn parse_request(alloc: Global, version: Version, text: &[u8]) -> Result<Request, WordError>
    ensures ok { IfOk result (λ r. request_of version text.now ≡ Ok r) }
    ensures err { IfErr result (λ e. (e ≡ NoMemory) ⊎ (request_of version text.now ≡ Err e)) }
{
    let words = parts(alloc, text, b' ')?;
    words_request(alloc, version, &words)
}

#[tactic(auto, unfolding(crate::specs::Commands::request_in))]
fn words_request(alloc: Global, version: Version, words: &[&[u8]]) -> Result<Request, WordError>
    ensures ok { IfOk result (λ r. request_in version (map (λ w. w.now) words.now) ≡ Ok r) }
    ensures err { IfErr result (λ e. (e ≡ NoMemory) ⊎ (request_in version (map (λ w. w.now) words.now) ≡ Err e)) }
{
    let [word, rest @ ..] = words else {
        return Err(WordError::UnknownCommand);
    };
    if *word == b"restart".as_slice() {
        return Ok(Request::Act(Ask::Restart(resource(rest)?)));
    }
    if *word == b"move".as_slice() {
        return Ok(Request::Act(Ask::Move(resource(rest)?)));
    }
    command_request(alloc, version, words)
}

/// The one operand, a resource.
fn resource(words: &[&[u8]]) -> Result<Name, WordError>
    ensures ok { IfOk result (λ name. name_request (map (λ w. w.now) words.now) ≡ Ok name) }
    ensures err { IfErr result (λ e. name_request (map (λ w. w.now) words.now) ≡ Err e) }
{
    let [first, more @ ..] = words else {
        return Err(WordError::MissingOperand);
    };
    match operand::name(first) {
        Some(name) if more.is_empty() => Ok(name),
        _ => Err(WordError::BadValue),
    }
}

fn command_request(alloc: Global, version: Version, words: &[&[u8]]) -> Result<Request, WordError>
    ensures ok { IfOk result (λ r. as_request (command_in version (map (λ w. w.now) words.now)) ≡ Ok r) }
    ensures err { IfErr result (λ e. (e ≡ NoMemory) ⊎ (as_request (command_in version (map (λ w. w.now) words.now)) ≡ Err e)) }
{
    match command(alloc, version, words)? {
        AdminCommand::Change(u) => Ok(Request::Change(u)),
        AdminCommand::Act(a) => Ok(Request::Act(a)),
        AdminCommand::Status(_) | AdminCommand::Rows(_) => Err(WordError::UnknownCommand),
    }
}
