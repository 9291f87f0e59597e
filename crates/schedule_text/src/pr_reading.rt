// Lines of reservation schedules are read in place, without memory of their own.
ghost use Rattle.std.specs.Prelude.{◌≡◌, ◌≢◌, ◌<◌, ◌∷◌, [], length, take, slice_index, map, All, IfOk, MatchOption};
ghost use Rattle.schedule_text.specs.Lines.{pr_line_of, words_line, sent_by, command_line, named};
ghost use Rattle.schedule_text.specs.Names.{name_in};
ghost use Rattle.schedule_text.specs.Words.{words_of, decimal_in};
ghost use Rattle.schedule_text.specs.Allowed.{IsAllowedPrLine};
ghost use Rattle.pgr_device.specs.Allowed.{IsAllowed};

use crate::command_name::command_name;
use crate::command_words::command;
use crate::kind::Kind;
use crate::line::PrLine;
use crate::number::{Numeral, decimal};
use crate::reading::is_blank;
use cl_base::NodeId;
use pgr_device::PrCommand;

/// The most words of a line that has a form: F preempt T RK SK.
const MOST_WORDS: usize = 5;

/// Reads a line after the header of a reservation schedule, without its newline. It takes no memory.
pub fn read_pr_line(line: &[u8]) -> Result<PrLine, Kind>
    ensures reading { result ≡ pr_line_of line.now }
    ensures allowed { IfOk result IsAllowedPrLine }
{
    if is_blank(line) {
        return Ok(PrLine::Blank);
    }
    if line == b"end".as_slice() {
        return Ok(PrLine::End);
    }
    if line == b"power".as_slice() {
        return Ok(PrLine::Power);
    }
    read_words(line)
}

/// The line of these words.
fn read_words(line: &[u8]) -> Result<PrLine, Kind>
    ensures reading { result ≡ words_line (words_of line.now) }
    ensures allowed { IfOk result IsAllowedPrLine }
{
    let mut words = [line; MOST_WORDS];
    let mut rest = line;
    for place in 0..MOST_WORDS {
        let Some((word, more)) = cut(rest) else {
            words[place] = rest;
            return command_line(&words[..place + 1]);
        };
        words[place] = word;
        rest = more;
    }
    Err(Kind::Line)
}

/// The first word and what follows the space behind it, or none where there is but one word.
fn cut(line: &[u8]) -> Option<(&[u8], &[u8])>
    ensures { MatchOption result (words_of line.now ≡ line.now ∷ []) (λ parts. words_of line.now ≡ parts.0.now ∷ words_of parts.1.now) }
{
    match first_space(line) {
        Some(space) => Some((&line[..space], &line[space + 1..])),
        None => None,
    }
}

/// How many bytes stand before the first space, if there is one.
fn first_space(bytes: &[u8]) -> Option<usize>
    ensures { MatchOption result (All (λ b. b ≢ 32) bytes.now) (λ n. (n < length bytes.now) × All (λ b. b ≢ 32) (take n bytes.now) × (slice_index bytes.now n ≡ 32)) }
{
    bytes.iter().position(|b| *b == b' ')
}

fn command_line(words: &[&[u8]]) -> Result<PrLine, Kind>
    ensures reading { result ≡ words_line (map (λ w. w.now) words.now) }
    ensures allowed { IfOk result IsAllowedPrLine }
{
    match words {
        [sender, name, fields @ ..] => sender_line(sender, name, fields),
        _ => Err(Kind::Line),
    }
}

fn sender_line(sender: &[u8], name: &[u8], fields: &[&[u8]]) -> Result<PrLine, Kind>
    ensures reading { result ≡ command_line (decimal_in sender.now) (named (name_in name.now) (map (λ w. w.now) fields.now)) }
    ensures allowed { IfOk result IsAllowedPrLine }
{
    let Some(sender) = decimal(sender) else {
        return Err(Kind::Line);
    };
    let Some(name) = command_name(name) else {
        return Err(Kind::Line);
    };
    match command(name, fields) {
        Ok(command) => sent_by(sender, command),
        Err(kind) => Err(kind),
    }
}

fn sent_by(sender: Numeral, command: PrCommand) -> Result<PrLine, Kind>
    requires { IsAllowed command }
    ensures reading { result ≡ sent_by sender command }
    ensures allowed { IfOk result IsAllowedPrLine }
{
    let Numeral::Within(number) = sender else {
        return Err(Kind::Number);
    };
    if number > NodeId::MOST_AT_FIRST {
        return Err(Kind::Number);
    }
    match NodeId::new(number) {
        Ok(sender) => Ok(PrLine::Command { sender, command }),
        Err(_) => Err(Kind::Number),
    }
}
