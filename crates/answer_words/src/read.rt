// Answers by their first words.
ghost use Rattle.std.specs.Prelude.{◌≡◌, map, IfOk};
ghost use Rattle.answer_words.specs.Answers.{answer_in, answer_of, plainly_refused, refused};

use crate::operand::parts;
use crate::refused::refused_by;
use crate::spelling::{operand_word, plain_refusal, refused_command, whole_answer};
use status_report::Answer;
use std::alloc::{AllocError, Global};

#[tactic(auto, unfolding(crate::specs::Answers::answer_in))]
/// The answer that the text tells, if it is one. It is cut at each space.
pub fn parse_answer(alloc: Global, text: &[u8]) -> Result<Option<Answer>, AllocError>
    ensures value { IfOk result (λ found. found ≡ answer_in text.now) }
{
    let words = parts(alloc, text, b' ')?;
    answer_of(alloc, &words)
}

fn answer_of(alloc: Global, words: &[&[u8]]) -> Result<Option<Answer>, AllocError>
    ensures { IfOk result (λ found. found ≡ answer_of (map (λ w. w.now) words.now)) }
{
    match words {
        [word] => Ok(whole_answer(word)),
        [word, reason, operands @ ..] => {
            if *word == b"refused".as_slice() {
                refused(alloc, reason, operands)
            } else {
                Ok(None)
            }
        }
        [] => Ok(None),
    }
}

/// The answer of the words behind `refused`.
fn refused(alloc: Global, reason: &[u8], operands: &[&[u8]]) -> Result<Option<Answer>, AllocError>
    ensures { IfOk result (λ found. found ≡ refused reason.now (map (λ w. w.now) operands.now)) }
{
    if operands.is_empty() {
        return Ok(plainly_refused(reason));
    }
    match operand_word(reason) {
        Some(word) => refused_by(alloc, word, operands),
        None => Ok(None),
    }
}

fn plainly_refused(reason: &[u8]) -> Option<Answer>
    ensures { result ≡ plainly_refused reason.now }
{
    match plain_refusal(reason) {
        Some(refusal) => Some(Answer::Refused(refusal)),
        None => refused_command(reason),
    }
}
