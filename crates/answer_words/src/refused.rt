// Refusals with operands.
ghost use Rattle.std.specs.Prelude.{◌≡◌, map, IfOk};
ghost use Rattle.cl_base.specs.declared.refusal.Refusal.TheVariants as refusal;
ghost use Rattle.status_report.specs.declared.command_entry.Answer.TheVariants.{Ask, Refused};
ghost use Rattle.rg_props.specs.Words.{decimal_in, name_in};
ghost use Rattle.answer_words.specs.Operands.{names_in, node_in, one, thing_in, two};
ghost use Rattle.answer_words.specs.Answers.{refused_by};

use crate::number::decimal;
use crate::operand;
use crate::operand::{node, thing};
use crate::spelling::OperandWord;
use cl_base::Refusal;
use status_report::Answer;
use std::alloc::{AllocError, Global};

/// The answer of this word behind `refused` and these operands.
pub fn refused_by(
    alloc: Global,
    word: OperandWord,
    operands: &[&[u8]],
) -> Result<Option<Answer>, AllocError>
    ensures { IfOk result (λ found. found ≡ refused_by word (map (λ w. w.now) operands.now)) }
{
    match word {
        OperandWord::Ask => Ok(ask(operands)),
        OperandWord::Unknown => Ok(unknown(operands)),
        OperandWord::InUse => Ok(in_use(operands)),
        OperandWord::NotListed => Ok(not_listed(operands)),
        OperandWord::Cycle => cycle(alloc, operands),
        OperandWord::LoseQuorum => Ok(lose_quorum(operands)),
        OperandWord::RecordFull => Ok(record_full(operands)),
    }
}

fn ask(operands: &[&[u8]]) -> Option<Answer>
    ensures { result ≡ one node_in (λ node. Ask node) (map (λ w. w.now) operands.now) }
{
    let [of_node] = operands else {
        return None;
    };
    Some(Answer::Ask(node(of_node)?))
}

fn unknown(operands: &[&[u8]]) -> Option<Answer>
    ensures { result ≡ one thing_in (λ thing. Refused (refusal.Unknown thing)) (map (λ w. w.now) operands.now) }
{
    let [of_thing] = operands else {
        return None;
    };
    Some(Answer::Refused(Refusal::Unknown(thing(of_thing)?)))
}

fn in_use(operands: &[&[u8]]) -> Option<Answer>
    ensures { result ≡ one name_in (λ name. Refused (refusal.InUse name)) (map (λ w. w.now) operands.now) }
{
    let [of_name] = operands else {
        return None;
    };
    Some(Answer::Refused(Refusal::InUse(operand::name(of_name)?)))
}

fn not_listed(operands: &[&[u8]]) -> Option<Answer>
    ensures { result ≡ one node_in (λ node. Refused (refusal.NotListed node)) (map (λ w. w.now) operands.now) }
{
    let [of_node] = operands else {
        return None;
    };
    Some(Answer::Refused(Refusal::NotListed(node(of_node)?)))
}

fn cycle(alloc: Global, operands: &[&[u8]]) -> Result<Option<Answer>, AllocError>
    ensures { IfOk result (λ found. found ≡ one names_in (λ names. Refused (refusal.Cycle names)) (map (λ w. w.now) operands.now)) }
{
    let [of_names] = operands else {
        return Ok(None);
    };
    match operand::names(alloc, of_names)? {
        Some(names) => Ok(Some(Answer::Refused(Refusal::Cycle(names)))),
        None => Ok(None),
    }
}

fn lose_quorum(operands: &[&[u8]]) -> Option<Answer>
    ensures { result ≡ two decimal_in decimal_in (λ have need. Refused (refusal.LoseQuorum have need)) (map (λ w. w.now) operands.now) }
{
    let [of_have, of_need] = operands else {
        return None;
    };
    let have = decimal(of_have)?;
    let need = decimal(of_need)?;
    Some(Answer::Refused(Refusal::LoseQuorum { have, need }))
}

fn record_full(operands: &[&[u8]]) -> Option<Answer>
    ensures { result ≡ one decimal_in (λ length. Refused (refusal.RecordFull length)) (map (λ w. w.now) operands.now) }
{
    let [of_length] = operands else {
        return None;
    };
    let length = decimal(of_length)?;
    Some(Answer::Refused(Refusal::RecordFull { length }))
}
