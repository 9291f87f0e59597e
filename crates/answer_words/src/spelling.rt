// The words that answers are made of.
ghost use Rattle.std.specs.Prelude.{◌≡◌};
ghost use Rattle.answer_words.specs.Spellings.{operand_word_in, plain_refusal_in, refused_command_in, whole_answer_in};

use cl_base::Refusal;
use status_report::Answer;

/// A word behind `refused` that operands follow.
#[derive(Clone, Copy)]
pub enum OperandWord {
    /// `ask`: a node.
    Ask,
    /// `unknown`: a name or a number.
    Unknown,
    /// `in-use`: a name.
    InUse,
    /// `not-listed`: a node.
    NotListed,
    /// `cycle`: names.
    Cycle,
    /// `lose-quorum`: votes, those that there would be and those needed.
    LoseQuorum,
    /// `record-full`: a length.
    RecordFull,
}

#[tactic(auto, unfolding(crate::specs::Spellings::whole_answer_in))]
/// The answer that is this word alone.
pub fn whole_answer(word: &[u8]) -> Option<Answer>
    ensures { result ≡ whole_answer_in word.now }
{
    if word == b"ok".as_slice() {
        Some(Answer::Ok)
    } else if word == b"unknown".as_slice() {
        Some(Answer::Unknown)
    } else {
        None
    }
}

#[tactic(auto, unfolding(crate::specs::Spellings::refused_command_in))]
/// The refusal of a command whatever the configuration, which is this word behind `refused`.
pub fn refused_command(word: &[u8]) -> Option<Answer>
    ensures { result ≡ refused_command_in word.now }
{
    if word == b"unknown-command".as_slice() {
        Some(Answer::UnknownCommand)
    } else if word == b"missing-operand".as_slice() {
        Some(Answer::MissingOperand)
    } else if word == b"bad-value".as_slice() {
        Some(Answer::BadValue)
    } else if word == b"not-member".as_slice() {
        Some(Answer::NotMember)
    } else if word == b"queue-full".as_slice() {
        Some(Answer::QueueFull)
    } else {
        None
    }
}

#[tactic(auto, unfolding(crate::specs::Spellings::plain_refusal_in))]
/// The refusal over the configuration that is this word behind `refused`.
pub fn plain_refusal(word: &[u8]) -> Option<Refusal>
    ensures { result ≡ plain_refusal_in word.now }
{
    if word == b"exists".as_slice() {
        Some(Refusal::Exists)
    } else if word == b"managed".as_slice() {
        Some(Refusal::Managed)
    } else if word == b"unmanaged".as_slice() {
        Some(Refusal::Unmanaged)
    } else if word == b"same-value".as_slice() {
        Some(Refusal::SameValue)
    } else if word == b"too-many".as_slice() {
        Some(Refusal::TooMany)
    } else if word == b"bad-property".as_slice() {
        Some(Refusal::BadProperty)
    } else if word == b"bad-setting".as_slice() {
        Some(Refusal::BadSetting)
    } else if word == b"still-up".as_slice() {
        Some(Refusal::StillUp)
    } else if word == b"single".as_slice() {
        Some(Refusal::Single)
    } else if word == b"no-mark".as_slice() {
        Some(Refusal::NoMark)
    } else if word == b"node-is-member".as_slice() {
        Some(Refusal::NodeIsMember)
    } else if word == b"device-not-held".as_slice() {
        Some(Refusal::DeviceNotHeld)
    } else if word == b"node-has-vote".as_slice() {
        Some(Refusal::NodeHasVote)
    } else {
        None
    }
}

#[tactic(auto, unfolding(crate::specs::Spellings::operand_word_in))]
/// What the word behind `refused` says, if operands follow it.
pub fn operand_word(word: &[u8]) -> Option<OperandWord>
    ensures { result ≡ operand_word_in word.now }
{
    if word == b"ask".as_slice() {
        Some(OperandWord::Ask)
    } else if word == b"unknown".as_slice() {
        Some(OperandWord::Unknown)
    } else if word == b"in-use".as_slice() {
        Some(OperandWord::InUse)
    } else if word == b"not-listed".as_slice() {
        Some(OperandWord::NotListed)
    } else if word == b"cycle".as_slice() {
        Some(OperandWord::Cycle)
    } else if word == b"lose-quorum".as_slice() {
        Some(OperandWord::LoseQuorum)
    } else if word == b"record-full".as_slice() {
        Some(OperandWord::RecordFull)
    } else {
        None
    }
}
