// What is wrong with words.
ghost use Rattle.std.specs.Prelude.{◌≡◌, ◌≢◌, IfOk};
ghost use Rattle.admin_words.specs.declared.error.WordError.TheVariants as word;
ghost use Rattle.node_model.specs.Presidents.{word_answer};

use admin_words::WordError;
use status_report::Answer;
use std::alloc::AllocError;

/// What words are answered that are no request, or no command.
pub fn word_answer(e: WordError) -> Result<Answer, AllocError>
    ensures value { IfOk result (λ answer. answer ≡ word_answer e) }
    ensures memory { IfOk result (λ _. e ≢ word.NoMemory) }
{
    match e {
        WordError::UnknownCommand => Ok(Answer::UnknownCommand),
        WordError::MissingOperand => Ok(Answer::MissingOperand),
        WordError::BadValue => Ok(Answer::BadValue),
        WordError::NoMemory => Err(AllocError),
    }
}
