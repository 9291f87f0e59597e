ghost use Rattle.std.specs.Prelude.{◌≡◌, ◌∷◌, [], map};
ghost use Rattle.std.specs.String.{string_bytes};
ghost use Rattle.clreplay.specs.Answers.{answer_of};

/// What `--version` prints.
pub const VERSION: &str = "clreplay 0.1.0";

/// What `--help` prints.
pub const HELP: &str = "usage: clreplay run < SCHEDULE
       clreplay check < SCHEDULE
       clreplay gen SEED COUNT
       clreplay --help | --version

run      replays the schedule on standard input and writes its trace
check    reads the schedule alone and writes `checked K`, K being its lines
gen      makes the schedule of the number SEED, with COUNT lines behind its
         opening, 0 to 90000, replays it and writes a summary of its trace

exit status
  0  the schedule was read to its end, or to its line `end`
  2  the words are no command
  3  a line was refused: the last line written says which, and why
  4  standard input could not be read
  5  standard output could not be written
  6  out of memory
  7  a line was too long, or there were too many: the last line says which";

/// What is answered without reading anything.
#[derive(Clone, Copy, Debug, PartialEq, Eq)]
pub enum Answer {
    Help,
    Version,
}

/// The answer to `--help` and to `--version`.
pub fn early_answer(words: &[String]) -> Option<Answer>
    ensures { result ≡ answer_of (map string_bytes words.now) }
{
    match words {
        [word] => answer_of_word(word.as_bytes()),
        _ => None,
    }
}

fn answer_of_word(word: &[u8]) -> Option<Answer>
    ensures { result ≡ answer_of (word.now ∷ []) }
{
    if word == b"--help".as_slice() {
        Some(Answer::Help)
    } else if word == b"--version".as_slice() {
        Some(Answer::Version)
    } else {
        None
    }
}
