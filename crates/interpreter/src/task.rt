ghost use Rattle.std.specs.Prelude.{◌≡◌, ◌∷◌, [], map};
ghost use Rattle.std.specs.String.{string_bytes};
ghost use Rattle.interpreter.specs.Tasks.{task_of};

/// What the words of the command line ask for.
#[derive(Clone, Copy, Debug, PartialEq, Eq)]
pub enum Task {
    /// Replay the schedule and write the trace.
    Run,
    /// Read the schedule alone and tell how many lines it has.
    Check,
}

/// The task of the words, if they are a command.
pub fn read_task(words: &[String]) -> Option<Task>
    ensures { result ≡ task_of (map string_bytes words.now) }
{
    match words {
        [word] => task_of_word(word.as_bytes()),
        _ => None,
    }
}

fn task_of_word(word: &[u8]) -> Option<Task>
    ensures { result ≡ task_of (word.now ∷ []) }
{
    if word == b"run".as_slice() {
        Some(Task::Run)
    } else if word == b"check".as_slice() {
        Some(Task::Check)
    } else {
        None
    }
}
