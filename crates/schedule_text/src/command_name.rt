ghost use Rattle.std.specs.Prelude.{◌≡◌, find};
ghost use Rattle.std.specs.Str.{bytes_eq};
ghost use Rattle.schedule_text.specs.Names.{name_in, name_text};

/// The word that names a command to a device.
#[derive(Clone, Copy)]
pub enum CommandName {
    Register,
    Ignore,
    Reserve,
    Release,
    Clear,
    Preempt,
    Keys,
    Holder,
    Read,
    Write,
    Word,
    Swap,
}

/// All of them, those of most lines first.
const COMMANDS: [CommandName; 12] = [
    CommandName::Read,
    CommandName::Write,
    CommandName::Keys,
    CommandName::Holder,
    CommandName::Word,
    CommandName::Swap,
    CommandName::Register,
    CommandName::Ignore,
    CommandName::Reserve,
    CommandName::Release,
    CommandName::Clear,
    CommandName::Preempt,
];

/// The command that the word names, if it names one.
#[tactic(auto, unfolding(crate::specs::Names::name_in))]
pub fn command_name(word: &[u8]) -> Option<CommandName>
    ensures { result ≡ name_in word.now }
{
    named_among(&COMMANDS, word)
}

fn named_among(commands: &[CommandName], word: &[u8]) -> Option<CommandName>
    ensures { result ≡ find (λ k. bytes_eq (name_text k) word.now) commands.now }
{
    commands.iter().copied().find(|k| text(*k) == word)
}

fn text(command: CommandName) -> &'static [u8]
    ensures { result.now ≡ name_text command }
{
    match command {
        CommandName::Register => b"register",
        CommandName::Ignore => b"ignore",
        CommandName::Reserve => b"reserve",
        CommandName::Release => b"release",
        CommandName::Clear => b"clear",
        CommandName::Preempt => b"preempt",
        CommandName::Keys => b"keys",
        CommandName::Holder => b"holder",
        CommandName::Read => b"read",
        CommandName::Write => b"write",
        CommandName::Word => b"word",
        CommandName::Swap => b"swap",
    }
}
