ghost use Rattle.std.specs.Prelude.{◌≡◌, find};
ghost use Rattle.std.specs.Str.{bytes_eq};
ghost use Rattle.schedule_text.specs.EventNames.{event_in, event_text};

/// The word that names an event.
#[derive(Clone, Copy)]
pub enum EventName {
    Boot,
    Crash,
    CrashAt,
    Tick,
    Deliver,
    Lose,
    Repeat,
    Next,
    Drop,
    Again,
    Disk,
    Fault,
    Write,
    Command,
    Outcome,
    Probe,
    Clock,
    Rounds,
    Client,
    Server,
    ServerStop,
}

/// All of them.
const EVENTS: [EventName; 21] = [
    EventName::Boot,
    EventName::Crash,
    EventName::CrashAt,
    EventName::Tick,
    EventName::Deliver,
    EventName::Lose,
    EventName::Repeat,
    EventName::Next,
    EventName::Drop,
    EventName::Again,
    EventName::Disk,
    EventName::Fault,
    EventName::Write,
    EventName::Command,
    EventName::Outcome,
    EventName::Probe,
    EventName::Clock,
    EventName::Rounds,
    EventName::Client,
    EventName::Server,
    EventName::ServerStop,
];

/// The event that the word names, if it names one.
#[tactic(auto, unfolding(crate::specs::EventNames::event_in))]
pub fn event_name(word: &[u8]) -> Option<EventName>
    ensures { result ≡ event_in word.now }
{
    named_among(&EVENTS, word)
}

fn named_among(events: &[EventName], word: &[u8]) -> Option<EventName>
    ensures { result ≡ find (λ k. bytes_eq (event_text k) word.now) events.now }
{
    events.iter().copied().find(|k| text(*k) == word)
}

fn text(event: EventName) -> &'static [u8]
    ensures { result.now ≡ event_text event }
{
    match event {
        EventName::Boot => b"boot",
        EventName::Crash => b"crash",
        EventName::CrashAt => b"crashat",
        EventName::Tick => b"tick",
        EventName::Deliver => b"deliver",
        EventName::Lose => b"lose",
        EventName::Repeat => b"repeat",
        EventName::Next => b"next",
        EventName::Drop => b"drop",
        EventName::Again => b"again",
        EventName::Disk => b"disk",
        EventName::Fault => b"fault",
        EventName::Write => b"write",
        EventName::Command => b"cmd",
        EventName::Outcome => b"outcome",
        EventName::Probe => b"probe",
        EventName::Clock => b"clock",
        EventName::Rounds => b"rounds",
        EventName::Client => b"client",
        EventName::Server => b"server",
        EventName::ServerStop => b"serverstop",
    }
}
