ghost use Rattle.std.specs.Prelude.{◌≡◌, IfOk};
ghost use Rattle.std.specs.String.{string_bytes};
ghost use Rattle.status_report.specs.ScheduleLines.{schedule_text, skip_text};

use crate::schedule_entry::{ScheduleEntry, SkipCause};
use std::alloc::{AllocError, Global};

/// A line of the schedule that no node answers.
pub fn schedule_line(alloc: Global, entry: ScheduleEntry) -> Result<String, AllocError>
    ensures { IfOk result (λ text. string_bytes text ≡ schedule_text entry) }
{
    match entry {
        ScheduleEntry::Clock(second) => format!(in alloc; "clock {second}"),
        ScheduleEntry::Queued => String::from_str(alloc, "queued"),
        ScheduleEntry::Armed => String::from_str(alloc, "armed"),
        ScheduleEntry::RoundsDone => String::from_str(alloc, "rounds done"),
        ScheduleEntry::Skipped(cause) => {
            let cause = skip_word(cause);
            format!(in alloc; "skipped {cause}")
        }
    }
}

fn skip_word(cause: SkipCause) -> &'static str
    ensures { result.now ≡ skip_text cause }
{
    match cause {
        SkipCause::Up => "up",
        SkipCause::Down => "down",
        SkipCause::NoPacket => "no-packet",
        SkipCause::NoWork => "no-work",
        SkipCause::NoMonitor => "no-monitor",
        SkipCause::NoPresident => "no-president",
        SkipCause::NoAddress => "no-address",
    }
}
