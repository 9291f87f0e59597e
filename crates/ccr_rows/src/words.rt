// Values that are one word.
ghost use Rattle.std.specs.Prelude.{◌≡◌, IfOk};
ghost use Rattle.std.specs.Fmt.{decimal};
ghost use Rattle.ccr_rows.specs.Texts.{choice_text, device_text, failover_text, mode_text, single_text};

use cl_base::FailoverMode;
use itoa::Buffer;
use quorum_votes::DevState;
use std::alloc::{AllocError, Global};

/// The number in decimal digits.
pub fn number_text(alloc: Global, number: u64) -> Result<Vec<u8>, AllocError>
    ensures { IfOk result (λ text. text.items ≡ decimal number) }
{
    let mut buffer = Buffer::new();
    buffer.format(number).as_bytes().to_vec(alloc)
}

/// The word's bytes.
pub fn word_text(alloc: Global, word: &'static str) -> Result<Vec<u8>, AllocError>
    ensures { IfOk result (λ text. text.items ≡ word.now) }
{
    Ok(String::from_str(alloc, word)?.into_bytes())
}

/// `TRUE` or `FALSE`.
pub fn choice_word(choice: bool) -> &'static str
    ensures { result.now ≡ choice_text choice }
{
    if choice { "TRUE" } else { "FALSE" }
}

/// The word of a failover mode.
pub fn mode_word(mode: FailoverMode) -> &'static str
    ensures { result.now ≡ mode_text mode }
{
    match mode {
        FailoverMode::None => "NONE",
        FailoverMode::Soft => "SOFT",
        FailoverMode::Hard => "HARD",
        FailoverMode::RestartOnly => "RESTART_ONLY",
        FailoverMode::LogOnly => "LOG_ONLY",
    }
}

/// The word of a device's state.
pub fn device_word(state: DevState) -> &'static str
    ensures { result.now ≡ device_text state }
{
    match state {
        DevState::Absent => "absent",
        DevState::Enabled => "enabled",
        DevState::Disabled => "disabled",
    }
}

/// Whether the cluster allows one resource of a type alone.
pub fn single_word(single: bool) -> &'static str
    ensures { result.now ≡ single_text single }
{
    if single { "single" } else { "multi" }
}

/// Whether a group with a resource of a type may be online on one node at most.
pub fn failover_word(failover: bool) -> &'static str
    ensures { result.now ≡ failover_text failover }
{
    if failover { "failover" } else { "any" }
}
