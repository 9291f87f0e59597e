ghost use Rattle.std.specs.Prelude.{◌≡◌};
ghost use Rattle.schedule_text.specs.Choices.{choice_in, done_in, good_in, device_kind_in, server_under, is_ask, outcome_in};

use crate::event::StopChoice;
use cl_base::{DeviceKind, Outcome, Version};

/// What the word says of what is not synced.
#[tactic(auto, unfolding(crate::specs::Choices::choice_in))]
pub fn stop_choice(word: &[u8]) -> Option<StopChoice>
    ensures { result ≡ choice_in word.now }
{
    if word == b"old".as_slice() {
        Some(StopChoice::Old)
    } else if word == b"new".as_slice() {
        Some(StopChoice::New)
    } else if word == b"zero".as_slice() {
        Some(StopChoice::Zero)
    } else {
        None
    }
}

/// Whether the word says that a command that fails is done.
#[tactic(auto, unfolding(crate::specs::Choices::done_in))]
pub fn is_done(word: &[u8]) -> Option<bool>
    ensures { result ≡ done_in word.now }
{
    if word == b"done".as_slice() {
        Some(true)
    } else if word == b"undone".as_slice() {
        Some(false)
    } else {
        None
    }
}

/// Whether the word says that a resource is well.
#[tactic(auto, unfolding(crate::specs::Choices::good_in))]
pub fn is_good(word: &[u8]) -> Option<bool>
    ensures { result ≡ good_in word.now }
{
    if word == b"ok".as_slice() {
        Some(true)
    } else if word == b"fail".as_slice() {
        Some(false)
    } else {
        None
    }
}

/// What the word says that a device of the header is.
#[tactic(auto, unfolding(crate::specs::Choices::device_kind_in))]
pub fn device_kind(version: Version, word: &[u8]) -> Option<DeviceKind>
    ensures { result ≡ device_kind_in version word.now }
{
    if word == b"quorum".as_slice() {
        Some(DeviceKind::Quorum)
    } else if word == b"data".as_slice() {
        Some(DeviceKind::Data)
    } else if word == b"server".as_slice() {
        server_under(version)
    } else {
        None
    }
}

/// Servers are there from version 2 on.
fn server_under(version: Version) -> Option<DeviceKind>
    ensures { result ≡ server_under version }
{
    match version {
        Version::One => None,
        Version::Two => Some(DeviceKind::Server),
    }
}

/// Whether the word says what becomes of an ask.
#[tactic(auto, unfolding(crate::specs::Choices::is_ask))]
pub fn is_ask(word: &[u8]) -> bool
    ensures { result ≡ is_ask word.now }
{
    word == b"ok".as_slice()
        || word == b"ask-lost".as_slice()
        || word == b"reply-lost".as_slice()
        || word == b"ask-twice".as_slice()
}

/// How the word says that a call ends.
#[tactic(auto, unfolding(crate::specs::Choices::outcome_in))]
pub fn outcome(word: &[u8]) -> Option<Outcome>
    ensures { result ≡ outcome_in word.now }
{
    if word == b"success".as_slice() {
        Some(Outcome::Success)
    } else if word == b"failure".as_slice() {
        Some(Outcome::Failure)
    } else if word == b"timeout".as_slice() {
        Some(Outcome::Timeout)
    } else {
        None
    }
}
