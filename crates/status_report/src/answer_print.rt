// The lines of a reservation schedule's trace are appended to a text that is kept, so that they take
// memory only where it has no room for them.
ghost use Rattle.std.specs.Prelude.{◌≡◌, ◌++◌, ◌∷◌, [], OnOk};
ghost use Rattle.std.specs.Fmt.{decimal};
ghost use Rattle.pgr_device.specs.Registered.{keys_of};
ghost use Rattle.pgr_device.specs.Replies.{answer_of};
ghost use Rattle.status_report.specs.Lines.{printed};
ghost use Rattle.status_report.specs.PrAnswers.{holder_text, keys_text};
ghost use Rattle.status_report.specs.declared.entry.Entry.TheVariants.{Answered, Powered};

use crate::pr_text::{push_holder, push_keys};
use crate::trace_print::push_number;
use pgr_device::{Pgr, PrKind, Reply};
use std::alloc::AllocError;

/// Appends the line of a device's reply, with its newline. The text of keys and of a holder is made in
/// `words`, whatever that holds.
pub fn print_reply(
    text: &mut Vec<u8>,
    words: &mut String,
    device: &Pgr,
    reply: Reply,
) -> Result<(), AllocError>
    ensures printed { OnOk result (text.new.items ≡ text.old.items ++ printed (Answered (answer_of device.now reply))) }
{
    match reply {
        Reply::Good => text.extend_from_slice(b"good\n".as_slice()),
        Reply::Conflict => text.extend_from_slice(b"conflict\n".as_slice()),
        Reply::InvalidRelease => text.extend_from_slice(b"invalid-release\n".as_slice()),
        Reply::NoPath => text.extend_from_slice(b"no-path\n".as_slice()),
        Reply::Keys => print_keys(text, words, device),
        Reply::Holder(holder) => print_holder(text, words, holder),
        Reply::Word(word) => print_number(text, b"word ", word),
        Reply::Value(value) => print_number(text, b"data ", value),
        Reply::Miscompare(word) => print_number(text, b"miscompare ", word),
    }
}

/// Appends the line of a device that lost power and came back.
pub fn print_powered(text: &mut Vec<u8>) -> Result<(), AllocError>
    ensures printed { OnOk result (text.new.items ≡ text.old.items ++ printed Powered) }
{
    text.extend_from_slice(b"powered\n".as_slice())
}

#[inline]
#[tactic(auto, using(crate::proofs::Joins::joined_once))]
fn print_number(text: &mut Vec<u8>, name: &[u8], number: u64) -> Result<(), AllocError>
    ensures { OnOk result (text.new.items ≡ text.old.items ++ (name.now ++ (decimal number ++ 10 ∷ []))) }
{
    text.extend_from_slice(name)?;
    push_number(text, number, b'\n')
}

fn print_keys(text: &mut Vec<u8>, words: &mut String, device: &Pgr) -> Result<(), AllocError>
    ensures { OnOk result (text.new.items ≡ text.old.items ++ (keys_text (keys_of device.now.registrations) ++ 10 ∷ [])) }
{
    if device.registrations().is_empty() {
        return text.extend_from_slice(b"keys none\n".as_slice());
    }
    words.clear();
    push_keys(words, device.keys().keys())?;
    print_words(text, words)
}

fn print_holder(
    text: &mut Vec<u8>,
    words: &mut String,
    holder: Option<(u64, PrKind)>,
) -> Result<(), AllocError>
    ensures { OnOk result (text.new.items ≡ text.old.items ++ (holder_text holder ++ 10 ∷ [])) }
{
    words.clear();
    push_holder(words, holder)?;
    print_words(text, words)
}

#[tactic(auto, using(crate::proofs::Joins::joined_once))]
fn print_words(text: &mut Vec<u8>, words: &str) -> Result<(), AllocError>
    ensures { OnOk result (text.new.items ≡ text.old.items ++ (words.now ++ 10 ∷ [])) }
{
    text.extend_from_slice(words.as_bytes())?;
    text.push(b'\n')?;
    Ok(())
}
