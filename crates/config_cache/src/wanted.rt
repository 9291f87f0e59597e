// The updates that are wanted: committed ones, and a pending one behind them.
ghost use Rattle.std.specs.Prelude.{◌≡◌, ◌↔◌, ◌++◌, IsTrue, length, slice_get, take};
ghost use Rattle.std.specs.Option.{option_copied};
ghost use Rattle.ccr_commit.specs.Entries.{listed};

use cl_base::Bytes;

/// The text at this place, counted from 0.
pub fn text_at<'a>(
    committed: &'a [Bytes],
    pending: Option<&'a Bytes>,
    place: usize,
) -> Option<&'a Bytes>
    ensures value { option_copied result ≡ slice_get (committed.now ++ listed (option_copied pending.entry)) place }
{
    if place < committed.len() {
        committed.get(place)
    } else if place == committed.len() {
        pending
    } else {
        None
    }
}

/// How many there are.
pub fn count(committed: &[Bytes], pending: Option<&Bytes>) -> usize
    ensures value { result ≡ length (committed.now ++ listed (option_copied pending.entry)) }
{
    committed.len() + usize::from(pending.is_some())
}

/// Whether they begin with these texts.
#[tactic(auto, using(crate::proofs::Fronts::next_same, crate::proofs::Fronts::not_same, crate::proofs::Fronts::all_same, crate::proofs::Fronts::too_long))]
pub fn begin(texts: &[Bytes], committed: &[Bytes], pending: Option<&Bytes>) -> bool
    ensures value { IsTrue result ↔
        (take (length texts.now) (committed.now ++ listed (option_copied pending.entry)) ≡ texts.now) }
{
    if texts.len() > count(committed, pending) {
        return false;
    }
    for place in 0..texts.len() {
        if !is_at(texts, committed, pending, place) {
            return false;
        }
    }
    true
}

/// Whether the same stands in the texts at this place.
fn is_at(texts: &[Bytes], committed: &[Bytes], pending: Option<&Bytes>, place: usize) -> bool
    ensures { IsTrue result ↔
        (slice_get (committed.now ++ listed (option_copied pending.entry)) place ≡ slice_get texts.now place) }
{
    is_same_text(text_at(committed, pending, place), texts.get(place))
}

/// Whether both are missing, or both say the same.
pub fn is_same_text(a: Option<&Bytes>, b: Option<&Bytes>) -> bool
    ensures value { IsTrue result ↔ (option_copied a.entry ≡ option_copied b.entry) }
{
    match (a, b) {
        (Some(a), Some(b)) => a.items() == b.items(),
        (None, None) => true,
        _ => false,
    }
}
