// Whether a decision changed anything.
ghost use Rattle.std.specs.Prelude.{◌≡◌, ◌↔◌, [], IsTrue, false, true, slice_get};
ghost use Rattle.rgm_president.specs.Steady.{is_any_faulted, is_faulted_in};

use rg_view::{Goals, GroupHistories, GroupView, ResourceStates};

/// Whether the goals are those before, and no resource has a mark that could end.
pub fn is_unchanged(before: &Goals, view: &GroupView) -> bool
    ensures same { result ≡ true → before.now ≡ view.entry.now.goals }
    ensures clear { result ≡ true → is_any_faulted view.entry.now.resources ≡ false }
{
    has_same_goals(before, &view.goals) && !is_any_faulted(&view.resources)
}

/// Whether the goals are the same, in the same order.
#[tactic(auto, using(config_cache::proofs::Fronts::next_same, config_cache::proofs::Fronts::not_same, config_cache::proofs::Fronts::whole_same))]
fn has_same_goals(a: &Goals, b: &Goals) -> bool
    ensures { IsTrue result ↔ (a.now ≡ b.now) }
{
    if a.len() != b.len() {
        return false;
    }
    for place in 0..b.len() {
        if !is_same_goal(a, b, place) {
            return false;
        }
    }
    true
}

/// Whether the same goal of the same group stands at this place.
fn is_same_goal(a: &Goals, b: &Goals, place: usize) -> bool
    ensures { IsTrue result ↔ (slice_get a.now place ≡ slice_get b.now place) }
{
    a.get(place) == b.get(place)
}

/// Whether a resource is faulted on a node.
#[tactic(auto, using(crate::proofs::Lists::one_clear, crate::proofs::Lists::all_clear))]
fn is_any_faulted(states: &ResourceStates) -> bool
    ensures { result ≡ false → is_any_faulted states.now ≡ false }
{
    for place in 0..states.len() {
        if is_faulted_at(states, place) {
            return true;
        }
    }
    false
}

/// Whether that at this place is.
fn is_faulted_at(states: &ResourceStates, place: usize) -> bool
    ensures { result ≡ is_faulted_in (slice_get states.now place) }
{
    match states.get(place) {
        Some(state) => state.faulted,
        None => false,
    }
}

/// Whether no start failure and no move is remembered: what is remembered counts for a time only.
#[tactic(auto, using(crate::proofs::Lists::none_remembered))]
pub fn is_forgotten(histories: &GroupHistories) -> bool
    ensures { result ≡ true → histories.now ≡ [] }
{
    histories.len() == 0
}
