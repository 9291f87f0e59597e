// The one assertion of these tests.
use std::process::Abort;

/// What the step at this place of the list says holds. Lists and steps are counted from 0.
pub fn check(rt: &impl Abort, holds: bool, list: usize, place: usize) {
    assert!(rt; holds, "list {list}, step {place}");
}
