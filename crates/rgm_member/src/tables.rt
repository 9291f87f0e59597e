// Maps by name into which one more goes without memory.
ghost use Rattle.std.specs.Prelude.{◌≡◌, ◌<◌, OnOk, nat_eq};
ghost use Rattle.indexmap.specs.IndexMap.{spare, insert_entry};
ghost use Rattle.rgm_member.specs.State.{put, marks_of, past_of};

use crate::memory::NoMemory;
use crate::past::Past;
use cl_base::{Name, Outcome};
use indexmap::IndexMap;
use wire::Marks;

/// Puts this in the place of what is listed for the name, or at the end.
pub fn put<V: Drop>(things: &mut IndexMap<Name, V>, name: Name, x: V)
    requires { 0 < spare things.old }
    ensures { things.new.entries ≡ put things.old.entries name x }
{
    match things.insert(name, x) {
        Ok(_) => {}
        Err(_) => {}
    }
}

/// Keeps the outcome of the order of this number.
pub fn keep_outcome(outcomes: &mut IndexMap<u64, Outcome>, number: u64, outcome: Outcome)
    requires { 0 < spare outcomes.old }
    ensures { outcomes.new.entries ≡ insert_entry nat_eq outcomes.old.entries number outcome }
{
    match outcomes.insert(number, outcome) {
        Ok(_) => {}
        Err(_) => {}
    }
}

/// Makes room for one more.
pub fn make_room<V: Drop>(things: &mut IndexMap<Name, V>) -> Result<(), NoMemory>
    ensures same { things.new.entries ≡ things.old.entries }
    ensures room { OnOk result (0 < spare things.new) }
{
    things.reserve(1)?;
    Ok(())
}

/// The flags and marks of the resource.
pub fn marks_of(resources: &IndexMap<Name, Marks>, r: &Name) -> Marks
    ensures { result ≡ marks_of resources.now.entries r.now }
{
    match resources.get(r) {
        Some(marks) => *marks,
        None => Marks {
            pre: false,
            run: false,
            mon: false,
            faulted: false,
            stop_failed: false,
            monitor_failed: false,
        },
    }
}

/// What is kept of the group's past.
pub fn past_of(groups: &IndexMap<Name, Past>, g: &Name) -> Past
    ensures { result ≡ past_of groups.now.entries g.now }
{
    match groups.get(g) {
        Some(past) => *past,
        None => Past::none(),
    }
}
