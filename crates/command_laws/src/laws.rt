//! What an answer says: each law is a function that does nothing, and its clause is the law.
ghost use Rattle.command_laws.specs.Laws.{AcceptedUpdatesHold, UpdatesAreCounted};

/// An update that is accepted is not refused where it is applied. A group that may not be up for it is
/// up on no member; where it says what comes after what, no cycle comes of it; the membership has a
/// majority under the votes that it changes; and the record has room for it.
pub fn accepted_updates_hold()
    ensures hold { AcceptedUpdatesHold }
{}

/// The number by which the place of an update's row is told is that of the updates of which the
/// configuration was made, where none was refused.
pub fn updates_are_counted()
    ensures count { UpdatesAreCounted }
{}
