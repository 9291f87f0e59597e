//! What follows of the definitions alone.
ghost use Rattle.std.specs.Prelude.{◌≡◌, ◌<◌, ◌≤◌, ◌==◌, ◌++◌, ◌∷◌, ℕ, List, Some, None, true, false, length, map};
ghost use Rattle.std.specs.List.{filter};
ghost use Rattle.cl_base.specs.Sets.{has};
ghost use Rattle.cl_base.specs.declared.header.Header.{Header};
ghost use Rattle.pgr_device.specs.declared.command.PrCommand.TheVariants.{Write};
ghost use Rattle.status_report.specs.declared.device_entry.DeviceAnswer.{DeviceAnswer};
ghost use Rattle.history.specs.Moment.{Moment, lines_of, entries_of};
ghost use Rattle.history.specs.Trace.{device};
ghost use Rattle.history.specs.Setting.{Setting};
ghost use Rattle.history.specs.Member.{member_of, last_member};
ghost use Rattle.history.specs.Starts.{Start, StartLines, starts, start_of, base_due};
ghost use Rattle.history.specs.Deeds.{Deed, Update, OfEach, deeds, start_numbers, has_started, base_in, acks, in_force};
ghost use Rattle.history.specs.Lineage.{Lineage, AllDiffer};
ghost use Rattle.history.specs.Placed.{Placed};
ghost use Rattle.history.specs.Kept.{Kept};
ghost use Rattle.history.specs.DiskRule.{DiskRule, takes};
ghost use Rattle.history.specs.History.{Holds, History, IsHistory, Repository};

/// Kept follows from Lineage and the places that updates have.
pub fn kept_follows()
    ensures { (deeds : List Deed) → Lineage deeds → Placed deeds → Kept deeds }
{}

/// Each membership with a greater number begins with the updates that are in force in this one at the end, in order.
pub fn memberships_begin_with_what_was_in_force()
    ensures { (deeds : List Deed) → Lineage deeds → Placed deeds → (e f : ℕ) → has_started e deeds ≡ true → has_started f deeds ≡ true
        → e < f → (rest : List (List ℕ)) × (base_in f deeds ≡ in_force e deeds ++ rest) }
{}

/// No two updates are acknowledged at one place, in whichever memberships.
pub fn places_are_taken_once()
    ensures { (deeds : List Deed) → OfEach Lineage deeds → Placed deeds → AllDiffer (map (λ (u : Update). u.place) (acks deeds)) }
{}

/// Lineage, the places of updates and Kept hold of each prefix.
pub fn repository_of_prefixes()
    ensures { (later before : List Moment) → Repository (later ++ before) → Lineage (deeds before) × Placed (deeds before) × Kept (deeds before) }
{}

/// Moments that are a history are one of their lines and entries.
pub fn moments_tell_a_history()
    ensures { (S : Setting) (moments : List Moment) → History S moments → IsHistory S (lines_of moments) (entries_of moments) }
{}

/// What holds of a trace holds of each prefix.
pub fn prefixes_hold()
    ensures { (S : Setting) (later before : List Moment) → Holds S (later ++ before) → Holds S before }
{}

/// A number starts once at most.
pub fn starts_once()
    ensures { (deeds : List Deed) (e : ℕ) → Lineage deeds → length (filter (λ f. f == e) (start_numbers deeds)) ≤ 1 }
{}

/// The `start` lines of a trace in which no `base` line is due are the starts among its deeds.
pub fn starts_are_deeds()
    ensures { (moments : List Moment) → StartLines moments → base_due moments ≡ None
        → map (λ (s : Start). s.epoch) (starts moments) ≡ start_numbers (deeds moments) }
{}

/// A node is a member of one membership at most.
pub fn one_membership()
    ensures { (moments : List Moment) (n e f : ℕ) → member_of n moments ≡ Some e → member_of n moments ≡ Some f → e ≡ f }
{}

/// The disk rule, read for a node that is left out: once a greater membership has started that holds the device and lacks the node, the
/// device takes no write of it, be it answered or lost by a fault, until the node is a member of another one.
pub fn left_out_writes_nothing()
    ensures { (h : Header) (n d value e : ℕ) (answer : DeviceAnswer) (before : List Moment) (s : Start)
        → DiskRule h (device n d (Write value) answer ∷ before) → last_member n before ≡ Some e → start_of s.epoch before ≡ Some s
        → e < s.epoch → has s.held d ≡ true → has s.members n ≡ false → takes h before n d value ≡ false }
{}
