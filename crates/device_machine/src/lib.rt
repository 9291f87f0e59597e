//! The abstract machine of one shared device: nodes seize it, join it and write it, one device command
//! at a time, and commands fail, nodes crash and register late as they like. The functions of this
//! crate are laws: they do nothing, and what they ensure holds after every list of steps from the first
//! state. `registered` are the nodes whose keys are registered and validated at first: those attached
//! to a quorum device, and none for a device without votes.
#![tactic(auto)]

ghost use Rattle.std.specs.Prelude.{◌≡◌, ℕ, ◌<◌, ◌≤◌, ◌⊎◌, Bool, true, false, List, ◌++◌};
ghost use Rattle.device_machine.specs.Phase.{Phase, IsSeizing, IsJoining, IsPastSwap};
ghost use Rattle.device_machine.specs.Sharing.{Sharing, Event, Allowed, after, Run, MayInstall, Writes, first_sharing};
ghost use Rattle.device_machine.specs.Laws.{Holds, MemberOrAbove, HasJoined, Later};
ghost use Rattle.device_machine.specs.Growth.{Grows};
ghost use Rattle.device_machine.specs.Device.{LetsWrite};
ghost use Rattle.device_machine.specs.Sample.{pair, no_node, forming, formed, faulting, faulted, splitting, split, returning, returned, reforming, reformed, sharing, shared, leaving_out, left_out, registering_late, late, seizing_again, cleaned};

/// Once an attempt has counted a majority and holds the device, every node that joined the device and that the device
/// lets write is in no smaller session. So a node that such an attempt left out writes as a member of a greater one
/// alone.
pub fn disk_rule()
    ensures session { (registered : ℕ → Bool) (before later : List Event) (s t : Sharing) (n f : ℕ)
        → Run (first_sharing registered) before s → Run s later t → Holds s f → Writes t n → f ≤ (t.node n).session }
    ensures left_out { (registered : ℕ → Bool) (before later : List Event) (s t : Sharing) (n f : ℕ)
        → Run (first_sharing registered) before s → Run s later t → Holds s f → (s.attempt f).members n ≡ false → Writes t n
        → f < (t.node n).session }
{}

/// A node that joined the device is in the session that it promised last, has installed that attempt, is a member of it,
/// has a validated key, and that attempt holds the device.
pub fn joined_is_member()
    ensures { (registered : ℕ → Bool) (events : List Event) (s : Sharing) (n : ℕ) → Run (first_sharing registered) events s
        → (s.node n).joined ≡ true → HasJoined s n }
{}

/// What no step takes back: of two states of one run the later has no smaller word, promises and greatest held number,
/// still has the reservation, and an attempt that counted with the device held still does, with the same members.
pub fn nothing_goes_back()
    ensures { (registered : ℕ → Bool) (before later : List Event) (s t : Sharing) → Run (first_sharing registered) before s → Run s later t
        → Later s t }
{}

/// What was told of a seizing stays true: that a node was asked, and as which kind of device; that its seizing ended, and
/// how; who is the seizer of an attempt whose votes are counted. So it is by each event, and over each run.
pub fn told_facts_stay()
    ensures event { (registered : ℕ → Bool) (events : List Event) (s : Sharing) (e : Event) → Run (first_sharing registered) events s → Allowed s e
        → Grows s (after s e) }
    ensures run { (registered : ℕ → Bool) (before later : List Event) (s t : Sharing) → Run (first_sharing registered) before s → Run s later t
        → Grows s t }
{}

/// The epoch word never falls.
pub fn word_never_falls()
    ensures { (registered : ℕ → Bool) (before later : List Event) (s t : Sharing) → Run (first_sharing registered) before s → Run s later t
        → s.device.word ≤ t.device.word }
{}

/// The epoch word is 0, or the number of an attempt that had the promises of all of its members.
pub fn word_is_an_attempt()
    ensures { (registered : ℕ → Bool) (events : List Event) (s : Sharing) → Run (first_sharing registered) events s
        → (s.device.word ≡ 0) ⊎ ((s.attempt s.device.word).collected ≡ true) }
{}

/// From its swap on a node's session is at most the epoch word, until its seizing ends. So it is of a node that joins the
/// device, and of one that has joined it. Such a node that reads another word reads a greater one.
pub fn session_is_at_most_the_word()
    ensures seizing { (registered : ℕ → Bool) (events : List Event) (s : Sharing) (n : ℕ) → Run (first_sharing registered) events s
        → IsPastSwap (s.node n).phase → (s.node n).session ≤ s.device.word }
    ensures joining { (registered : ℕ → Bool) (events : List Event) (s : Sharing) (n : ℕ) → Run (first_sharing registered) events s
        → IsJoining (s.node n).phase → (s.node n).session ≤ s.device.word }
    ensures joined { (registered : ℕ → Bool) (events : List Event) (s : Sharing) (n : ℕ) → Run (first_sharing registered) events s
        → (s.node n).joined ≡ true → (s.node n).session ≤ s.device.word }
{}

/// For each number one node sets the epoch word to it.
pub fn one_writer_of_the_word()
    ensures { (registered : ℕ → Bool) (events : List Event) (s : Sharing) (q n m : ℕ) → Run (first_sharing registered) events s
        → (s.node n).past.wrote q ≡ true → (s.node m).past.wrote q ≡ true → n ≡ m }
{}

/// For each attempt one node seizes the device.
pub fn one_seizer()
    ensures { (registered : ℕ → Bool) (events : List Event) (s : Sharing) (q n m : ℕ) → Run (first_sharing registered) events s
        → (s.node n).past.seized q ≡ true → (s.node m).past.seized q ≡ true → n ≡ m }
{}

/// Once the device is reserved with type 5h it stays so.
pub fn reservation_stays()
    ensures { (registered : ℕ → Bool) (before later : List Event) (s t : Sharing) → Run (first_sharing registered) before s → Run s later t
        → s.device.reserved ≡ true → t.device.reserved ≡ true }
{}

/// The holder of the reservation is registered.
pub fn holder_is_registered()
    ensures { (registered : ℕ → Bool) (events : List Event) (s : Sharing) → Run (first_sharing registered) events s
        → s.device.reserved ≡ true → s.device.keys s.device.holder ≡ true }
{}

/// Once some seizing has ended held, the device is reserved from then on.
pub fn held_is_reserved()
    ensures { (registered : ℕ → Bool) (events : List Event) (s : Sharing) (q : ℕ) → Run (first_sharing registered) events s
        → (s.attempt q).held ≡ true → s.device.reserved ≡ true }
{}

/// A promise never falls, a session is 0 or the promise, and the installed epoch is at most the promise.
pub fn promises()
    ensures never_falls { (registered : ℕ → Bool) (before later : List Event) (s t : Sharing) (n : ℕ)
        → Run (first_sharing registered) before s → Run s later t → (s.node n).promised ≤ (t.node n).promised }
    ensures session { (registered : ℕ → Bool) (events : List Event) (s : Sharing) (n : ℕ) → Run (first_sharing registered) events s
        → ((s.node n).session ≡ 0) ⊎ ((s.node n).session ≡ (s.node n).promised) }
    ensures installed { (registered : ℕ → Bool) (events : List Event) (s : Sharing) (n : ℕ) → Run (first_sharing registered) events s
        → (s.node n).installed ≤ (s.node n).promised }
{}

/// A node begins at most one seizing and one joining of the device for an attempt, no seizing is under way when it
/// installs, and when it has joined no task on the device is queued.
pub fn tasks()
    ensures seizings { (registered : ℕ → Bool) (events : List Event) (s : Sharing) (n q : ℕ) → Run (first_sharing registered) events s
        → (s.node n).past.seizings q ≤ 1 }
    ensures joinings { (registered : ℕ → Bool) (events : List Event) (s : Sharing) (n q : ℕ) → Run (first_sharing registered) events s
        → (s.node n).past.joinings q ≤ 1 }
    ensures at_install { (registered : ℕ → Bool) (events : List Event) (s : Sharing) (n : ℕ) → Run (first_sharing registered) events s
        → MayInstall s n → IsSeizing (s.node n).phase → ⊥ }
    ensures joined { (registered : ℕ → Bool) (events : List Event) (s : Sharing) (n : ℕ) → Run (first_sharing registered) events s
        → (s.node n).joined ≡ true → (s.node n).phase ≡ Phase.Over }
{}

/// The number `top` is the greatest for which a seizing ended held. It never falls, so no seizing ends held for an
/// attempt after one did for a greater, and the epoch word is no smaller.
pub fn greatest_held()
    ensures is_held { (registered : ℕ → Bool) (events : List Event) (s : Sharing) → Run (first_sharing registered) events s → 0 < s.top
        → (s.attempt s.top).held ≡ true }
    ensures greatest { (registered : ℕ → Bool) (events : List Event) (s : Sharing) (q : ℕ) → Run (first_sharing registered) events s
        → (s.attempt q).held ≡ true → (0 < q) × (q ≤ s.top) }
    ensures never_falls { (registered : ℕ → Bool) (before later : List Event) (s t : Sharing) → Run (first_sharing registered) before s
        → Run s later t → s.top ≤ t.top }
    ensures word { (registered : ℕ → Bool) (events : List Event) (s : Sharing) → Run (first_sharing registered) events s
        → s.top ≤ s.device.word }
    ensures counted { (registered : ℕ → Bool) (events : List Event) (s : Sharing) (q : ℕ) → Run (first_sharing registered) events s
        → Holds s q → (s.attempt q).held ≡ true }
{}

/// A node that the greatest held attempt left out, and whose key is registered, neither holds the device valid nor has
/// joined it.
pub fn outsiders()
    ensures valid { (registered : ℕ → Bool) (events : List Event) (s : Sharing) (n : ℕ) → Run (first_sharing registered) events s
        → 0 < s.top → (s.attempt s.top).members n ≡ false → s.device.keys n ≡ true → (s.node n).valid ≡ false }
    ensures joined { (registered : ℕ → Bool) (events : List Event) (s : Sharing) (n : ℕ) → Run (first_sharing registered) events s
        → 0 < s.top → (s.attempt s.top).members n ≡ false → s.device.keys n ≡ true → (s.node n).joined ≡ false }
{}

/// A node that holds the device valid, and whose key is registered, is a member of the greatest held attempt, and so
/// promised it. Of each smaller held attempt it is a member, or it has installed a greater one.
pub fn valid_is_member()
    ensures member { (registered : ℕ → Bool) (events : List Event) (s : Sharing) (n : ℕ) → Run (first_sharing registered) events s
        → (s.node n).valid ≡ true → s.device.keys n ≡ true → 0 < s.top → (s.attempt s.top).members n ≡ true }
    ensures promised { (registered : ℕ → Bool) (events : List Event) (s : Sharing) (n : ℕ) → Run (first_sharing registered) events s
        → (s.node n).valid ≡ true → s.device.keys n ≡ true → 0 < s.top → s.top ≤ (s.node n).promised }
    ensures above { (registered : ℕ → Bool) (events : List Event) (s : Sharing) (n e : ℕ) → Run (first_sharing registered) events s
        → (s.node n).valid ≡ true → s.device.keys n ≡ true → (s.attempt e).held ≡ true → MemberOrAbove s n e (s.node n).installed }
{}

/// Where two attempts counted with the device held, the later one as a quorum device, its seizer is a member of the later
/// one, and of the earlier one too, unless it showed an installed epoch above the earlier one when it promised the later.
pub fn quorum_device_meets()
    ensures member { (registered : ℕ → Bool) (events : List Event) (s : Sharing) (e q : ℕ) → Run (first_sharing registered) events s
        → Holds s q → (s.attempt q).members (s.attempt q).seizer ≡ true }
    ensures meets { (registered : ℕ → Bool) (events : List Event) (s : Sharing) (e q : ℕ) → Run (first_sharing registered) events s
        → Holds s e → Holds s q → (s.attempt q).quorum ≡ true → e < q
        → MemberOrAbove s (s.attempt q).seizer e ((s.node (s.attempt q).seizer).past.showed q) }
{}

/// A run on a quorum device of nodes 1 and 2, which shows that the events can come and that the laws speak of something.
/// They form membership 65 and both write. Node 1 seizes for 129 alone, and the answer of its preempt of node 2's key is
/// lost. It forms 193 alone: node 2 still believes itself a member of 65, and the device refuses its writes. Node 2
/// cannot form 130, since its key is absent. They form 257 together, and node 2 is admitted and writes.
pub fn sample_of_a_split()
    ensures run { Run (first_sharing (pair 1 2)) (forming ++ faulting ++ splitting ++ returning ++ reforming) reformed }
    ensures both { Writes formed 1 × Writes formed 2 }
    ensures held { Holds split 193 × Writes split 1 }
    ensures fenced { ((split.node 2).joined ≡ true) × (LetsWrite split.device 2 → ⊥) }
    ensures rejected { (returned.node 2).past.unregistered 130 ≡ true }
    ensures again { Holds reformed 257 × Writes reformed 2 × (reformed.device.content ≡ 5) }
{}

/// A run on a device without votes. Nodes 1, 2 and 3 form membership 65, then 1 and 2 form 129 before node 3 has
/// registered for 65. It registers now, and the device would let it write; but the word that it reads is 129, so it is
/// not admitted. The next seizing preempts its key.
pub fn sample_of_a_late_registration()
    ensures run { Run (first_sharing no_node) (sharing ++ leaving_out ++ registering_late ++ seizing_again) cleaned }
    ensures registered { (late.device.keys 3 ≡ true) × LetsWrite late.device 3 }
    ensures unclaimed { ((late.node 3).joined ≡ false) × ((late.node 3).valid ≡ false) }
    ensures preempted { (cleaned.device.keys 3 ≡ false) × (LetsWrite cleaned.device 3 → ⊥) }
    ensures written { Holds cleaned 193 × Writes cleaned 2 × (cleaned.device.content ≡ 6) }
{}
