//! The whole cluster as an abstract machine: the memberships of the crate `membership_machine`, and for each shared device the
//! machine of the crate `device_machine`, side by side.
//!
//! Each function here is a law. It has no body, and its contract is proved of every list of events from the first state, for every
//! number of nodes and devices, every configuration that updates may make, and every order, loss and repetition of messages.
//! `registered d n` says that node n's key is registered on device d, and validated, at first.
//!
//! The laws say why no cluster that was split starts from an old configuration, loses an acknowledged update, or writes a disk
//! that a greater membership took: `lineage`, `kept` and `disk_rule`. Then come the nine parts on which they rest, and that the
//! whole is made of runs of its machines, so that their laws are laws of it.
#![tactic(auto)]

ghost use Rattle.std.specs.Prelude.{ℕ, Bool, true, List, [], ◌∷◌, ◌++◌, ◌≡◌, ◌<◌, ◌≤◌};
ghost use Rattle.membership_machine.specs.Votes.{Setting};
ghost use Rattle.membership_machine.specs.Starts.{last_start, Follows, Alike};
ghost use Rattle.membership_machine.specs.Growth.{Grows};
ghost use Rattle.membership_machine.specs.Sample.{create_group};
ghost use Rattle.membership_machine.specs.Events as membership;
ghost use Rattle.membership_machine.specs.Parts.{StartsAreCounted, PromisesAreTried};
ghost use Rattle.device_machine.specs.Device.{LetsWrite};
ghost use Rattle.device_machine.specs.Phase.{IsSeizing};
ghost use Rattle.device_machine.specs.Sharing as sharing;
ghost use Rattle.device_machine.specs.Sharing.{Write, Writes, MayInstall};
ghost use Rattle.device_machine.specs.Growth as seizing;
ghost use Rattle.device_machine.specs.Laws.{Later};
ghost use Rattle.cluster_machine.specs.Cluster.{Cluster, first_cluster, Event, Command, Allowed, Run};
ghost use Rattle.cluster_machine.specs.Agreement.{Agrees};
ghost use Rattle.cluster_machine.specs.Machines.{run_at, run_of_memberships, JoinedAsMember};
ghost use Rattle.cluster_machine.specs.Sample.{sample_setting, attached, seizing, forming, updating, fencing, splitting, split};
ghost use Rattle.cluster_machine.specs.Parts.{PromisesHold, AttemptsDiffer, WordsHold, ReservationsHold, TasksHold, OutsidersHold, ValidNodesHold, AttemptsMeet, RecordsAgree, WriteIsSafe};

/// Lineage: the base of an attempt that counted a majority, and so of every start, is what the greatest smaller start had and then
/// the first of its proposals: all that are acknowledged, or one more.
pub fn lineage()
    ensures { (S : Setting) (registered : ℕ → ℕ → Bool) (events : List Event) (w : Cluster) (q : ℕ) → Run S (first_cluster registered) events w
        → (w.memberships.epoch q).counted ≡ true → Follows w.memberships q (last_start w.memberships q) }
{}

/// The first start has an empty base.
pub fn first_base_is_empty()
    ensures { (S : Setting) (registered : ℕ → ℕ → Bool) (events : List Event) (w : Cluster) (q : ℕ) → Run S (first_cluster registered) events w
        → (w.memberships.epoch q).counted ≡ true → last_start w.memberships q ≡ 0 → (w.memberships.epoch q).base ≡ [] }
{}

/// Kept: each update that is acknowledged in a start stands at its place in the base of every greater attempt that counted a
/// majority, and so of every greater start.
pub fn kept()
    ensures { (S : Setting) (registered : ℕ → ℕ → Bool) (events : List Event) (w : Cluster) (e q : ℕ) → Run S (first_cluster registered) events w
        → (w.memberships.epoch e).started ≡ true → e < q → (w.memberships.epoch q).counted ≡ true
        → Alike (w.memberships.epoch e).acked (w.memberships.epoch e).log (w.memberships.epoch q).base }
{}

/// Disk rule: where a device takes a write of node n, answered or not, n is a member of a membership that started and holds the
/// device, and no attempt with a greater number counted a majority with the device held. So none left n out. The last holds of each
/// node that joined the device and that the device would let write.
pub fn disk_rule()
    ensures write { (S : Setting) (registered : ℕ → ℕ → Bool) (events : List Event) (w : Cluster) (d n value : ℕ) → Run S (first_cluster registered) events w
        → Allowed S w (Command d (Write n value)) → WriteIsSafe w d n }
    ensures joined { (S : Setting) (registered : ℕ → ℕ → Bool) (events : List Event) (w : Cluster) (d n f : ℕ) → Run S (first_cluster registered) events w
        → Writes (w.device d) n → (w.memberships.epoch f).counted ≡ true → (w.memberships.epoch f).holds d ≡ true → f ≤ (w.memberships.node n).session }
{}

/// What was told stays true: of two states of one run the earlier grows to the later, and no device takes back its word, its
/// reservation, what was promised and held, who was asked to seize it, or how a seizing ended.
pub fn told_facts_stay()
    ensures memberships { (S : Setting) (registered : ℕ → ℕ → Bool) (events later : List Event) (w v : Cluster) → Run S (first_cluster registered) events w
        → Run S w later v → Grows w.memberships v.memberships }
    ensures devices { (S : Setting) (registered : ℕ → ℕ → Bool) (events later : List Event) (w v : Cluster) (d : ℕ) → Run S (first_cluster registered) events w
        → Run S w later v → Later (w.device d) (v.device d) }
    ensures seizings { (S : Setting) (registered : ℕ → ℕ → Bool) (events later : List Event) (w v : Cluster) (d : ℕ) → Run S (first_cluster registered) events w
        → Run S w later v → seizing.Grows (w.device d) (v.device d) }
{}

/// Every start was counted, with a majority under the committed and under the pending votes, and every member had installed it.
pub fn starts_are_counted()
    ensures { (S : Setting) (registered : ℕ → ℕ → Bool) (events : List Event) (w : Cluster) → Run S (first_cluster registered) events w → StartsAreCounted S w.memberships }
{}

/// Part 1: promises never fall; sessions, installed epochs and members.
pub fn promises_hold()
    ensures { (S : Setting) (registered : ℕ → ℕ → Bool) (events : List Event) (w : Cluster) → Run S (first_cluster registered) events w → PromisesHold S w }
{}

/// Part 2: a number has at most one attempt.
pub fn attempts_differ()
    ensures { (S : Setting) (registered : ℕ → ℕ → Bool) (events : List Event) (w : Cluster) → Run S (first_cluster registered) events w → AttemptsDiffer S w }
{}

/// Part 3: epoch words never fall, are numbers of attempts, and one node writes each.
pub fn words_hold()
    ensures { (S : Setting) (registered : ℕ → ℕ → Bool) (events : List Event) (w : Cluster) → Run S (first_cluster registered) events w → WordsHold S w }
{}

/// Part 4: reservations stay, and their holders are registered.
pub fn reservations_hold()
    ensures { (S : Setting) (registered : ℕ → ℕ → Bool) (events : List Event) (w : Cluster) → Run S (first_cluster registered) events w → ReservationsHold S w }
{}

/// Part 5: one seizing and one joining of a device in a session.
pub fn tasks_hold()
    ensures { (S : Setting) (registered : ℕ → ℕ → Bool) (events : List Event) (w : Cluster) → Run S (first_cluster registered) events w → TasksHold w }
{}

/// Part 6: who is outside the greatest membership that held a device, and registered on it, has no claim on it.
pub fn outsiders_hold()
    ensures { (S : Setting) (registered : ℕ → ℕ → Bool) (events : List Event) (w : Cluster) → Run S (first_cluster registered) events w → OutsidersHold w }
{}

/// Part 7: who holds a device valid, and is registered on it, knows of all that held it.
pub fn valid_nodes_hold()
    ensures { (S : Setting) (registered : ℕ → ℕ → Bool) (events : List Event) (w : Cluster) → Run S (first_cluster registered) events w → ValidNodesHold w }
{}

/// Part 8: of two attempts with equal votes, both with a majority, some member or some quorum device is in both.
pub fn attempts_meet()
    ensures { (S : Setting) (registered : ℕ → ℕ → Bool) (events : List Event) (w : Cluster) → Run S (first_cluster registered) events w → AttemptsMeet S w }
{}

/// Part 9: records of one installed epoch agree, and what every member of a start has saved is never lost.
pub fn records_agree()
    ensures { (S : Setting) (registered : ℕ → ℕ → Bool) (events : List Event) (w : Cluster) → Run S (first_cluster registered) events w → RecordsAgree w }
{}

/// A run of the whole is, of memberships, a run of their machine, and at each device a run of that device's machine, from what these
/// are at first. So each law of `membership_machine` and of `device_machine` is one of the whole.
pub fn machines_run()
    ensures memberships { (S : Setting) (events : List Event) (w v : Cluster) → Run S w events v
        → membership.Run S w.memberships (run_of_memberships events) v.memberships }
    ensures device { (S : Setting) (events : List Event) (w v : Cluster) (d : ℕ) → Run S w events v
        → sharing.Run (w.device d) (run_at w events d) (v.device d) }
{}

/// The memberships and each device agree on what stands in both: promises, sessions, installed epochs, what a promise showed, and of
/// attempts the members, whether they counted, and the devices held.
pub fn machines_agree()
    ensures { (S : Setting) (registered : ℕ → ℕ → Bool) (events : List Event) (w : Cluster) (d : ℕ) → Run S (first_cluster registered) events w
        → Agrees S d w.memberships (w.device d) }
{}

/// A promise is 0 or the number of an attempt that was begun.
pub fn promises_are_tried()
    ensures { (S : Setting) (registered : ℕ → ℕ → Bool) (events : List Event) (w : Cluster) → Run S (first_cluster registered) events w
        → PromisesAreTried w.memberships }
{}

/// For each attempt one node seizes a device.
pub fn one_seizer()
    ensures { (S : Setting) (registered : ℕ → ℕ → Bool) (events : List Event) (w : Cluster) (d q n m : ℕ) → Run S (first_cluster registered) events w
        → ((w.device d).node n).past.seized q ≡ true → ((w.device d).node m).past.seized q ≡ true → n ≡ m }
{}

/// A node that joined a device is in the session that it promised last, has installed that attempt, is a member of it, and the attempt
/// counted a majority with the device held.
pub fn joined_is_member()
    ensures { (S : Setting) (registered : ℕ → ℕ → Bool) (events : List Event) (w : Cluster) (d n : ℕ) → Run S (first_cluster registered) events w
        → ((w.device d).node n).joined ≡ true → JoinedAsMember w d n }
{}

/// Where a node may install, no seizing of a device is under way at it.
pub fn no_seizing_at_install()
    ensures { (S : Setting) (registered : ℕ → ℕ → Bool) (events : List Event) (w : Cluster) (d n : ℕ) → Run S (first_cluster registered) events w
        → MayInstall (w.device d) n → IsSeizing ((w.device d).node n).phase → ⊥ }
{}

/// A run of two nodes and a quorum device, which shows that the events can come. Both form membership 65 and write, and an update is
/// acknowledged. Then node 1 hears node 2 no more, seizes the device for 129, preempts the key of node 2, starts alone with the
/// update in its base, and writes. Node 2 still believes itself a member of 65, but the device refuses its writes.
pub fn sample_of_a_split()
    ensures run { Run sample_setting (first_cluster attached) (seizing ++ forming ++ updating ++ fencing ++ splitting) split }
    ensures started { ((split.memberships.epoch 129).started ≡ true) × ((split.memberships.epoch 129).holds 1 ≡ true) }
    ensures base { (split.memberships.epoch 129).base ≡ create_group ∷ [] }
    ensures believes { ((split.memberships.node 2).member ≡ true) × (((split.device 1).node 2).joined ≡ true) }
    ensures refused { LetsWrite (split.device 1).device 2 → ⊥ }
    ensures written { (split.device 1).device.content ≡ 9 }
{}
