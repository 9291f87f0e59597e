//! The abstract machine of cluster memberships and of the configuration repository that they carry on.
//!
//! Nodes promise epochs, show their records to a coordinator, install what it found newest, start, and save and acknowledge
//! updates one at a time. Votes change by these updates, so a coordinator needs a majority under the committed updates and one
//! under those with the pending one. Any message may be late, repeated or lost, and any node may go down between any two steps.
//! The machine is defined in `specs/`: its state in `State`, the steps in `Steps`, the events in `Events`.
//!
//! Each function here is a law. It has no body, and its contract is proved of every list of events.
//! Where quorum devices have votes, some laws have a premise on the devices: two attempts that held one of them and counted its
//! votes meet there (`DevicesMeet`). The crate `cluster_machine` proves that premise of devices that are seized by the rules.
#![tactic(auto)]

ghost use Rattle.std.specs.Prelude.{ℕ, Bool, true, List, [], ◌∷◌, ◌++◌, length, ◌≡◌, ◌<◌, ◌≤◌, ◌⊎◌};
ghost use Rattle.membership_machine.specs.Votes.{Votes, Setting, IsMajority};
ghost use Rattle.membership_machine.specs.State.{Memberships, first_memberships};
ghost use Rattle.membership_machine.specs.Events.{Event, Run};
ghost use Rattle.membership_machine.specs.Starts.{last_start, Follows, Alike, DevicesMeet};
ghost use Rattle.membership_machine.specs.Growth.{Grows};
ghost use Rattle.membership_machine.specs.Sample.{sample_setting, forming, formed, changing, reforming, updating, splitting, split, add_device, create_group};
ghost use Rattle.membership_machine.specs.Parts.{PromisesHold, AttemptsDiffer, PromisesAreTried, StartsAreCounted, RecordsAgree, ShareMember, ShareDevice};

/// A durable promise never falls, sessions and installed epochs are promises, and members are in a membership that started.
pub fn promises_hold()
    ensures { (S : Setting) (events : List Event) (w : Memberships) → Run S first_memberships events w → PromisesHold S w }
{}

/// Distinct attempts have distinct numbers: none is begun again, and each number has the one coordinator that it names.
pub fn attempts_differ()
    ensures { (S : Setting) (events : List Event) (w : Memberships) → Run S first_memberships events w → AttemptsDiffer S w }
{}

/// A promise is 0 or the number of an attempt that was begun, and only such a number's Collect was ever answered.
pub fn promises_are_tried()
    ensures { (S : Setting) (events : List Event) (w : Memberships) → Run S first_memberships events w → PromisesAreTried w }
{}

/// What a message tells stays true: of two states of one run the earlier grows to the later.
pub fn told_facts_stay()
    ensures { (S : Setting) (events later : List Event) (w v : Memberships) → Run S first_memberships events w → Run S w later v → Grows w v }
{}

/// Every start was counted, with a majority under the committed and under the pending votes, and every member had installed it.
pub fn starts_are_counted()
    ensures { (S : Setting) (events : List Event) (w : Memberships) → Run S first_memberships events w → StartsAreCounted S w }
{}

/// Two majorities of the same votes share a member or a device that has votes.
pub fn majorities_share()
    ensures { (S : Setting) (v : Votes) (a b x y : ℕ → Bool) → IsMajority S v a x → IsMajority S v b y → ShareMember a b ⊎ ShareDevice v x y }
{}

/// Lineage: the base of an attempt that counted is what the greatest smaller start had and then the first of its proposals,
/// all that are acknowledged or one more. Where nothing started before, the base is empty.
pub fn lineage()
    ensures { (S : Setting) (events : List Event) (w : Memberships) (q : ℕ) → Run S first_memberships events w → DevicesMeet S w
        → (w.epoch q).counted ≡ true → Follows w q (last_start w q) }
{}

/// The first start has an empty base.
pub fn first_base_is_empty()
    ensures { (S : Setting) (events : List Event) (w : Memberships) (q : ℕ) → Run S first_memberships events w → DevicesMeet S w
        → (w.epoch q).counted ≡ true → last_start w q ≡ 0 → (w.epoch q).base ≡ [] }
{}

/// Kept: what is acknowledged in a start stands at its place in the base of every greater attempt that counted, and so of every greater start.
pub fn kept()
    ensures { (S : Setting) (events : List Event) (w : Memberships) (e q : ℕ) → Run S first_memberships events w → DevicesMeet S w
        → (w.epoch e).started ≡ true → e < q → (w.epoch q).counted ≡ true → Alike (w.epoch e).acked (w.epoch e).log (w.epoch q).base }
{}

/// Records of one installed epoch agree place by place, and what every member has saved is in every later base.
pub fn records_agree()
    ensures { (S : Setting) (events : List Event) (w : Memberships) → Run S first_memberships events w → DevicesMeet S w → RecordsAgree w }
{}

/// A run of two nodes and a quorum device, which shows that the events can come. They form membership 65. Node 1 proposes that the
/// device has a vote, and goes down before it is acknowledged. Node 2 forms 130 of both, with a majority under the votes before and
/// after that update, which its start commits; then one more update is acknowledged. Node 1 is heard no more, and node 2 forms 194
/// with the device. Its base has both updates.
pub fn sample_of_a_split()
    ensures run { Run sample_setting first_memberships (forming ++ changing ++ reforming ++ updating ++ splitting) split }
    ensures formed { ((formed.node 1).member ≡ true) × ((formed.node 2).member ≡ true) }
    ensures started { ((split.epoch 194).started ≡ true) × ((split.node 2).member ≡ true) }
    ensures base { (split.epoch 194).base ≡ add_device ∷ create_group ∷ [] }
{}
