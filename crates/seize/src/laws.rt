//! What follows from the rules. Each law is a function that does nothing: its clauses are the law,
//! proved of every list of answers. Lists of answers and exchanges are newest first.
ghost use Rattle.std.specs.Prelude.{◌≡◌, ◌≢◌, ◌⊎◌, ◌↔◌, ◌∷◌, [], ℕ, true, false, List, Some, None, IfSome, IsSome, IsNone, Ok};
ghost use Rattle.cl_base.specs.Sets.{has};
ghost use Rattle.pgr_device.specs.Device.{Device};
ghost use Rattle.pgr_device.specs.Spc.{step, may_read};
ghost use Rattle.pgr_device.specs.declared.kind.PrKind.TheVariants.{WriteExclusiveRegistrantsOnly};
ghost use Rattle.pgr_device.specs.declared.registration.Registration.{Registration};
ghost use Rattle.pgr_device.specs.declared.command.PrCommand.{PrCommand};
ghost use Rattle.pgr_device.specs.declared.command.PrCommand.TheVariants as command;
ghost use Rattle.pgr_device.specs.declared.command.PrAnswer.TheVariants as answer;
ghost use Rattle.seize.specs.declared.kind.SeizeKind.TheVariants.{Vote};
ghost use Rattle.cl_base.specs.declared.seizing.SeizeEnd.TheVariants.{Held, NotRegistered, Greater, Expelled, Contended, Fault};
ghost use Rattle.seize.specs.declared.kind.JoinResult.TheVariants as join;
ghost use Rattle.seize.specs.Answers.{Answer, IsFailure, is_answer};
ghost use Rattle.seize.specs.Endings.{HasBegun, SawMembersAndEpoch, SawStranger, SawWord, LackedKey, WasExpelled, HasFailed, IsOwn};
ghost use Rattle.seize.specs.Exchanges.{fed, exchanges, join_fed, join_exchanges, word_read, running};
ghost use Rattle.seize.specs.Joining as Joining;
ghost use Rattle.cl_base.specs.Keys.{key_of};
ghost use Rattle.seize.specs.Known.{Knows, KnowsJoin};
ghost use Rattle.seize.specs.Keys.{node_of, is_key_of, has_key, first_stranger};
ghost use Rattle.seize.specs.Seizing.{SeizeState, command_of, result_of, taken, own_key};

/// A device is held only where the last reading of its keys showed the own one and besides members'
/// alone, and the word, read directly after it, was the epoch.
pub fn held_after_members_alone()
    ensures { (s : SeizeState) (answers : List Answer) (keys : List ℕ) → HasBegun s → result_of (fed s answers) ≡ Some (Held keys) → SawMembersAndEpoch s keys (exchanges s answers) }
{}

/// A seizing ends contended exactly at the 64th reading of the keys running that shows the own key
/// and one of no member, and names the first such key.
pub fn contended_at_the_64th()
    ensures only { (s : SeizeState) (answers : List Answer) (key : ℕ) → HasBegun s → result_of (fed s answers) ≡ Some (Contended key) → SawStranger s key (exchanges s answers) }
    ensures whenever { (s : SeizeState) (answers : List Answer) (keys : List ℕ) (key : ℕ) → HasBegun s
        → command_of (fed s answers) ≡ Some command.Keys → running (exchanges s answers) ≡ 63 → has_key (own_key s) keys ≡ true → first_stranger s.cluster s.members keys ≡ Some key
        → result_of (fed s (Ok (answer.Keys keys) ∷ answers)) ≡ Some (Contended key) }
{}

/// The word that a seizing ends by is the one that the last answer showed, and is not the epoch. It
/// is above the epoch, unless it was read after a try to reserve.
pub fn greater_is_not_the_epoch()
    ensures { (s : SeizeState) (answers : List Answer) (word : ℕ) → HasBegun s → result_of (fed s answers) ≡ Some (Greater word) → SawWord s word (exchanges s answers) }
{}

/// A seizing ends expelled only after a conflict to its swap, or where a reading of the keys after
/// its try to reserve lacks the own one.
pub fn expelled_without_own_key()
    ensures { (s : SeizeState) (answers : List Answer) → HasBegun s → result_of (fed s answers) ≡ Some Expelled → WasExpelled s (exchanges s answers) }
{}

/// A seizing ends by a fault exactly where a command failed, or was answered as the device never
/// answers it.
pub fn fault_only_after_a_failure()
    ensures only { (s : SeizeState) (answers : List Answer) → HasBegun s → result_of (fed s answers) ≡ Some Fault → HasFailed (exchanges s answers) }
    ensures whenever { (s : SeizeState) (sent : PrCommand) (a : Answer) → command_of s ≡ Some sent → IsFailure sent a → result_of (taken s a) ≡ Some Fault }
{}

/// A seizing ends not registered exactly where it is for votes and its first command, which only
/// reads the keys, does not find the own one, or finds it while the record does not call it
/// validated.
pub fn not_registered_before_any_change()
    ensures only { (s : SeizeState) (answers : List Answer) (keys : List ℕ) → HasBegun s → result_of (fed s answers) ≡ Some (NotRegistered keys) → LackedKey s keys (exchanges s answers) }
    ensures whenever { (s : SeizeState) (keys : List ℕ) → HasBegun s → s.kind ≡ Vote → (has_key (own_key s) keys ≡ false) ⊎ (s.valid ≡ false) → result_of (taken s (Ok (answer.Keys keys))) ≡ Some (NotRegistered keys) }
{}

/// A device is joined only where the own key was registered and the word, read after it, was the
/// epoch. A word that comes too late is the one that was read, and is not the epoch.
pub fn joined_after_own_key()
    ensures joined { (epoch me cluster : ℕ) (answers : List Answer) → Joining.result_of (join_fed (Joining.begun epoch me cluster) answers) ≡ Some join.Joined
        → join_exchanges (Joining.begun epoch me cluster) answers ≡ word_read epoch ∷ record { command = command.Ignore (key_of cluster me); answer = Ok answer.Good } ∷ [] }
    ensures late { (epoch me cluster : ℕ) (answers : List Answer) (word : ℕ) → Joining.result_of (join_fed (Joining.begun epoch me cluster) answers) ≡ Some (join.Late word)
        → (word ≢ epoch) × (join_exchanges (Joining.begun epoch me cluster) answers ≡ word_read word ∷ record { command = command.Ignore (key_of cluster me); answer = Ok answer.Good } ∷ []) }
    ensures fault { (epoch me cluster : ℕ) (answers : List Answer) → Joining.result_of (join_fed (Joining.begun epoch me cluster) answers) ≡ Some join.Fault
        → HasFailed (join_exchanges (Joining.begun epoch me cluster) answers) }
{}

/// No command of a seizing or a joining releases, clears or unregisters, and the only key that it
/// registers or shows is the own one.
pub fn writes_the_own_key_alone()
    ensures seizing { (s : SeizeState) → IfSome (command_of s) (IsOwn s.epoch (own_key s)) }
    ensures joining { (s : Joining.JoinState) → IfSome (Joining.command_of s) (IsOwn s.epoch (key_of s.cluster s.me)) }
{}

/// A command is due exactly until there is a result.
pub fn due_until_the_result()
    ensures seizing { (s : SeizeState) → IsSome (command_of s) ↔ IsNone (result_of s) }
    ensures joining { (s : Joining.JoinState) → IsSome (Joining.command_of s) ↔ IsNone (Joining.result_of s) }
{}

/// A key is one of the members' exactly where it is the key of a member.
pub fn keys_of_members()
    ensures from { (cluster members node : ℕ) → is_key_of cluster members (key_of cluster node) ≡ has members node }
    ensures to { (cluster members key : ℕ) → is_key_of cluster members key ≡ true → (key ≡ key_of cluster (node_of cluster key)) × (has members (node_of cluster key) ≡ true) }
{}

/// A device that lets the node read never answers one of these commands by what counts as a
/// failure. It lets every node read where no reservation stands, or one of type 5h, which is the
/// only one that is made here.
pub fn a_device_gives_no_fault()
    ensures answers { (d : Device) (node epoch own : ℕ) (sent : PrCommand) → has d.paths node ≡ true → may_read d.registrations node d.reservation ≡ true
        → IsOwn epoch own sent → is_answer sent (step d node sent).answer ≡ true }
    ensures unreserved { (registrations : List Registration) (node : ℕ) → may_read registrations node None ≡ true }
    ensures reserved { (registrations : List Registration) (node holder : ℕ) → may_read registrations node (Some (record { holder = holder; kind = WriteExclusiveRegistrantsOnly })) ≡ true }
{}

/// What the node knows by each command of a task and each answer to it, as the step tells to which
/// they lead: that the own key is registered, that the word is the epoch or a smaller one, what keys
/// were read, that a reservation or a preemption was tried, or how the task ended.
pub fn each_answer_tells()
    ensures seizing { (s : SeizeState) (sent : PrCommand) (a : Answer) → command_of s ≡ Some sent → Knows s (taken s a).step sent a }
    ensures joining { (s : Joining.JoinState) (sent : PrCommand) (a : Answer) → Joining.command_of s ≡ Some sent → KnowsJoin s (Joining.taken s a).step sent a }
{}
