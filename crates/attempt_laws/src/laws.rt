ghost use Rattle.attempt_laws.specs.Laws.{EndsHaveCauses, AllHavePromised, StartsAreCounted, HeldIsTold, WishesAreNewest, FirstWishIsNewest, WishesWait, FirstWishWaits, EndsOnce, IsThenOver};
ghost use Rattle.attempt_laws.specs.Ending.{NacksEnd, ForeignEnds, LeftOutEnds, TooFewEnds};
ghost use Rattle.attempt_laws.specs.Machine.{AttemptsBegin, CallsAreTold, ToldStays, InstallsAreCounts, NewestIsShown, StartsAreReady, StartsFollow, InstallsComeFirst};
ghost use Rattle.attempt_laws.specs.Asking.{DevicesBegin, CallsMove, OthersLeave, QuorumAsksValid, OthersAskAttached};
ghost use Rattle.attempt_laws.specs.Repeating.{CollectsGoAgain, RequestsGoAgain, InstallsGoAgain, NothingElseGoes};
ghost use Rattle.attempt_laws.specs.Sending.{SendsAreOwn, FirstSendsAreOwn, SendsAreShort, FirstSendsAreShort, AsksAreEntries, PlainHasNoVotes, ReadingsAreHeld, HeldIsRead};
ghost use Rattle.attempt_laws.specs.Staying.{PlanBegins, PlanStays, NewestStays, VotesStay, PastStays, InstallsComeBefore, FinalStays, GrantedStays};
ghost use Rattle.attempt_laws.specs.Waiting.{SomeoneIsMissing, EighthTickEnds};

/// What attempts keep to.
///
/// A start comes only with the coordinator's own part done, with each other member's Ready, and with
/// a majority under each of the votes that were given. A device is held only by the word of the node
/// that was asked to seize it. Each end has its cause; one by a foreign or excluded member comes only when all have promised. The node whose votes
/// are wished showed a record than which no other is newer, and then they may be given. Once an attempt has ended or started,
/// no call does anything.
pub fn attempts_keep()
    ensures starts { StartsAreCounted }
    ensures held { HeldIsTold }
    ensures ends { EndsHaveCauses }
    ensures promised { AllHavePromised }
    ensures newest { WishesAreNewest }
    ensures first { FirstWishIsNewest }
    ensures waits { WishesWait }
    ensures first_waits { FirstWishWaits }
    ensures over { IsThenOver }
    ensures once { EndsOnce }
{}

/// What attempts show of the abstract machine of memberships, on which the proof of safety stands.
///
/// Where the machine may begin an attempt, it has it from then on: its epoch, its members, and what they told. A call keeps this where
/// what it tells is true, and what was told stays true whatever else happens. From the choice on, the node that is named showed the machine's newest
/// record. Then an install is a count that the machine allows,
/// with the newest record and with majorities under its committed and its pending votes, and it carries that record;
/// and a start comes after it, where every member is ready.
pub fn attempts_show()
    ensures begin { AttemptsBegin }
    ensures told { CallsAreTold }
    ensures stays { ToldStays }
    ensures newest { NewestIsShown }
    ensures counts { InstallsAreCounts }
    ensures installs { InstallsComeFirst }
    ensures follow { StartsFollow }
    ensures ready { StartsAreReady }
{}

/// What an attempt does at each shared device, as the device's machine has it.
///
/// It goes on to seize only when all have promised, asks a node only where nobody was asked before or the last one ended not registered,
/// and counts a device as held only by the word of the node that was asked last, and any device only with its answer in hand.
/// Each request among its steps is for a node that the machine has as asked so. What nodes and other attempts do at the device leaves that.
/// The first that is asked for a quorum device is the least attached member that holds it valid, for another device the least attached member.
/// A device that is seized as plain data is an enabled quorum device under neither of the votes that were given.
pub fn attempts_ask()
    ensures begin { DevicesBegin }
    ensures calls { CallsMove }
    ensures others { OthersLeave }
    ensures quorum { QuorumAsksValid }
    ensures plain { OthersAskAttached }
    ensures no_votes { PlainHasNoVotes }
{}

/// What ends an attempt. None hangs: while it collects, seizes or installs, a member's answer is missing, and at the eighth tick of the phase it ends.
///
/// A Nack of its epoch ends it; and when the votes are given, a member that is not configured does, else one that the newest record left out,
/// else too few votes with every device that a member reaches.
pub fn attempts_end()
    ensures missing { SomeoneIsMissing }
    ensures eighth { EighthTickEnds }
    ensures nack { NacksEnd }
    ensures foreign { ForeignEnds }
    ensures excluded { LeftOutEnds }
    ensures few { TooFewEnds }
{}

/// The messages among the steps of a call.
///
/// Each is a Collect, a request, an Install or a Start of the attempt's epoch and members, sent by its coordinator, and an Install is the attempt's.
/// Each is short where all that was taken is. Each request is for a device from 1 to 16 that the attempt seizes, and to the node that is asked.
/// The readings of an install are those of the devices that are held, by the node that was asked last and with the keys that it told.
pub fn attempts_send()
    ensures own { SendsAreOwn }
    ensures first_own { FirstSendsAreOwn }
    ensures short { SendsAreShort }
    ensures first_short { FirstSendsAreShort }
    ensures entries { AsksAreEntries }
    ensures readings { ReadingsAreHeld }
    ensures read { HeldIsRead }
{}

/// What stays from one call to the next: the plan; once all have promised, the newest record and the Promises; the votes that were given, past which
/// the attempt never goes back. An install is given only before the phase of installing, and from then on that phase and what the install carries stay.
pub fn attempts_stay()
    ensures begins { PlanBegins }
    ensures plan { PlanStays }
    ensures newest { NewestStays }
    ensures votes { VotesStay }
    ensures past { PastStays }
    ensures before { InstallsComeBefore }
    ensures last { FinalStays }
    ensures granted { GrantedStays }
{}

/// Which messages go again: at the fourth tick of a phase those to each node that has not answered, and at no other tick any.
pub fn attempts_repeat()
    ensures collects { CollectsGoAgain }
    ensures requests { RequestsGoAgain }
    ensures installs { InstallsGoAgain }
    ensures nothing_else { NothingElseGoes }
{}
