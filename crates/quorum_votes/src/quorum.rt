ghost use Rattle.quorum_votes.specs.Quorum.{MajoritiesMeet, HeldIsWithin};

/// The laws of votes. Two memberships that each hold a majority of the same votes share a member
/// with a vote or a device with votes, and no membership holds more than all votes.
pub fn majorities_meet()
    ensures meet { MajoritiesMeet }
    ensures within { HeldIsWithin }
{}
