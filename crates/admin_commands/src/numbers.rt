// The numbers of refusals.
ghost use Rattle.std.specs.Prelude.{◌≡◌};
ghost use Rattle.admin_commands.specs.Cases.{is_below, number_of, where_so};

use cl_base::Refusal;

/// Whether there is a refusal, and its number is below this one.
pub fn is_below(told: &Option<Refusal>, number: u64) -> bool
    ensures { result ≡ is_below told.now number }
{
    match told {
        Some(refusal) => number_of(refusal) < number,
        None => false,
    }
}

fn number_of(refusal: &Refusal) -> u64
    ensures { result ≡ number_of refusal.now }
{
    match refusal {
        Refusal::Unknown(_) => 7,
        Refusal::Exists => 8,
        Refusal::InUse(_) => 9,
        Refusal::Managed => 10,
        Refusal::Unmanaged => 11,
        Refusal::SameValue => 12,
        Refusal::NotListed(_) => 13,
        Refusal::TooMany => 14,
        Refusal::BadProperty => 15,
        Refusal::BadSetting => 16,
        Refusal::StillUp => 17,
        Refusal::Cycle(_) => 18,
        Refusal::Single => 19,
        Refusal::NoMark => 20,
        Refusal::NodeIsMember => 21,
        Refusal::DeviceNotHeld => 22,
        Refusal::LoseQuorum { .. } => 23,
        Refusal::RecordFull { .. } => 24,
        Refusal::NodeHasVote => 25,
    }
}

/// The refusal, where it is so.
pub fn where_so(holds: bool, refusal: Refusal) -> Option<Refusal>
    ensures { result ≡ where_so holds refusal }
{
    if holds { Some(refusal) } else { None }
}
