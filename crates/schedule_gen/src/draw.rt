ghost use Rattle.std.specs.Prelude.{◌≡◌};
ghost use Rattle.schedule_gen.specs.Draws as draws;

/// What a line after the opening is.
#[derive(Clone, Copy, Debug, PartialEq, Eq)]
pub enum Form {
    Tick,
    Next,
    Drop,
    Again,
    Disk,
    Write,
    Crash,
    Boot,
    RoundOfAll,
    Create,
    RoundOfTwo,
    Clock,
}

/// The state after a draw: a linear congruential step modulo 2^64.
pub fn draw(state: u64) -> u64
    ensures value { result ≡ draws.draw state }
{
    state
        .wrapping_mul(6364136223846793005)
        .wrapping_add(1442695040888963407)
}

/// The form that the draw chooses.
pub fn chosen_form(drawn: u64) -> Form
    ensures value { result ≡ draws.form_of drawn }
{
    match (drawn >> 33) % 12 {
        0 => Form::Tick,
        1 => Form::Next,
        2 => Form::Drop,
        3 => Form::Again,
        4 => Form::Disk,
        5 => Form::Write,
        6 => Form::Crash,
        7 => Form::Boot,
        8 => Form::RoundOfAll,
        9 => Form::Create,
        10 => Form::RoundOfTwo,
        _ => Form::Clock,
    }
}

/// The first node that the draw names, 1 to 4.
pub fn first_node(drawn: u64) -> u64
    ensures value { result ≡ draws.first_node drawn }
{
    (drawn >> 40) % 4 + 1
}

/// The second node that the draw names, 1 to 4, another than the first.
pub fn second_node(drawn: u64) -> u64
    ensures value { result ≡ draws.second_node drawn }
{
    let first = first_node(drawn);
    let second = (drawn >> 48) % 4 + 1;
    if second == first {
        first % 4 + 1
    } else {
        second
    }
}
