ghost use Rattle.std.specs.Prelude.{◌≡◌, ◌<◌, IfOk};
ghost use Rattle.std.specs.String.{string_bytes};
ghost use Rattle.schedule_gen.specs.Lines.{opening};

use std::alloc::{AllocError, Global};

/// How many lines open a schedule.
pub const OPENING: u64 = 10;

/// The opening line with this number, from 0.
pub fn opening_line(alloc: Global, number: u64) -> Result<String, AllocError>
    requires { number < 10 }
    ensures value { IfOk result (λ text. string_bytes text ≡ opening number) }
{
    String::from_str(alloc, opening_text(number))
}

fn opening_text(number: u64) -> &'static str
    requires { number < 10 }
    ensures { result.now ≡ opening number }
{
    match number {
        0 => "schedule cluster 1",
        1 => "cluster 2a",
        2 => "nodes 4",
        3 => "device 1 quorum 1 2 3 4",
        4 => "device 2 data 1 2 3 4",
        5 => "boot 1",
        6 => "boot 2",
        7 => "boot 3",
        8 => "boot 4",
        _ => "rounds 12 1 2 3 4",
    }
}
