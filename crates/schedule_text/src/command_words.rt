ghost use Rattle.std.specs.Prelude.{◌≡◌, map, IfOk};
ghost use Rattle.pgr_device.specs.Allowed.{IsAllowed};
ghost use Rattle.pgr_device.specs.declared.command.PrCommand.TheVariants as made;
ghost use Rattle.schedule_text.specs.Commands.{command_of, kind_of, one_key, two_keys, kind_and_key, kind_key_and_victim, one_number, two_numbers, alone};

use crate::command_name::CommandName;
use crate::kind::Kind;
use crate::number::{Numeral, decimal, key};
use pgr_device::{PrCommand, PrKind};

/// The command of this name and these fields, or why there is none.
pub fn command(name: CommandName, fields: &[&[u8]]) -> Result<PrCommand, Kind>
    ensures reading { result ≡ command_of name (map (λ w. w.now) fields.now) }
    ensures allowed { IfOk result IsAllowed }
{
    match name {
        CommandName::Register => register(fields),
        CommandName::Ignore => ignore(fields),
        CommandName::Reserve => reserve(fields),
        CommandName::Release => release(fields),
        CommandName::Clear => clear(fields),
        CommandName::Preempt => preempt(fields),
        CommandName::Keys => no_field(fields, PrCommand::Keys),
        CommandName::Holder => no_field(fields, PrCommand::Holder),
        CommandName::Read => no_field(fields, PrCommand::Read),
        CommandName::Write => write(fields),
        CommandName::Word => no_field(fields, PrCommand::Word),
        CommandName::Swap => swap(fields),
    }
}

fn no_field(fields: &[&[u8]], command: PrCommand) -> Result<PrCommand, Kind>
    requires { IsAllowed command }
    ensures reading { result ≡ alone (map (λ w. w.now) fields.now) command }
    ensures allowed { IfOk result IsAllowed }
{
    match fields {
        [] => Ok(command),
        _ => Err(Kind::Line),
    }
}

fn register(fields: &[&[u8]]) -> Result<PrCommand, Kind>
    ensures reading { result ≡ two_keys (map (λ w. w.now) fields.now) made.Register }
    ensures allowed { IfOk result IsAllowed }
{
    let [shown, new] = fields else {
        return Err(Kind::Line);
    };
    match (key(shown), key(new)) {
        (Some(key), Some(new)) => Ok(PrCommand::Register { key, new }),
        _ => Err(Kind::Line),
    }
}

fn ignore(fields: &[&[u8]]) -> Result<PrCommand, Kind>
    ensures reading { result ≡ one_key (map (λ w. w.now) fields.now) made.Ignore }
    ensures allowed { IfOk result IsAllowed }
{
    let [new] = fields else {
        return Err(Kind::Line);
    };
    match key(new) {
        Some(new) => Ok(PrCommand::Ignore { new }),
        None => Err(Kind::Line),
    }
}

fn clear(fields: &[&[u8]]) -> Result<PrCommand, Kind>
    ensures reading { result ≡ one_key (map (λ w. w.now) fields.now) made.Clear }
    ensures allowed { IfOk result IsAllowed }
{
    let [shown] = fields else {
        return Err(Kind::Line);
    };
    match key(shown) {
        Some(key) => Ok(PrCommand::Clear { key }),
        None => Err(Kind::Line),
    }
}

fn reserve(fields: &[&[u8]]) -> Result<PrCommand, Kind>
    ensures reading { result ≡ kind_and_key (map (λ w. w.now) fields.now) made.Reserve }
    ensures allowed { IfOk result IsAllowed }
{
    let [number, shown] = fields else {
        return Err(Kind::Line);
    };
    match (decimal(number), key(shown)) {
        (Some(number), Some(key)) => match kind(number) {
            Some(kind) => Ok(PrCommand::Reserve { kind, key }),
            None => Err(Kind::Number),
        },
        _ => Err(Kind::Line),
    }
}

fn release(fields: &[&[u8]]) -> Result<PrCommand, Kind>
    ensures reading { result ≡ kind_and_key (map (λ w. w.now) fields.now) made.Release }
    ensures allowed { IfOk result IsAllowed }
{
    let [number, shown] = fields else {
        return Err(Kind::Line);
    };
    match (decimal(number), key(shown)) {
        (Some(number), Some(key)) => match kind(number) {
            Some(kind) => Ok(PrCommand::Release { kind, key }),
            None => Err(Kind::Number),
        },
        _ => Err(Kind::Line),
    }
}

fn preempt(fields: &[&[u8]]) -> Result<PrCommand, Kind>
    ensures reading { result ≡ kind_key_and_victim (map (λ w. w.now) fields.now) }
    ensures allowed { IfOk result IsAllowed }
{
    let [number, shown, victim] = fields else {
        return Err(Kind::Line);
    };
    let (Some(number), Some(key), Some(victim)) = (decimal(number), key(shown), key(victim)) else {
        return Err(Kind::Line);
    };
    if victim == 0 || victim == key {
        return Err(Kind::Line);
    }
    match kind(number) {
        Some(kind) => Ok(PrCommand::Preempt { kind, key, victim }),
        None => Err(Kind::Number),
    }
}

fn write(fields: &[&[u8]]) -> Result<PrCommand, Kind>
    ensures reading { result ≡ one_number (map (λ w. w.now) fields.now) made.Write }
    ensures allowed { IfOk result IsAllowed }
{
    let [value] = fields else {
        return Err(Kind::Line);
    };
    match decimal(value) {
        Some(Numeral::Within(value)) => Ok(PrCommand::Write { value }),
        Some(Numeral::Beyond) => Err(Kind::Number),
        None => Err(Kind::Line),
    }
}

fn swap(fields: &[&[u8]]) -> Result<PrCommand, Kind>
    ensures reading { result ≡ two_numbers (map (λ w. w.now) fields.now) }
    ensures allowed { IfOk result IsAllowed }
{
    let [expect, new] = fields else {
        return Err(Kind::Line);
    };
    match (decimal(expect), decimal(new)) {
        (Some(Numeral::Within(expect)), Some(Numeral::Within(new))) => {
            Ok(PrCommand::Swap { expect, new })
        }
        (Some(_), Some(_)) => Err(Kind::Number),
        _ => Err(Kind::Line),
    }
}

/// The type of this number, if there is one.
fn kind(number: Numeral) -> Option<PrKind>
    ensures { result ≡ kind_of number }
{
    match number {
        Numeral::Within(1) => Some(PrKind::WriteExclusive),
        Numeral::Within(3) => Some(PrKind::ExclusiveAccess),
        Numeral::Within(5) => Some(PrKind::WriteExclusiveRegistrantsOnly),
        Numeral::Within(6) => Some(PrKind::ExclusiveAccessRegistrantsOnly),
        _ => None,
    }
}
