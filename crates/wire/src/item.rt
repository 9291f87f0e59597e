ghost use Rattle.std.specs.Prelude.{◌≡◌, ◌++◌, ◌<◌, ◌^◌, List, ℕ, Option, OnOk, IfSome, length};
ghost use Rattle.std.specs.List.{AllByRecursion};
ghost use Rattle.wire.specs.Reads.{Gives, GivesAs, number_at, text_at, list_at, items_at, at_most_one_at, reading_at, resource_at, failures_at, group_at};
ghost use Rattle.wire.specs.Spelling.{word, text, list, at_most_one, reading, resource_report, group_report, seconds_of, IsShortList, IsShortText, IsShortReading, IsShortResource, IsShortGroup, IsWord, FitsReading, FitsGroup};

use crate::codes::{marks, marks_byte};
use crate::lists::{Keys, Reading};
use crate::reader::Reader;
use crate::report::{GroupReport, LastFailures, ResourceReport};
use crate::stop::Stop;
use crate::writer::Writer;
use cl_base::Bytes;
use std::alloc::{AllocError, Global};

/// What a list in a message holds.
pub trait Item: Drop {
    /// Its bytes.
    ghost spelled: { Self → List ℕ };
    /// Whether its texts and lists are short enough to have a spelling.
    ghost is_short: { Self → Type 0 };
    /// What holds of one that is spelled.
    ghost fits: { Self → Type 0 };
    /// Reading it from the front of bytes.
    ghost read_at: { List ℕ → Option (Self × List ℕ) };

    /// Writes it at the end.
    fn put(&self, writer: &mut Writer) -> Result<(), AllocError>
        requires { is_short self.now }
        ensures spelled { OnOk result (writer.new ≡ writer.old ++ spelled self.now) }
        ensures range { OnOk result (fits self.now) };

    /// Reads it from the front.
    fn take(alloc: Global, reader: &mut Reader<'_>) -> Result<Self, Stop>
        ensures { Gives result (read_at reader.old) reader.new };
}

/// Reads a list of items.
#[tactic(auto, unfolding(crate::specs::Reads::list_at))]
pub fn list<T: Item>(alloc: Global, reader: &mut Reader<'_>) -> Result<Vec<T>, Stop>
    ensures { GivesAs (λ v. v.items) result (list_at T.read_at reader.old) reader.new }
{
    let count = reader.count()?;
    items(alloc, count, reader)
}

/// Reads so many items.
fn items<T: Item>(alloc: Global, count: u16, reader: &mut Reader<'_>) -> Result<Vec<T>, Stop>
    ensures { GivesAs (λ v. v.items) result (items_at T.read_at count reader.old) reader.new }
{
    let mut items = Vec::new(alloc);
    for _ in 0..count {
        items.push(T::take(alloc, reader)?)?;
    }
    Ok(items)
}

/// Reads a list of at most one item.
#[tactic(auto, unfolding(crate::specs::Reads::at_most_one_at))]
pub fn at_most_one<T: Item>(alloc: Global, reader: &mut Reader<'_>) -> Result<Option<T>, Stop>
    ensures { Gives result (at_most_one_at T.read_at reader.old) reader.new }
{
    match reader.count()? {
        0 => Ok(None),
        1 => Ok(Some(T::take(alloc, reader)?)),
        _ => Err(Stop::NoSpelling),
    }
}

/// Writes a list of items.
#[tactic(auto, unfolding(crate::specs::Spelling::list))]
pub fn put_list<T: Item>(writer: &mut Writer, items: &[T]) -> Result<(), AllocError>
    requires { IsShortList T.is_short items.now }
    ensures spelled { OnOk result (writer.new ≡ writer.old ++ list T.spelled items.now) }
    ensures range { OnOk result (IsShortList T.fits items.now) }
{
    writer.count(items.len() as u16)?;
    for item in items {
        item.put(writer)?;
    }
    Ok(())
}

/// Writes a list of at most one item.
#[tactic(auto, unfolding(crate::specs::Spelling::list))]
pub fn put_at_most_one<T: Item>(writer: &mut Writer, item: &Option<T>) -> Result<(), AllocError>
    requires { IfSome item.now T.is_short }
    ensures spelled { OnOk result (writer.new ≡ writer.old ++ at_most_one T.spelled item.now) }
    ensures range { OnOk result (IfSome item.now T.fits) }
{
    match item {
        None => writer.count(0),
        Some(item) => {
            writer.count(1)?;
            item.put(writer)
        }
    }
}

impl Item for u64 {
    ghost spelled = { word };

    ghost is_short = { λ _. Unit {0} };

    ghost fits = { IsWord };

    ghost read_at = { number_at 8 };

    fn put(&self, writer: &mut Writer) -> Result<(), AllocError> {
        writer.number(*self)
    }

    fn take(_: Global, reader: &mut Reader<'_>) -> Result<u64, Stop> {
        reader.number()
    }
}

impl Item for Bytes {
    ghost spelled = { text };

    ghost is_short = { IsShortText };

    ghost fits = { IsShortText };

    ghost read_at = { text_at };

    fn put(&self, writer: &mut Writer) -> Result<(), AllocError> {
        writer.text(self)
    }

    fn take(alloc: Global, reader: &mut Reader<'_>) -> Result<Bytes, Stop> {
        reader.text(alloc)
    }
}

impl Item for Reading {
    ghost spelled = { reading };

    ghost is_short = { IsShortReading };

    ghost fits = { FitsReading };

    ghost read_at = { reading_at };

    fn put(&self, writer: &mut Writer) -> Result<(), AllocError> {
        writer.device(self.device)?;
        writer.node(self.seizer)?;
        put_keys(writer, &self.keys)
    }

    #[tactic(auto, unfolding(crate::specs::Reads::reading_at))]
    fn take(alloc: Global, reader: &mut Reader<'_>) -> Result<Reading, Stop> {
        Ok(Reading {
            device: reader.device()?,
            seizer: reader.node()?,
            keys: Keys::new(list(alloc, reader)?),
        })
    }
}

/// Writes a list of keys.
#[tactic(auto, using(crate::proofs::Short::all_unit))]
pub fn put_keys(writer: &mut Writer, keys: &Keys) -> Result<(), AllocError>
    requires { length keys.now < 2 ^ 16 }
    ensures spelled { OnOk result (writer.new ≡ writer.old ++ list word keys.now) }
    ensures range { OnOk result (IsShortList IsWord keys.now) }
{
    put_list(writer, keys.items())
}

impl Item for ResourceReport {
    ghost spelled = { resource_report };

    ghost is_short = { IsShortResource };

    ghost fits = { IsShortResource };

    ghost read_at = { resource_at };

    fn put(&self, writer: &mut Writer) -> Result<(), AllocError> {
        writer.text(&self.resource)?;
        writer.byte(marks_byte(self.marks))
    }

    #[tactic(auto, unfolding(crate::specs::Reads::resource_at))]
    fn take(alloc: Global, reader: &mut Reader<'_>) -> Result<ResourceReport, Stop> {
        Ok(ResourceReport {
            resource: reader.text(alloc)?,
            marks: marks(reader)?,
        })
    }
}

/// Writes a list of at most two seconds.
#[tactic(auto, unfolding(crate::specs::Spelling::list))]
fn put_failures(writer: &mut Writer, failures: LastFailures) -> Result<(), AllocError>
    ensures spelled { OnOk result (writer.new ≡ writer.old ++ list word (seconds_of failures)) }
    ensures range { OnOk result (AllByRecursion IsWord (seconds_of failures)) }
{
    match failures {
        LastFailures::Never => writer.count(0),
        LastFailures::Once(first) => {
            writer.count(1)?;
            writer.number(first)
        }
        LastFailures::Twice(first, second) => {
            writer.count(2)?;
            writer.number(first)?;
            writer.number(second)
        }
    }
}

/// Reads a list of at most two seconds.
#[tactic(auto, unfolding(crate::specs::Reads::failures_at))]
fn failures(reader: &mut Reader<'_>) -> Result<LastFailures, Stop>
    ensures { Gives result (failures_at reader.old) reader.new }
{
    match reader.count()? {
        0 => Ok(LastFailures::Never),
        1 => Ok(LastFailures::Once(reader.number()?)),
        2 => Ok(LastFailures::Twice(reader.number()?, reader.number()?)),
        _ => Err(Stop::NoSpelling),
    }
}

impl Item for GroupReport {
    ghost spelled = { group_report };

    ghost is_short = { IsShortGroup };

    ghost fits = { FitsGroup };

    ghost read_at = { group_at };

    fn put(&self, writer: &mut Writer) -> Result<(), AllocError> {
        writer.text(&self.group)?;
        put_failures(writer, self.failures)?;
        put_at_most_one(writer, &self.moved)
    }

    #[tactic(auto, unfolding(crate::specs::Reads::group_at))]
    fn take(alloc: Global, reader: &mut Reader<'_>) -> Result<GroupReport, Stop> {
        Ok(GroupReport {
            group: reader.text(alloc)?,
            failures: failures(reader)?,
            moved: at_most_one(alloc, reader)?,
        })
    }
}
