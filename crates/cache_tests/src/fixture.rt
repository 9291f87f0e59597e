// A cluster, a node's updates, and what is asked of them.
ghost use Rattle.std.specs.Prelude.{◌≤◌, length, IfOk};
ghost use Rattle.cl_base.specs.Limits.{most_devices};

use ccr_commit::{Entries, Prepared};
use ccr_tables::Config;
use cl_base::{DeviceKind, Header, HeaderDevice, HeaderDevices, NodeSet, Version};
use config_cache::ConfigCache;
use std::alloc::Global;
use std::process::Abort;
use std::test::Fail;

/// So many nodes, and a quorum device of all of them.
fn header(alloc: Global, nodes: u64) -> Result<Header, Fail>
    requires nodes { nodes ≤ 16 }
    ensures devices { IfOk result (λ h. length h.devices ≤ most_devices) }
{
    let all = NodeSet::first(nodes);
    let device = HeaderDevice {
        kind: DeviceKind::Quorum,
        attached: all,
    };
    Ok(Header {
        version: Version::One,
        cluster: 42,
        nodes,
        configured: all,
        devices: HeaderDevices::new(vec![in alloc; device]?),
    })
}

/// The text of an update.
#[derive(Clone, Copy)]
pub enum Text {
    One,
    Other,
    Gone,
}

fn words(text: Text) -> &'static [u8] {
    match text {
        Text::One => b"clrg create a 1,2",
        Text::Other => b"clrg create b 1,2",
        Text::Gone => b"clrg delete a",
    }
}

/// How many groups there are, and how many votes.
type Counted = (usize, u64);

/// What is done with a node's updates, or asked of them.
#[derive(Clone, Copy)]
pub enum Step {
    /// The text is added at the place, and is pending then.
    Prepare(u64, Text),
    CommitPending,
    /// What there is under the committed updates, and with the pending one.
    Count(Counted, Counted),
    /// Whether the text may come behind them.
    MayFollow(Text, bool),
}

fn told(config: &Config) -> Counted {
    (config.groups().group_count(), config.votes().total())
}

fn counts(
    alloc: Global,
    cache: &mut ConfigCache,
    header: &Header,
    entries: &Entries,
    committed: Counted,
    all: Counted,
) -> Result<bool, Fail>
    requires devices { length header.now.devices ≤ most_devices }
{
    let found = told(cache.committed(alloc, header, entries)?);
    Ok(told(cache.all(alloc, header, entries)?) == all && found == committed)
}

fn holds(
    alloc: Global,
    cache: &mut ConfigCache,
    header: &Header,
    entries: &mut Entries,
    step: Step,
) -> Result<bool, Fail>
    requires devices { length header.now.devices ≤ most_devices }
{
    match step {
        Step::Prepare(place, text) => Ok(entries.prepare(place, words(text))? == Prepared::Taken),
        Step::CommitPending => {
            entries.commit_pending();
            Ok(true)
        }
        Step::Count(committed, all) => counts(alloc, cache, header, entries, committed, all),
        Step::MayFollow(text, wanted) => {
            Ok(cache.may_follow(alloc, header, entries, words(text))? == wanted)
        }
    }
}

fn take_all(
    rt: &impl Abort,
    alloc: Global,
    cache: &mut ConfigCache,
    header: &Header,
    entries: &mut Entries,
    steps: &[Step],
) -> Result<(), Fail>
    requires devices { length header.now.devices ≤ most_devices }
{
    for place in 0..steps.len() {
        let holds = holds(alloc, cache, header, entries, steps[place])?;
        assert!(rt; holds, "step {place}");
    }
    Ok(())
}

fn play(
    rt: &impl Abort,
    alloc: Global,
    cache: &mut ConfigCache,
    header: &Header,
    steps: &[Step],
) -> Result<(), Fail>
    requires devices { length header.now.devices ≤ most_devices }
{
    let mut entries = Entries::new(alloc);
    take_all(rt, alloc, cache, header, &mut entries, steps)
}

/// The steps hold, one after the other, of a list in a cluster of so many nodes.
pub fn expect(
    rt: &impl Abort,
    alloc: Global,
    cache: &mut ConfigCache,
    nodes: u64,
    steps: &[Step],
) -> Result<(), Fail>
    requires nodes { nodes ≤ 16 }
{
    let header = header(alloc, nodes)?;
    play(rt, alloc, cache, &header, steps)
}
