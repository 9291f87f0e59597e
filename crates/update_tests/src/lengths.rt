// The length of a record, worked out from its lines.
use ccr_commit::{Entries, Prepared};
use cl_base::{DevSet, NodeSet};
use cmm_member::full_record_length;
use std::alloc::Global;
use std::process::Abort;
use std::test::Fail;

/// The length with these members and valid devices.
fn expect(
    rt: &impl Abort,
    alloc: Global,
    members: u32,
    valid: u16,
    entries: &Entries,
    wanted: u64,
) -> Result<(), Fail> {
    let (members, valid) = (NodeSet::from_bits(members), DevSet::from_bits(valid));
    let length = full_record_length(alloc, members, valid, entries)?;
    assert_eq!(rt; length, wanted);
    Ok(())
}

fn two_updates(rt: &impl Abort, alloc: Global, entries: &mut Entries) -> Result<(), Fail> {
    // 11 + 20 + 1 and 13 + 64 + 1 are the two first lines; rows: 8 + 20 + 2, 9 + 20 + 2, 7 + 3 + 2, 5 + 1 + 2.
    expect(rt, alloc, 0b11, 0b1, entries, 191)?;
    assert_eq!(rt; entries.prepare(1, b"clrg create g 1,2")?, Prepared::Taken);
    // The row of the first update: 8 + 17 + 2.
    expect(rt, alloc, 0b11, 0b1, entries, 218)?;
    assert_eq!(rt; entries.prepare(2, b"clq disable node 2")?, Prepared::Taken);
    // The row of the second: 8 + 18 + 2.
    expect(rt, alloc, 0b11, 0b1, entries, 246)?;
    entries.commit_pending();
    expect(rt, alloc, 0b11, 0b1, entries, 246)?;
    // `none` in the place of `1,2` and of `1`.
    expect(rt, alloc, 0, 0, entries, 250)
}

#[test]
fn a_record_with_two_updates(rt: HostRuntime) -> Result<(), Fail> {
    let alloc = rt.alloc();
    let mut entries = Entries::new(alloc);
    two_updates(&rt, alloc, &mut entries)
}
