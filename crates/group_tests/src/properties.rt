use Step::{Counts, Create, Delete, HasAffinity, HasPlace, HasScope, Manage, SetAffinities};
use cl_base::{FailoverMode, Name, NodeId, Version};
use rg_props::{Affinity, Flag, Group, Groups, Resource, Scope, SetError};
use std::alloc::Global;
use std::process::Abort;
use std::test::Fail;

// A table has a line for each property and answer, and then the values that are so answered.
const UNDER_ONE: &[u8] = b"Nodelist ok 1 16 2,1,16
Nodelist bad-setting 0 17 01 1,1 1, none  a +1
Maximum_primaries ok 1 16
Maximum_primaries bad-setting 0 17 16. 01
Desired_primaries ok 0 1
Desired_primaries bad-setting 2 00
RG_dependencies ok none a,a none,a
RG_dependencies bad-setting g a,g a, A 1a
RG_affinities ok none +a,-b ++t,--t +++a,++b -none
RG_affinities bad-setting a + ++g +++a,+++b ++++a ---a +a,none +-a
Pingpong_interval ok 0 1000000
Pingpong_interval bad-setting 1000001 -1
Failback ok TRUE FALSE
Failback bad-setting true TRUES
Fail bad-property TRUE
Failbacks bad-property TRUE
Priority bad-property 500 x
Load_factors bad-property none x";

const UNDER_TWO: &[u8] = b"Nodelist ok 32 1,17
Nodelist bad-setting 33 18446744073709551617
Maximum_primaries ok 1 32
Maximum_primaries bad-setting 33
Load_factors ok none a@0,b@1000000
Load_factors bad-setting a@1,a@2 a a@ a@1000001 a@1@2 @1
Priority ok 0 1000
Priority bad-setting 1001 01
RG_dependencies ok a,a,a,a,a,a,a,a,a,a,a,a,a,a,a,a,a,a,a,a,a,a,a,a,a,a,a,a,a,a,a,a
RG_dependencies bad-setting a,a,a,a,a,a,a,a,a,a,a,a,a,a,a,a,a,a,a,a,a,a,a,a,a,a,a,a,a,a,a,a,a";

const OF_RESOURCES: &[u8] = b"Resource_dependencies ok none a,b,a g
Resource_dependencies bad-setting r a,r ,a
Resource_dependencies_weak ok none a
Resource_dependencies_weak bad-setting r
Resource_dependencies_offline_restart ok none a
Resource_dependencies_offline_restart bad-setting r
Failover_mode ok NONE SOFT HARD RESTART_ONLY LOG_ONLY
Failover_mode bad-setting none RESTART
Retry_count ok 0 1000
Retry_count bad-setting 1001 02
Retry_interval ok 0 1000000
Retry_interval bad-setting 1000001
Retry bad-property 1
Nodelist bad-property 1";

fn answer_word(error: Option<SetError>) -> &'static [u8] {
    match error {
        None => b"ok",
        Some(SetError::BadProperty) => b"bad-property",
        Some(SetError::BadSetting) => b"bad-setting",
        Some(SetError::NoMemory) => b"no-memory",
    }
}

fn name(letter: u8) -> Result<Name, Fail> {
    Ok(Name::new([letter].as_slice())?)
}

/// The resource in the group, which is made on this node where it is not there.
fn create(groups: &mut Groups, r: u8, g: u8, node: u64) -> Result<(), Fail> {
    let (r, g, nodes) = (name(r)?, name(g)?, [NodeId::new(node)?]);
    if groups.group(&g).is_none() {
        groups.create_group(g, nodes.as_slice())?;
    }
    if groups.resource(&r).is_none() {
        groups.create_resource(r, g, name(b't')?)?;
    }
    Ok(())
}

fn set_group(groups: &mut Groups, property: &[u8], value: &[u8]) -> Result<&'static [u8], Fail> {
    let g = name(b'g')?;
    if groups.group(&g).is_none() {
        return Err(Fail::new("no group"));
    }
    Ok(answer_word(groups.set_group(&g, property, value).err()))
}

fn set_resource(groups: &mut Groups, property: &[u8], value: &[u8]) -> Result<&'static [u8], Fail> {
    let r = name(b'r')?;
    if groups.resource(&r).is_none() {
        return Err(Fail::new("no resource"));
    }
    Ok(answer_word(groups.set_resource(&r, property, value).err()))
}

/// The group `g` of node 1 with a resource `r`, of which one has the property set.
fn set(
    groups: &mut Groups,
    is_group: bool,
    property: &[u8],
    value: &[u8],
) -> Result<&'static [u8], Fail> {
    create(groups, b'r', b'g', 1)?;
    if is_group {
        set_group(groups, property, value)
    } else {
        set_resource(groups, property, value)
    }
}

fn answer(
    alloc: Global,
    version: Version,
    is_group: bool,
    property: &[u8],
    value: &[u8],
) -> Result<&'static [u8], Fail> {
    let mut groups = Groups::new(alloc, version);
    set(&mut groups, is_group, property, value)
}

fn check_values(
    rt: &impl Abort,
    alloc: Global,
    version: Version,
    is_group: bool,
    words: &[&[u8]],
) -> Result<(), Fail> {
    let [property, wanted, values @ ..] = words else {
        return Err(Fail::new("no line of a table"));
    };
    for value in values {
        let answer = answer(alloc, version, is_group, property, value)?;
        assert!(rt; answer == *wanted);
    }
    Ok(())
}

fn check_line(
    rt: &impl Abort,
    alloc: Global,
    version: Version,
    is_group: bool,
    line: &[u8],
) -> Result<(), Fail> {
    let words: Vec<&[u8]> = line.split(|b| *b == b' ').collect(alloc)?;
    check_values(rt, alloc, version, is_group, &words)
}

fn check_table(
    rt: &impl Abort,
    alloc: Global,
    version: Version,
    is_group: bool,
    table: &[u8],
) -> Result<(), Fail> {
    for line in table.split(|b| *b == b'\n') {
        check_line(rt, alloc, version, is_group, line)?;
    }
    Ok(())
}

#[test]
fn properties_have_their_values(rt: HostRuntime) -> Result<(), Fail> {
    check_table(&rt, rt.alloc(), Version::One, true, UNDER_ONE)?;
    check_table(&rt, rt.alloc(), Version::Two, true, UNDER_TWO)?;
    check_table(&rt, rt.alloc(), Version::One, false, OF_RESOURCES)
}

fn check_new_group(rt: &impl Abort, g: &Group) {
    let first = g.nodelist.items().first().map(|n| n.number());
    assert_eq!(rt; first, Some(1));
    assert_eq!(rt;
        (g.maximum, g.desired, g.pingpong, g.priority),
        (1, 1, 3600, 500)
    );
    assert!(rt; !(g.failback || g.managed || g.wanted || g.suspended));
}

fn check_new_resource(rt: &impl Abort, r: &Resource) {
    assert!(rt; r.enabled && r.monitored);
    assert_eq!(rt;
        (r.mode, r.retry_count, r.retry_interval),
        (FailoverMode::None, 2, 300)
    );
}

fn check_new_ones(rt: &impl Abort, groups: &mut Groups) -> Result<(), Fail> {
    create(groups, b'r', b'g', 1)?;
    match (groups.group_at(0), groups.resource_at(0)) {
        (Some((_, group)), Some((_, resource))) => {
            check_new_group(rt, group);
            check_new_resource(rt, resource);
            Ok(())
        }
        _ => Err(Fail::new("not there")),
    }
}

#[test]
fn new_ones_have_defaults(rt: HostRuntime) -> Result<(), Fail> {
    let mut groups = Groups::new(rt.alloc(), Version::Two);
    check_new_ones(&rt, &mut groups)
}

/// What is done with groups, or holds of them. Groups and resources have names of one letter.
#[derive(Clone, Copy)]
enum Step {
    /// The resource and its group come, on this node.
    Create(u8, u8, u64),
    /// The group is managed then.
    Manage(u8),
    /// The group goes.
    Delete(u8),
    /// The place of the group.
    HasPlace(u8, Option<usize>),
    /// How many groups there are.
    Counts(usize),
    /// The group `g` gets two affinities to `h`.
    SetAffinities,
    /// Between the resources.
    HasScope(u8, u8, Scope),
    /// Between the groups.
    HasAffinity(u8, u8, Option<Affinity>),
}

fn manage(groups: &mut Groups, g: u8) -> Result<bool, Fail> {
    let g = name(g)?;
    if groups.group(&g).is_some() {
        groups.set_flag(&g, Flag::Managed, true);
    }
    Ok(groups.group(&g).map(|g| g.managed) == Some(true))
}

fn delete(groups: &mut Groups, g: u8) -> Result<bool, Fail> {
    let g = name(g)?;
    if groups.group(&g).is_some() {
        groups.delete_group(&g);
    }
    Ok(true)
}

fn has_place(groups: &Groups, g: u8, wanted: Option<usize>) -> Result<bool, Fail> {
    Ok(groups.group_place(&name(g)?) == wanted)
}

fn has_scope(groups: &Groups, r: u8, s: u8, wanted: Scope) -> Result<bool, Fail> {
    let (r, s) = (name(r)?, name(s)?);
    if groups.resource(&r).is_some() && groups.resource(&s).is_some() {
        Ok(groups.scope(&r, &s) == wanted)
    } else {
        Ok(false)
    }
}

fn has_affinity(groups: &Groups, g: u8, h: u8, wanted: Option<Affinity>) -> Result<bool, Fail> {
    let (g, h) = (name(g)?, name(h)?);
    if groups.group(&g).is_some() {
        Ok(groups.affinity(&g, &h) == wanted)
    } else {
        Ok(false)
    }
}

fn set_affinities(groups: &mut Groups) -> Result<bool, Fail> {
    Ok(set_group(groups, b"RG_affinities", b"-h,+++h")? == b"ok".as_slice())
}

/// Whether what the step says is so.
fn holds(groups: &mut Groups, step: Step) -> Result<bool, Fail> {
    match step {
        Create(r, g, node) => {
            create(groups, r, g, node)?;
            Ok(true)
        }
        Manage(g) => manage(groups, g),
        Delete(g) => delete(groups, g),
        HasPlace(g, place) => has_place(groups, g, place),
        Counts(count) => Ok(groups.group_count() == count),
        SetAffinities => set_affinities(groups),
        HasScope(r, s, scope) => has_scope(groups, r, s, scope),
        HasAffinity(g, h, affinity) => has_affinity(groups, g, h, affinity),
    }
}

fn take_all(rt: &impl Abort, groups: &mut Groups, steps: &[Step]) -> Result<(), Fail> {
    for place in 0..steps.len() {
        let holds = holds(groups, steps[place])?;
        assert!(rt; holds, "step {place}");
    }
    Ok(())
}

/// The steps hold, one after the other.
fn expect(rt: &impl Abort, alloc: Global, version: Version, steps: &[Step]) -> Result<(), Fail> {
    let mut groups = Groups::new(alloc, version);
    take_all(rt, &mut groups, steps)
}

const PLACES: &[Step] = &[
    Create(b'r', b'g', 1),
    Create(b'a', b'a', 2),
    Manage(b'a'),
    HasPlace(b'a', Some(1)),
    Delete(b'g'),
    HasPlace(b'g', None),
    HasPlace(b'a', Some(0)),
    Counts(1),
];

#[test]
fn order_is_that_of_creation(rt: HostRuntime) -> Result<(), Fail> {
    expect(&rt, rt.alloc(), Version::Two, PLACES)
}

const SCOPES: &[Step] = &[
    Create(b'r', b'g', 1),
    Create(b's', b'h', 2),
    HasScope(b'r', b's', Scope::AnyMember),
    HasAffinity(b'g', b'h', None),
    SetAffinities,
    HasScope(b'r', b's', Scope::SameNode),
    HasScope(b's', b'r', Scope::AnyMember),
    HasAffinity(b'g', b'h', Some(Affinity::Minus)),
];

#[test]
fn affinities_give_the_scope(rt: HostRuntime) -> Result<(), Fail> {
    expect(&rt, rt.alloc(), Version::One, SCOPES)
}
