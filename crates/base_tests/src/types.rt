use cl_base::{Method, MethodSet, Name};
use rt_types::{ResourceType, TypeError, Types};
use std::process::Abort;
use std::test::Fail;

fn methods(first: Method, second: Method) -> MethodSet {
    MethodSet::empty().with(first).with(second)
}

/// What is wrong with a type of these methods.
fn expect(rt: &impl Abort, agent: Name, methods: MethodSet, wanted: Option<TypeError>) {
    assert!(rt; ResourceType::new(agent, methods, true, false).err() == wanted);
}

#[test]
fn refuses_missing_methods(rt: HostRuntime) -> Result<(), Fail> {
    let agent = Name::new(b"obedient")?;
    let both = methods(Method::Start, Method::Stop);
    let without_start = methods(Method::Boot, Method::Fini);
    let without_stop = methods(Method::Start, Method::Fini);
    let pair = Some(TypeError::MonitorPair);
    expect(&rt, agent, both, None);
    expect(&rt, agent, without_start, Some(TypeError::NoStart));
    expect(&rt, agent, without_stop, Some(TypeError::NoStop));
    expect(&rt, agent, both.with(Method::MonitorStart), pair);
    expect(&rt, agent, both.with(Method::MonitorStop), pair);
    Ok(())
}

fn is_first(types: &Types, name: &Name, t: &ResourceType) -> bool {
    types.at(0) == Some((name, t))
}

fn register(rt: &impl Abort, types: &mut Types, name: Name, t: ResourceType) -> Result<(), Fail> {
    assert!(rt; types.resource_type(&name).is_none());
    Ok(types.register(name, t)?)
}

fn unregister(rt: &impl Abort, types: &mut Types, name: &Name) {
    assert!(rt; types.resource_type(name).is_some());
    types.unregister(name);
}

fn keep(rt: &impl Abort, types: &mut Types, t: ResourceType) -> Result<(), Fail> {
    let (web, db) = (Name::new(b"web")?, Name::new(b"db")?);
    register(rt, types, web, t)?;
    register(rt, types, db, t)?;
    assert!(rt; is_first(types, &web, &t));
    unregister(rt, types, &web);
    assert!(rt; is_first(types, &db, &t));
    assert!(rt; types.len() == 1);
    Ok(())
}

#[test]
fn keeps_order_of_creation(rt: HostRuntime) -> Result<(), Fail> {
    let both = methods(Method::Start, Method::Stop);
    let t = ResourceType::new(Name::new(b"obedient")?, both, true, false)?;
    let mut types = Types::new(rt.alloc());
    keep(&rt, &mut types, t)
}
