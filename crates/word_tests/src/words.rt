use admin_words::{Request, WordError, parse, parse_request};
use ccr_tables::AdminCommand;
use cl_base::{Query, Version};
use std::alloc::Global;
use std::process::Abort;
use std::test::Fail;
use update_words::{ask_words, words};

/// What the words are: the canonical words of an update or of an act, the name of a query, or what is
/// wrong with them.
fn told(alloc: Global, version: Version, text: &[u8]) -> Result<Vec<u8>, Fail> {
    match parse(alloc, version, text) {
        Ok(command) => spelled(alloc, &command),
        Err(e) => Ok(wrong(e).to_vec(alloc)?),
    }
}

fn spelled(alloc: Global, command: &AdminCommand) -> Result<Vec<u8>, Fail> {
    match command {
        AdminCommand::Change(u) => Ok(words(alloc, u)?),
        AdminCommand::Act(a) => Ok(ask_words(alloc, a)?),
        AdminCommand::Status(q) => Ok(query(*q).to_vec(alloc)?),
        AdminCommand::Rows(name) => Ok(name.bytes().to_vec(alloc)?),
    }
}

fn query(q: Query) -> &'static [u8] {
    match q {
        Query::GroupStatus => b"groups?",
        Query::ResourceStatus => b"resources?",
        Query::QuorumStatus => b"votes?",
        Query::Rows(_) => b"rows?",
    }
}

fn wrong(e: WordError) -> &'static [u8] {
    match e {
        WordError::UnknownCommand => b"unknown-command",
        WordError::MissingOperand => b"missing-operand",
        WordError::BadValue => b"bad-value",
        WordError::NoMemory => b"no memory",
    }
}

/// The words of what a text asks for, or what is wrong with it.
fn asked(alloc: Global, text: &[u8]) -> Result<Vec<u8>, Fail> {
    match parse_request(alloc, Version::One, text) {
        Ok(Request::Change(u)) => Ok(words(alloc, &u)?),
        Ok(Request::Act(a)) => Ok(ask_words(alloc, &a)?),
        Err(e) => Ok(wrong(e).to_vec(alloc)?),
    }
}

/// The rows of a table; a row is words, a bar, and what they are.
fn expect(rt: &impl Abort, alloc: Global, version: Version, rows: &str) -> Result<(), Fail> {
    for row in rows.split('\n') {
        let (text, wanted) = row.split_once("|").ok_or("a row")?;
        read(rt, alloc, version, text.as_bytes(), wanted.as_bytes())?;
    }
    Ok(())
}

fn read(
    rt: &impl Abort,
    alloc: Global,
    version: Version,
    text: &[u8],
    wanted: &[u8],
) -> Result<(), Fail> {
    let found = told(alloc, version, text)?;
    assert_eq!(rt; found.as_slice(), wanted);
    Ok(())
}

/// The words of each line are canonical: they are read, and written as they are.
fn same(rt: &impl Abort, alloc: Global, lines: &str) -> Result<(), Fail> {
    for line in lines.split('\n') {
        read(rt, alloc, Version::Two, line.as_bytes(), line.as_bytes())?;
    }
    Ok(())
}

/// The same for texts that ask for something.
fn expect_asked(rt: &impl Abort, alloc: Global, rows: &str) -> Result<(), Fail> {
    for row in rows.split('\n') {
        let (text, wanted) = row.split_once("|").ok_or("a row")?;
        request(rt, alloc, text.as_bytes(), wanted.as_bytes())?;
    }
    Ok(())
}

fn request(rt: &impl Abort, alloc: Global, text: &[u8], wanted: &[u8]) -> Result<(), Fail> {
    let found = asked(alloc, text)?;
    assert_eq!(rt; found.as_slice(), wanted);
    Ok(())
}

const GROUPS_AND_TYPES: &str = "clrt register app obedient START,STOP
clrt register app x START,STOP single failover
clrt register app x START,STOP failover
clrt unregister app
clrg create g 3,1,32
clrg delete g
clrg set g Nodelist none,,
clrg manage g
clrg unmanage g
clrg online g
clrg offline g
clrg switch g 2
clrg suspend g
clrg resume g
clrg remaster g
clrg evacuate 32";

const METHODS_IN_ORDER: &str =
    "clrt register app x BOOT,MONITOR_STOP,STOP,START,STOP,MONITOR_START single|clrt register app x START,MONITOR_START,MONITOR_STOP,STOP,BOOT single";

#[test]
fn groups_and_types(rt: HostRuntime) -> Result<(), Fail> {
    same(&rt, rt.alloc(), GROUPS_AND_TYPES)?;
    expect(&rt, rt.alloc(), Version::Two, METHODS_IN_ORDER)
}

const OTHER_COMMANDS: &str = "clrs create r g app
clrs delete r
clrs set r Retry_count 7
clrs enable r
clrs disable r
clrs monitor r
clrs unmonitor r
clrs clear r 1
clq add 16
clq remove 1
clq enable device 2
clq disable device 2
clq enable node 2
clq disable node 32";

const QUERIES: &str = "clrg status|groups?
clrs status|resources?
clq status|votes?
ccr anything|anything";

#[test]
fn other_commands(rt: HostRuntime) -> Result<(), Fail> {
    same(&rt, rt.alloc(), OTHER_COMMANDS)?;
    expect(&rt, rt.alloc(), Version::Two, QUERIES)
}

const SECOND_VERSION: &str = "clnode add 32
clnode remove 1
clnode create-loadlimit 1 mem 1000000 0
clnode delete-loadlimit 1 mem
clsa create a g LB_WEIGHTED
clsa create a g LB_STICKY
clsa create a g STICKY_PORT
clsa delete a
clsa weights a 1000@32,0@1,0@1";

const BAD_IN_THE_SECOND: &str = "clnode create-loadlimit 1 mem 0 1000001|bad-value
clsa create a g STICKY|bad-value
clsa weights a 1001@32|bad-value
clsa weights a 1@33|bad-value";

const FIRST_VERSION: &str = "clnode add 1|unknown-command
clsa delete a|unknown-command
clrg create g 16|clrg create g 16
clrg create g 17|bad-value";

#[test]
fn commands_of_the_second_version(rt: HostRuntime) -> Result<(), Fail> {
    same(&rt, rt.alloc(), SECOND_VERSION)?;
    expect(&rt, rt.alloc(), Version::Two, BAD_IN_THE_SECOND)?;
    expect(&rt, rt.alloc(), Version::One, FIRST_VERSION)
}

const NO_COMMANDS: &str = "|unknown-command
clrg|unknown-command
clrt foo|unknown-command
clrgs status|unknown-command
clq enable|unknown-command
clq enable foo 1|unknown-command
ccr|missing-operand
clq enable node|missing-operand
clq add|missing-operand
clrg create G|missing-operand
clrt register app obedient|missing-operand
clnode create-loadlimit 1 mem 5|missing-operand
clrg status g|bad-value
clrg create G 1|bad-value
clrg create g 1,1|bad-value
clrg create g 33|bad-value
clrg create g 01|bad-value";

#[test]
fn words_that_are_no_command(rt: HostRuntime) -> Result<(), Fail> {
    expect(&rt, rt.alloc(), Version::Two, NO_COMMANDS)
}

const BAD_VALUES: &str = "clrg delete g |bad-value
clq add 17|bad-value
clq add 0|bad-value
ccr types types|bad-value
clrt register app x START,STOP failover single|bad-value
clrt register app x START,STOP single single|bad-value
clrt register app x START|bad-value
clrt register app x STOP|bad-value
clrt register app x START,STOP,MONITOR_START|bad-value
clrt register app x START,STOP,|bad-value
clrt register app x START,STOP,PAUSE|bad-value";

#[test]
fn values_that_are_bad(rt: HostRuntime) -> Result<(), Fail> {
    expect(&rt, rt.alloc(), Version::Two, BAD_VALUES)
}

const REQUESTS: &str = "restart r|restart r
move r|move r
restart|missing-operand
move r s|bad-value
move R|bad-value
clrg online g|clrg online g
clrg evacuate 2|clrg evacuate 2
clrg status|unknown-command
ccr types|unknown-command
clrg|unknown-command
clrg evacuate|missing-operand";

#[test]
fn requests(rt: HostRuntime) -> Result<(), Fail> {
    expect_asked(&rt, rt.alloc(), REQUESTS)
}
