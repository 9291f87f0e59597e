use cl_base::{FailoverMode, History, Seconds};
use restart_policy::{ProbeAction, ProbeRule, moved, on_probe, start_failures};
use std::alloc::Global;
use std::process::Abort;
use std::test::Fail;

fn history(alloc: Global) -> Result<History, Fail> {
    Ok(History {
        failures: Seconds::new(vec![in alloc; 100, 200, 900]?),
        moves: Seconds::new(vec![in alloc; 400]?),
        restarts: Seconds::new(vec![in alloc; 700, 800]?),
    })
}

/// What a failed probe leads to at the second, where two restarts may be within 300 seconds.
fn expect(
    rt: &impl Abort,
    h: &History,
    mode: FailoverMode,
    suspended: bool,
    now: u64,
    wanted: ProbeAction,
) {
    let rule = ProbeRule {
        suspended,
        mode,
        count: 2,
        interval: 300,
    };
    assert!(rt; on_probe(rule, h, now) == wanted);
}

fn probe(rt: &impl Abort, h: &History) {
    let logged = ProbeAction::Logged;
    expect(rt, h, FailoverMode::Soft, false, 999, ProbeAction::Move);
    expect(rt, h, FailoverMode::Soft, false, 1000, ProbeAction::Restart);
    expect(rt, h, FailoverMode::RestartOnly, false, 999, logged);
    expect(
        rt,
        h,
        FailoverMode::RestartOnly,
        false,
        1000,
        ProbeAction::Restart,
    );
    expect(rt, h, FailoverMode::LogOnly, false, 1000, logged);
    expect(rt, h, FailoverMode::Soft, true, 1000, logged);
}

#[test]
fn restarts_then_moves(rt: HostRuntime) -> Result<(), Fail> {
    let h = history(rt.alloc())?;
    probe(&rt, &h);
    Ok(())
}

fn count(rt: &impl Abort, h: &History) {
    assert!(rt; start_failures(h, 100, 299) == 2);
    assert!(rt; start_failures(h, 100, 300) == 1);
    assert!(rt; start_failures(h, 0, 50) == 0);
    assert!(rt; moved(h, 50, 449));
    assert!(rt; !moved(h, 50, 450));
}

#[test]
fn counts_recent_seconds(rt: HostRuntime) -> Result<(), Fail> {
    let h = history(rt.alloc())?;
    count(&rt, &h);
    Ok(())
}
