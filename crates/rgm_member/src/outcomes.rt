// What the outcome of a method leaves of a resource's flags and marks.
ghost use Rattle.std.specs.Prelude.{◌≡◌};
ghost use Rattle.rgm_member.specs.Outcomes.{after_success, after_failure, is_fatal, is_hard, is_start_failure, is_success, marks_after, starts, stops, takes_away};

use crate::settings::{has_postnet_stop, is_suspended, mode_of};
use ccr_tables::Config;
use cl_base::{FailoverMode, Method, Name, Outcome};
use wire::Marks;

/// The resource's flags and marks after the method ended so: those that the node keeps, and that the
/// president knows once it is told.
pub fn marks_after(c: &Config, r: &Name, method: Method, outcome: Outcome, m: Marks) -> Marks
    ensures value { result ≡ marks_after c.now r.now method outcome m }
{
    if is_success(outcome) {
        after_success(has_postnet_stop(c, r), method, m)
    } else {
        after_failure(is_start_failure(c, r, method, outcome), method, m)
    }
}

/// Whether this is a start failure of the resource's group: PRENET_START or START that did not
/// succeed, under SOFT or HARD, in a group that is not suspended.
pub fn is_start_failure(c: &Config, r: &Name, method: Method, outcome: Outcome) -> bool
    ensures value { result ≡ is_start_failure c.now r.now method outcome }
{
    !is_success(outcome) && starts(method) && takes_away(mode_of(c, r)) && !is_suspended(c, r)
}

/// Whether the node panics of it: MONITOR_STOP, STOP or POSTNET_STOP that did not succeed, under HARD.
pub fn is_fatal(c: &Config, r: &Name, method: Method, outcome: Outcome) -> bool
    ensures value { result ≡ is_fatal c.now r.now method outcome }
{
    !is_success(outcome) && stops(method) && is_hard(mode_of(c, r))
}

fn is_success(outcome: Outcome) -> bool
    ensures { result ≡ is_success outcome }
{
    match outcome {
        Outcome::Success => true,
        Outcome::Failure | Outcome::Timeout => false,
    }
}

fn starts(method: Method) -> bool
    ensures { result ≡ starts method }
{
    match method {
        Method::PrenetStart | Method::Start => true,
        _ => false,
    }
}

fn stops(method: Method) -> bool
    ensures { result ≡ stops method }
{
    match method {
        Method::MonitorStop | Method::Stop | Method::PostnetStop => true,
        _ => false,
    }
}

fn is_hard(mode: FailoverMode) -> bool
    ensures { result ≡ is_hard mode }
{
    match mode {
        FailoverMode::Hard => true,
        FailoverMode::None
        | FailoverMode::Soft
        | FailoverMode::RestartOnly
        | FailoverMode::LogOnly => false,
    }
}

fn takes_away(mode: FailoverMode) -> bool
    ensures { result ≡ takes_away mode }
{
    match mode {
        FailoverMode::Soft | FailoverMode::Hard => true,
        FailoverMode::None | FailoverMode::RestartOnly | FailoverMode::LogOnly => false,
    }
}

fn after_success(postnet: bool, method: Method, m: Marks) -> Marks
    ensures { result ≡ after_success postnet method m }
{
    match method {
        Method::PrenetStart => Marks { pre: true, ..m },
        Method::Start => Marks {
            run: true,
            faulted: false,
            monitor_failed: false,
            ..m
        },
        Method::MonitorStart => Marks { mon: true, ..m },
        Method::MonitorStop => Marks { mon: false, ..m },
        Method::Stop => Marks {
            run: false,
            pre: m.pre && postnet,
            ..m
        },
        Method::PostnetStop => Marks { pre: false, ..m },
        _ => m,
    }
}

fn after_failure(charged: bool, method: Method, m: Marks) -> Marks
    ensures { result ≡ after_failure charged method m }
{
    match method {
        Method::PrenetStart | Method::Start => Marks {
            faulted: m.faulted || !charged,
            ..m
        },
        Method::MonitorStart => Marks {
            monitor_failed: true,
            ..m
        },
        Method::MonitorStop | Method::Stop | Method::PostnetStop => Marks {
            stop_failed: true,
            ..m
        },
        _ => m,
    }
}
