ghost use Rattle.std.specs.Prelude.{◌≡◌};
ghost use Rattle.restart_policy.specs.Policy.{is_recent, recent_of, action_of, failures_of, has_moved};

use cl_base::{FailoverMode, History};

/// By what a failed probe is judged.
#[derive(Clone, Copy, Debug, PartialEq, Eq)]
pub struct ProbeRule {
    /// Whether the group's automatic recovery is suspended.
    pub suspended: bool,
    /// The resource's Failover_mode.
    pub mode: FailoverMode,
    /// Its Retry_count: so many restarts are tried within the interval.
    pub count: u64,
    /// Its Retry_interval, in seconds.
    pub interval: u64,
}

/// What a failed probe leads to.
#[derive(Clone, Copy, Debug, PartialEq, Eq)]
pub enum ProbeAction {
    /// The resource is restarted where it is.
    Restart,
    /// Its group leaves the node.
    Move,
    /// The failure is logged alone.
    Logged,
}

/// What a failed probe of a resource with a running monitor leads to at the second `now`. Of the
/// history only the restarts count; a second above `now` counts as `now`.
pub fn on_probe(rule: ProbeRule, h: &History, now: u64) -> ProbeAction
    ensures value { result ≡ action_of rule h.now now }
{
    if rule.suspended || rule.mode == FailoverMode::LogOnly {
        return ProbeAction::Logged;
    }
    if recent(h.restarts.items(), rule.interval, now) < rule.count {
        return ProbeAction::Restart;
    }
    match rule.mode {
        FailoverMode::None | FailoverMode::Soft | FailoverMode::Hard => ProbeAction::Move,
        FailoverMode::RestartOnly | FailoverMode::LogOnly => ProbeAction::Logged,
    }
}

/// How many start failures lie less than `interval` seconds back at the second `now`. A second
/// above `now` counts as `now`.
pub fn start_failures(h: &History, interval: u64, now: u64) -> u64
    ensures value { result ≡ failures_of h.now interval now }
{
    recent(h.failures.items(), interval, now)
}

/// Whether a move lies less than `interval` seconds back at the second `now`. A second above `now`
/// counts as `now`.
pub fn moved(h: &History, interval: u64, now: u64) -> bool
    ensures value { result ≡ has_moved h.now interval now }
{
    h.moves
        .items()
        .iter()
        .any(|second| is_recent(*second, interval, now))
}

/// How many of the seconds lie less than `interval` seconds before `now`, or above `now`.
pub fn recent(seconds: &[u64], interval: u64, now: u64) -> u64
    ensures value { result ≡ recent_of seconds.now interval now }
{
    seconds
        .iter()
        .filter(|second| is_recent(**second, interval, now))
        .count() as u64
}

/// Whether the second lies less than `interval` seconds before `now`, or above `now`.
pub fn is_recent(second: u64, interval: u64, now: u64) -> bool
    ensures value { result ≡ is_recent interval now second }
{
    now.saturating_sub(second) < interval
}
