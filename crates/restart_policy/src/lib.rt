//! The restart policy: what a failed probe of a monitor leads to, and which start failures and
//! moves still count. Nothing here allocates.
#![tactic(auto)]

mod policy;

pub use policy::{ProbeAction, ProbeRule, is_recent, moved, on_probe, recent, start_failures};
