//! What coordinators and members do alike: they show their record, install, join devices, report what
//! they keep of groups, become members, and end the requests that wait.
#![tactic(auto)]

mod ending;
mod installing;
mod promise;
mod reporting;
mod starting;

pub use ending::end_requests;
pub use installing::{begin_joins, install_in, save_install};
pub use promise::promise_body;
pub use reporting::own_report;
pub use starting::become_member;
