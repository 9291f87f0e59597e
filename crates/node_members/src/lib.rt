//! What a node does with the messages of coordinators.
#![tactic(auto)]

mod collecting;
mod foreign;
mod install;
mod seizing;
mod start;

pub use collecting::collect;
pub use foreign::is_foreign;
pub use install::{ready, take_install};
pub use seizing::{Request, seize, send_seized};
pub use start::take_start;
