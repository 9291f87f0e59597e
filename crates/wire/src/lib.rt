//! The messages between nodes, and the one spelling in bytes that each of them has.
#![tactic(auto)]

mod codes;
mod copying;
mod decoding;
mod encoding;
mod epochs;
mod item;
mod laws;
mod limits;
mod lists;
mod message;
mod reader;
mod report;
mod stop;
mod writer;

pub use copying::{copy_install, copy_pending, copy_promise, copy_ready, copy_texts};
pub use decoding::decode;
pub use encoding::{encode, encode_body};
pub use laws::{spellings_are_apart, spellings_have_their_length};
pub use lists::{Keys, Reading, Readings, Texts};
pub use message::{Body, Install, Message, Order, SeizedResult};
pub use report::{
    GroupReport, GroupReports, LastFailures, Marks, Report, ResourceReport, ResourceReports,
};
