//! The lines of a schedule: its header, and the lines after it, read word by word. Each line has
//! one reading, or the first kind of refusal that fits.
#![tactic(auto)]

mod choice;
mod cluster_header;
mod command_name;
mod command_words;
mod event;
mod event_name;
mod event_words;
mod field;
mod header;
mod kind;
mod line;
mod method_name;
mod number;
mod numbers;
mod pr_reading;
mod reading;
mod version;

pub use event::{Event, StopChoice};
pub use header::{Head, HeaderReader, HeaderState};
pub use kind::{Kind, ReadError};
pub use line::{ClusterLine, Line, PrLine, SoFar};
pub use number::{Numeral, decimal};
pub use pr_reading::read_pr_line;
pub use reading::{read_cluster_line, read_line};
