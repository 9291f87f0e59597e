//! A node of the cluster by its states: down, forming, member, or halted after a panic. Each is a
//! type whose transitions consume it, so that only a member writes and prepares.
#![tactic(auto)]

mod down;
mod entry_list;
mod error;
mod forming;
mod halted;
mod joining;
mod laws;
mod lengths;
mod member;
mod numbers;
mod reading;
mod rows;
mod running;

pub use down::DownNode;
pub use entry_list::entries_from;
pub use error::{InstallError, NotHeld};
pub use forming::{FormingNode, Installed, Started};
pub use halted::HaltedNode;
pub use laws::{
    install_decides, no_record_is_longer, own_key_by_its_lower_half, record_is_read_back,
    records_have_their_length, rows_are_a_table,
};
pub use lengths::full_record_length;
pub use member::MemberNode;
pub use rows::record_rows;
pub use running::Record;
