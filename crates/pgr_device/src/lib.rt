//! A disk that nodes share, with SCSI-3 persistent reservations: who is registered by which key,
//! who holds the reservation, and whose reads and writes the device refuses. Beside them it has a
//! word that is swapped by comparison, and a word of data.
//!
//! The rules are those of SPC-3: its clause 5.6 on persistent reservations, PERSISTENT RESERVE IN
//! (operation code 5Eh, clause 6.11) and PERSISTENT RESERVE OUT (operation code 5Fh, clause 6.12).
#![tactic(auto)]

mod command;
mod device;
mod key_list;
mod kind;
pub mod law;
mod port;
mod registration;
mod run;
mod state;

pub use command::{PrAnswer, PrCommand, Reply};
pub use device::Pgr;
pub use key_list::KeyList;
pub use kind::PrKind;
pub use port::{Failed, Port, PortError, Ports};
pub use registration::{Registration, Reservation};
pub use run::Step;
