//! The plain types that every layer of clreplay shares: numbers of nodes and devices, sets of
//! them, epochs, names, lists, methods and their outcomes, the header of a schedule, agents, the
//! names of messages, how seizings end, and what commands ask for and are refused by.
#![tactic(auto)]

mod agent;
mod command;
mod device;
mod device_set;
mod display;
mod epoch;
mod header;
mod history;
mod items;
mod method;
mod method_set;
mod name;
mod node;
mod node_set;
mod number;
mod number_set;
mod numbers;
mod packet;
mod panic;
mod reason;
mod refusal;
mod seizing;
mod state;

pub use agent::{Agent, Call};
pub use command::{Ask, Policy, Query, Table};
pub use device::DevId;
pub use device_set::DevSet;
pub use epoch::Epoch;
pub use header::{DeviceKind, Header, HeaderDevice, HeaderDevices, Version};
pub use history::{FailoverMode, History};
pub use items::{Bytes, Items, Names, Seconds};
pub use method::{Method, Outcome};
pub use method_set::MethodSet;
pub use name::{BadName, Name};
pub use node::NodeId;
pub use node_set::NodeSet;
pub use number::BadNumber;
pub use packet::{DropCause, MessageKind, MessageName};
pub use panic::Panic;
pub use reason::Reason;
pub use refusal::{Refusal, Thing};
pub use seizing::{Lack, Lacking, Obstacle, SeizeEnd};
pub use state::{GroupState, ResourceState};
