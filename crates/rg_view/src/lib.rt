//! What the president of a membership knows of groups: the flags of resources and the histories of
//! groups on nodes, the nodes that are each group's goal, marks, and the orders that are outstanding.
#![tactic(auto)]

mod goals;
mod histories;
mod marks;
mod memory;
mod name_at;
mod orders;
mod states;
mod view;

pub use goals::Goals;
pub use histories::{GroupAt, GroupHistories};
pub use marks::Marks;
pub use memory::NoMemory;
pub use name_at::NameAt;
pub use orders::{Orders, Outstanding};
pub use states::{ResourceAt, ResourceStates};
pub use view::GroupView;
