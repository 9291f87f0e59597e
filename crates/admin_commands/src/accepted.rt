use ccr_tables::Update;
use cl_base::{Ask, Query};

/// A command that is accepted.
#[derive(Drop)]
pub enum Accepted {
    /// The configuration is to be changed.
    Change(Update),
    /// The president is to act without an update.
    Act(Ask),
    /// The president is to answer.
    Query(Query),
}
