use cl_base::{Method, Name, NodeId, Outcome};

/// How the next such call of a method ends.
#[derive(Clone, Copy, Debug)]
pub struct Scripted {
    /// The node on which it is called.
    pub node: NodeId,
    /// The resource.
    pub resource: Name,
    /// The method.
    pub method: Method,
    /// How it ends.
    pub outcome: Outcome,
}
