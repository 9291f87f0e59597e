use cl_base::{Bytes, Items};

/// A row of a table. In a text the key has 1 to 80 bytes and the value at most 65,535, neither
/// with a tab or a newline.
#[derive(Debug, Drop)]
pub struct Row {
    /// What the row is named by.
    pub key: Bytes,
    /// What it keeps.
    pub value: Bytes,
}

/// Rows in order.
pub type TableRows = Items<Row>;
