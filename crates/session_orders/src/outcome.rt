//! What becomes of an order.
use pool_base::{BackendSet, Code, List, Text};
use sql_eval::Row;

/// The tag of a statement that is done, with its count where it has one.
#[derive(Clone, Copy, PartialEq, Eq)]
pub enum Tag {
    Select(u64),
    Insert(u64),
    Update(u64),
    Delete(u64),
    Begin,
    Commit,
    Rollback,
    Show,
    Recover,
}

/// What becomes of an order.
#[derive(Drop)]
pub enum Outcome {
    Rows { rows: List<Row>, tag: Tag },
    /// It is done, with a warning or without.
    Done { tag: Tag, warning: Option<Code> },
    Settled,
    /// The attached backends.
    Nodes(BackendSet),
    /// A refusal: its code, and the name in its text.
    Error { code: Code, name: Text },
}
