//! A statement with its class and its tables.

use backend_trait::Checked;
use pool_base::Boxed;

/// The verb of a write.
#[derive(Clone, Copy, PartialEq, Eq)]
pub enum Verb {
    Insert,
    Update,
    Delete,
}

/// How a statement is sent to the backends.
#[derive(Clone, Copy, PartialEq, Eq)]
pub enum Class {
    /// One backend answers.
    Read,
    /// A read that holds its rows: it goes down the backends as a write does.
    LockingRead,
    Write(Verb),
    /// An INSERT that draws numbers of that table's serial column.
    SerialInsert(u8),
}

/// A statement with its class, and the tables that it changes as the bits of a number. It is boxed,
/// so that what is handed on at each step is small.
#[derive(Drop)]
pub struct Work {
    pub statement: Boxed<Checked>,
    pub class: Class,
    pub tables: u64,
}
