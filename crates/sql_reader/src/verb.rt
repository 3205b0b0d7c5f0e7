//! The words that begin a statement.

/// A word that begins a statement.
#[derive(Clone, Copy, PartialEq, Eq)]
pub enum Verb {
    /// SELECT
    Select,
    /// INSERT
    Insert,
    /// UPDATE
    Update,
    /// DELETE
    Delete,
    /// BEGIN
    Begin,
    /// START
    Start,
    /// COMMIT
    Commit,
    /// END
    End,
    /// ROLLBACK
    Rollback,
    /// ABORT
    Abort,
    /// SHOW
    Show,
    /// The name `pgpool`.
    Pgpool,
}
