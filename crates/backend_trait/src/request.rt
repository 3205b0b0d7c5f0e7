//! What a session asks of a backend.

use catalogue::Checked;

/// What a session asks of a backend.
#[derive(PartialEq, Eq, Drop)]
pub enum Request {
    /// Begin a transaction on the committed rows as they are at that moment.
    TakeSnapshot,
    /// Run a statement that has neither parameters nor time functions.
    Run(Checked),
    /// Take the lock of a table.
    Lock(u8),
    Commit,
    Rollback,
    /// The next number of a table's serial column.
    ReadSerial(u8),
    SetSerial(u8, i64),
}

/// What became of a request at its post.
#[derive(PartialEq, Eq, Drop)]
pub enum Posted {
    /// It is pending until its answer.
    Accepted,
    /// Memory was refused: the request comes back, and nothing has changed.
    NoMemory(Request),
}
