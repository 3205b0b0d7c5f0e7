//! What a session is ordered to do.
use catalogue::Checked;
use pool_base::{Boxed, Code, Text};

/// What is ordered.
#[derive(Drop)]
pub enum OrderBody {
    /// A statement without parameters.
    Statement(Boxed<Checked>),
    Begin,
    Commit,
    Rollback,
    /// The end of a client's text or of its pipeline: an implicit transaction commits.
    Settle,
    ShowNodes,
    /// Brings a backend back.
    Recover(u8),
    /// The client was refused before the session was asked: its code, and the name in its text.
    Refuse { code: Code, name: Text },
    /// The client is gone.
    Leave,
}

/// An order with its moment.
///
/// Units: microseconds since 2000-01-01 00:00 UTC.
#[derive(Drop)]
pub struct Order {
    pub moment: i64,
    pub body: OrderBody,
}
