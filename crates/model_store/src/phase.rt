//! What a session has in the store: its transaction, and the request that waits.
use backend_trait::Checked;
use outcomes::{ChangeSet, Outcome, Spot};

/// A transaction that is live.
#[derive(Drop)]
pub struct Work {
    /// How many sets were committed at its snapshot.
    pub mark: usize,
    pub own: ChangeSet,
    /// The places that it holds.
    pub held: Vec<Spot>,
    /// For each table, whether it has the lock.
    pub locks: [bool; 256],
}

#[derive(Drop)]
pub enum Phase {
    Absent,
    Open(Work),
    Dead,
}

/// A statement that waits, and what it gives: computed at its post, since what its transaction sees
/// stays until its answer, as does the number from which it draws, whose table it has locked.
#[derive(Drop)]
pub struct Run {
    pub statement: Checked,
    pub outcome: Outcome,
}

/// A request that waits for its answer, with the room that the answer needs.
#[derive(Drop)]
pub enum Waiting {
    Snapshot,
    Run(Run),
    Lock(u8),
    Commit,
    Rollback,
    ReadSerial(u8),
    SetSerial(u8, i64),
}
