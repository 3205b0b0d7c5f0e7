//! What is due of a session.

use pool_base::{BackendId, BackendSet};
use session_machine::{Ending, Stage, Work};
use session_orders::Outcome;

/// What is due. The answers that it speaks of are named by their places in the chain.
#[derive(Drop)]
pub enum Due {
    Resting,
    EnterDue(Work),
    LookDue(Stage),
    PostDue(Stage, BackendId),
    Waiting(Stage, BackendId),
    /// The backend was lost: the counts of its faults before and after.
    LostDue(Stage, BackendId, u64, u64),
    /// Answers differ: the places of the kept one and of the one whose backend is to be detached,
    /// the backends among which they were compared, and whether the chain goes on behind it.
    SplitDue {
        stage: Stage,
        best: usize,
        own: usize,
        among: BackendSet,
        more: bool,
    },
    ChooseDue(Work),
    ShowDue,
    LeaveSnapshotDue(Work),
    UnwindDue(Ending),
    EnterCommitDue,
    LeaveCommitDue(Ending),
    FinishDue(Ending),
    ReplyDue(Outcome),
    /// A reply with the rows of the answer at that place.
    RowsDue(usize),
    EndDue,
}
