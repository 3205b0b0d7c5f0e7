//! The state of a session: what it holds, and what is due of it.
//!
//! ```text
//!  an order ─► Resting ──► EnterDue ──► [Opening] ──► LeaveSnapshotDue ──┐
//!                 ▲ │                                                    ▼
//!                 │ ├─── a live transaction ──► ChooseDue ─► [Reading], [Running],
//!                 │ │                              [Locking] ─► [Inserting]
//!                 │ ├─── COMMIT ──► EnterCommitDue ─► [Committing] ─► LeaveCommitDue
//!                 │ ├─── COMMIT without changes ──► [Closing] ──► FinishDue
//!                 │ └─── a refusal, ROLLBACK ──► [RollingBack] ─► (UnwindDue) ─► FinishDue
//!              ReplyDue ◄── each of these ──► EndDue (the client is gone)
//!
//!  [stage]:  LookDue ─► PostDue ─► Waiting ─► LookDue ..   one request down the backends
//!                                     └─► LostDue ─► LookDue     a backend was lost
//!            LookDue ─► SplitDue ─► ..                           answers differ
//! ```
//!
//! All transitions are made by `after`. From each Look that shows no backend the way leads through
//! what is due at the gate to the reply 57P03, or, from an entered commit, to the end.
ghost use Rattle.std.specs.Prelude.{◌≡◌};
ghost use Rattle.session_machine.specs.Rules.{new_machine};

use crate::status::Status;
use crate::work::Work;
use backend_trait::Answer;
use pool_base::{BackendId, BackendSet, List, SessionId, View};
use session_orders::Outcome;
use std::alloc::Global;

/// How the backend of a read is chosen: a weight for each backend by its number, whether reads are
/// balanced, and whether each statement has its own ticket.
#[derive(Clone, Copy)]
pub struct ReadPolicy {
    pub weights: [u32; 8],
    pub balance: bool,
    pub per_statement: bool,
}

/// Where the session stands at the gate, by its own granted calls.
#[derive(Clone, Copy)]
pub enum GatePhase {
    Out,
    /// LeaveSnapshot and then Finish are due at the end.
    InSnapshot,
    /// Finish is due at the end: whether a write has succeeded, and the tables of those that have.
    Live(bool, u64),
    /// LeaveCommit is due at the end.
    InCommit,
}

/// What a backend has answered.
#[derive(Drop)]
pub struct Heard {
    pub b: BackendId,
    pub answer: Answer,
}

/// What stands at the end of an order.
#[derive(Drop)]
pub enum Ending {
    Replies(Outcome),
    /// The session ends without a reply.
    Leaves,
}

/// One request that goes to the backends, and what it is for.
#[derive(Drop)]
pub enum Stage {
    /// The snapshots of a transaction that opens for this statement.
    Opening(Work),
    /// A read at one backend, with its ticket.
    Reading(Work, u64),
    Running(Work),
    /// The lock of the table of a serial insert.
    Locking(Work, u8),
    /// A serial insert that has the lock, and whether it has been posted.
    Inserting(Work, bool),
    /// The commit of changes, entered at the gate.
    Committing,
    /// The commit of a transaction without changes.
    Closing,
    RollingBack(Ending),
}

/// What is due.
#[derive(Drop)]
pub enum Point {
    Resting,
    EnterDue(Work),
    LookDue(Stage),
    PostDue(Stage, BackendId),
    Waiting(Stage, BackendId),
    /// The backend was lost: the counts of its faults before and after.
    LostDue(Stage, BackendId, u64, u64),
    /// Answers differ: the kept one, the one whose backend is to be detached, the backends in whose
    /// view the answers were compared, and whether the chain goes on behind it.
    SplitDue(Stage, Heard, Heard, BackendSet, bool),
    /// A Look, and then the choice of the backend that reads.
    ChooseDue(Work),
    /// A Look, and then the list of the backends.
    ShowDue,
    LeaveSnapshotDue(Work),
    /// LeaveSnapshot, and then the end of a transaction that has run nothing.
    UnwindDue(Ending),
    EnterCommitDue,
    LeaveCommitDue(Ending),
    FinishDue(Ending),
    ReplyDue(Outcome),
    EndDue,
}

/// What a session holds, whatever is due of it.
#[derive(Drop)]
pub struct Session {
    pub id: SessionId,
    pub policy: ReadPolicy,
    pub status: Status,
    /// The moment of its block or of its implicit transaction.
    pub moment: i64,
    pub gate: GatePhase,
    /// The last view of the gate.
    pub view: View,
    /// The answers of the chain, in the order in which they came.
    pub heard: List<Heard>,
    /// How many reads have chosen a backend, modulo 2^32.
    pub reads: u32,
}

/// The machine of one session.
#[derive(Drop)]
pub struct Machine {
    pub session: Session,
    pub point: Point,
}

impl Machine {
    /// A session at its start. It takes no memory.
    pub fn new(alloc: Global, id: SessionId, policy: ReadPolicy) -> Machine
        ensures { result ≡ new_machine id policy }
    {
        let view = View {
            attached: BackendSet::EMPTY,
            epoch: 0,
            touched: 0,
            done: 0,
        };
        Machine {
            session: Session {
                id,
                policy,
                status: Status::Idle,
                moment: 0,
                gate: GatePhase::Out,
                view,
                heard: List::new(alloc),
                reads: 0,
            },
            point: Point::Resting,
        }
    }
}
