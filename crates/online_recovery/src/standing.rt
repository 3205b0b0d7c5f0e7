//! Where a recovery stands: what it holds, and what is due of it.
//!
//! ```text
//!  PGPOOL RECOVER ─► LookDue ─► StartDue ─► SwapDue ─► EnterDue ─┐
//!                                                                ▼
//!  stage one   [OpeningSource] ─► LeaveSnapshotDue ─► [OpeningTarget] ─► copy ─► FinishDue ─┐
//!                                                                                           ▼
//!  quiet                                                              AskDue ─► QuietDue ───┤
//!                                                                                           ▼
//!  stage two   [OpeningSource] ─► [OpeningTarget] ─► copy ─► numbers ─► AttachDue ─► Closing
//!
//!  copy:     for each table [Reading] ─► [Emptying] ─► [Filling] ..; [Committing] ─► [Leaving]
//!  numbers:  [OpeningNumbers]; for each table with a serial column
//!            [ReadingSerial] ─► [LockingSerial] ─► [SettingSerial]; [ClosingNumbers]
//!  [task] at the source:  PostDue ─► Waiting ─► ShowDue (a Look) ─► ..
//!                                        └─► LostDue ─► Closing     it was lost
//!  [task] at the target:  PostDue ─► Waiting ─► ..
//!                                        └─► Closing                it was lost
//! ```
//!
//! All transitions are made by the calls of `Recovery`. From every refusal, every loss and a client
//! that leaves the way leads to `Closing`, where what is held is given back, one thing after
//! another: each transaction by its rollback (`Undoing`), then the snapshot, the transaction at the
//! gate, the quiet; then comes the reply, or the end. Stage one is the copy under `Quiet::Copying`,
//! stage two the one under `Quiet::Entered`.
ghost use Rattle.online_recovery.specs.Rules;
ghost use Rattle.std.specs.Prelude.{◌≡◌};
ghost use Rattle.online_recovery.specs.State.{no_backend_yet, new_standing};

use crate::layout::Layout;
use backend_trait::Answer;
use pool_base::{BackendId, BackendSet, Code, List, SessionId, View};
use sql_eval::Row;
use std::mem;

/// What the gate has granted this recovery of its quiet.
#[derive(Clone, Copy)]
pub enum Quiet {
    Open,
    /// StartCopy.
    Copying,
    /// AskQuiet: no new snapshots.
    Asked,
    /// EnterQuiet: neither a snapshot nor a transaction.
    Entered,
}

/// Where the recovery stands at the gate beside its quiet, by its own granted calls.
#[derive(Clone, Copy)]
pub enum GateStanding {
    Out,
    InSnapshot,
    Live,
}

/// The two backends of a copy.
#[derive(Clone, Copy)]
pub enum Side {
    Source,
    Target,
}

/// One request at the source or the target, and what it is for.
#[derive(Drop)]
pub enum Task {
    OpeningSource,
    OpeningTarget,
    /// The rows of a table.
    Reading(u8),
    /// The rows of a table go, and these are to come.
    Emptying(u8, List<Row>),
    /// One of these rows comes into a table, and so many are left behind it.
    Filling(u8, List<Row>, usize),
    Committing,
    /// The transaction at the source has been read and ends.
    Leaving,
    /// The target's transaction in which numbers are set.
    OpeningNumbers,
    /// The next number of a table.
    ReadingSerial(u8),
    /// The lock of the table whose number is to be set.
    LockingSerial(u8, i64),
    SettingSerial(u8, i64),
    ClosingNumbers,
}

/// What stands at the end.
#[derive(Clone, Copy)]
pub enum Ending {
    /// The target is attached.
    Attached,
    Refused(Code),
    /// The session ends without a reply.
    Leaves,
}

/// What is still to be given back at the end.
#[derive(Clone, Copy)]
pub enum Owed {
    /// A rollback.
    Transaction(Side),
    /// LeaveSnapshot, and then Finish.
    Snapshot,
    /// Finish.
    LiveTransaction,
    /// LeaveQuiet.
    TheQuiet,
    Nothing,
}

/// What is due.
#[derive(Drop)]
pub enum Due {
    Resting,
    /// A Look, and then whether the backend of that number can be recovered.
    LookDue(u8),
    StartDue,
    SwapDue,
    EnterDue,
    PostDue(Task),
    Waiting(Task),
    /// The source has answered: a Look has to show it.
    ShowDue(Task, Answer),
    LeaveSnapshotDue,
    FinishDue,
    AskDue,
    QuietDue,
    AttachDue,
    /// The source was lost: the counts of its faults before and after.
    LostDue(Ending, u64, u64),
    /// What is still held is given back, and then comes the reply or the end.
    Closing(Ending),
    /// A rollback of the end waits for its answer.
    Undoing(Side, Ending),
}

/// What a recovery holds, whatever is due of it.
#[derive(Drop)]
pub struct Held {
    pub id: SessionId,
    pub layout: Layout,
    /// The last view of the gate.
    pub view: View,
    pub quiet: Quiet,
    pub gate: GateStanding,
    /// The tables that were touched when the quiet was entered, as the bits of a number: those that
    /// stage two copies.
    pub touched: u64,
    /// The source of this stage, and whether a transaction is there, live or dead, and each view
    /// since has shown the source.
    pub source: BackendId,
    pub at_source: bool,
    /// The backend that is brought in, and whether a transaction is there, live or dead.
    pub target: BackendId,
    pub at_target: bool,
}

/// Where a recovery stands.
#[derive(Drop)]
pub struct Standing {
    pub held: Held,
    pub due: Due,
}

/// The view of a recovery that has not called the gate.
const NO_VIEW: View = View {
    attached: BackendSet { bits: 0 },
    epoch: 0,
    touched: 0,
    done: 0,
};

/// The backend before one is chosen.
fn no_backend_yet() -> BackendId
    ensures { result ≡ no_backend_yet }
{
    BackendId { number: 0 }
}

impl Standing {
    /// A recovery at rest. It takes no memory.
    pub(crate) fn new(id: SessionId, layout: Layout) -> Standing
        ensures { result ≡ new_standing id layout }
    {
        Standing {
            held: Held {
                id,
                layout,
                view: NO_VIEW,
                quiet: Quiet::Open,
                gate: GateStanding::Out,
                touched: 0,
                source: no_backend_yet(),
                at_source: false,
                target: no_backend_yet(),
                at_target: false,
            },
            due: Due::Resting,
        }
    }

    /// Begins anew.
    pub(crate) fn restart(&mut self)
        ensures { self.new ≡ new_standing self.old.held.id self.old.held.layout }
    {
        self.held.view = NO_VIEW;
        self.held.quiet = Quiet::Open;
        self.held.gate = GateStanding::Out;
        self.held.touched = 0;
        self.held.source = no_backend_yet();
        self.held.at_source = false;
        self.held.target = no_backend_yet();
        self.held.at_target = false;
        self.owe(Due::Resting);
    }

    /// What is due from here on.
    pub(crate) fn owe(&mut self, due: Due)
        ensures { self.new ≡ Rattle.online_recovery.specs.Rules.due self.old.held due }
    {
        drop(mem::replace(&mut self.due, due));
    }

    /// The end, with a code.
    pub(crate) fn refuse(&mut self, code: Code)
        ensures { self.new ≡ Rattle.online_recovery.specs.Rules.refused self.old.held code }
    {
        self.owe(Due::Closing(Ending::Refused(code)));
    }
}
