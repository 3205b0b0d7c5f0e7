//! Where a session stands, and how its chains begin and its orders end.
ghost use Rattle.std.specs.Prelude.{◌≡◌, IfOk};
ghost use Rattle.session_machine.specs.declared.machine.Point.TheVariants as points;
ghost use Rattle.session_machine.specs.Rules.{new_machine};
ghost use Rattle.session_engine.specs.Meaning.{session_of, machine_of};

use crate::answers::Answers;
use crate::due::Due;
use pool_base::{BackendId, BackendSet, Code, NoMemory, SessionId, Text, View};
use session_machine::{
    Class, Ending, GatePhase, ReadPolicy, Stage, Status, Work, lowest, no_backend,
};
use session_orders::Outcome;
use std::alloc::Global;
use std::mem;

/// The view of a session that has not called the gate.
const NO_VIEW: View = View {
    attached: BackendSet { bits: 0 },
    epoch: 0,
    touched: 0,
    done: 0,
};

/// Where a session stands: what it holds, and what is due of it.
#[derive(Drop)]
pub struct Standing {
    pub id: SessionId,
    pub policy: ReadPolicy,
    pub status: Status,
    /// The moment of its block or of its implicit transaction.
    pub moment: i64,
    pub gate: GatePhase,
    /// The last view of the gate.
    pub view: View,
    pub answers: Answers,
    /// How many reads have chosen a backend, modulo 2^32.
    pub reads: u32,
    pub due: Due,
}

impl Standing {
    ghost use Rattle.session_machine.specs.Rules.{primary, error_of, ended, released, begun, begun_behind, refused, stranded, stranded_in, started};

    pub(crate) fn new(
        alloc: Global,
        id: SessionId,
        policy: ReadPolicy,
    ) -> Result<Standing, NoMemory>
        ensures { IfOk result (λ made. machine_of made ≡ new_machine id policy) }
    {
        Ok(Standing {
            id,
            policy,
            status: Status::Idle,
            moment: 0,
            gate: GatePhase::Out,
            view: NO_VIEW,
            answers: Answers::new(alloc)?,
            reads: 0,
            due: Due::Resting,
        })
    }

    /// Begins anew.
    pub(crate) fn restart(&mut self)
        ensures { machine_of self.new ≡ new_machine self.old.id self.old.policy }
    {
        self.status = Status::Idle;
        self.moment = 0;
        self.gate = GatePhase::Out;
        self.view = NO_VIEW;
        self.answers.clear();
        self.reads = 0;
        self.owe(Due::Resting);
    }

    /// What is due from here on.
    pub(crate) fn owe(&mut self, due: Due)
        ensures { self.new ≡ record self.old { due = due } }
    {
        drop(mem::replace(&mut self.due, due));
    }

    /// Nothing is due.
    pub(crate) fn rest(&mut self)
        ensures { machine_of self.new ≡ Rattle.session_machine.specs.Rules.due
            (session_of self.old) points.Resting }
    {
        self.owe(Due::Resting);
    }

    /// The primary of the last view.
    pub(crate) fn primary(&self) -> Option<BackendId>
        ensures { result ≡ primary (session_of self.now) }
    {
        lowest(self.view.attached)
    }

    /// The refusal of that code, without a name.
    pub(crate) fn error_of(&self, code: Code) -> Outcome
        ensures { result ≡ error_of code }
    {
        let alloc = self.answers.allocator();
        Outcome::Error {
            code,
            name: Text::from_string(String::new(alloc)),
        }
    }

    /// An order ends.
    pub(crate) fn end(&mut self, ending: Ending)
        ensures { machine_of self.new ≡ ended (session_of self.old) ending }
    {
        match ending {
            Ending::Replies(outcome) => self.owe(Due::ReplyDue(outcome)),
            Ending::Leaves => self.owe(Due::EndDue),
        }
    }

    /// What is due at the gate, and then the end of the order.
    pub(crate) fn release(&mut self, ending: Ending)
        ensures { machine_of self.new ≡ released (session_of self.old) self.old.gate ending }
    {
        match self.gate {
            GatePhase::Out => self.end(ending),
            GatePhase::InSnapshot => self.owe(Due::UnwindDue(ending)),
            GatePhase::Live(_, _) => self.owe(Due::FinishDue(ending)),
            GatePhase::InCommit => self.owe(Due::LeaveCommitDue(ending)),
        }
    }

    /// A chain begins with a Look.
    pub(crate) fn begin(&mut self, stage: Stage)
        ensures { machine_of self.new ≡ begun (session_of self.old) stage }
    {
        self.answers.clear();
        self.owe(Due::LookDue(stage));
    }

    /// A chain begins; right behind a Look it needs no other.
    pub(crate) fn begin_behind(&mut self, behind: bool, stage: Stage)
        ensures { machine_of self.new ≡ begun_behind behind (session_of self.old) stage }
    {
        if !behind {
            return self.begin(stage);
        }
        match self.primary() {
            Some(b) => {
                self.answers.clear();
                self.owe(Due::PostDue(stage, b));
            }
            None => self.begin(stage),
        }
    }

    /// A refusal fails the transaction.
    pub(crate) fn refuse(&mut self, behind: bool, outcome: Outcome)
        ensures { machine_of self.new ≡ refused behind (session_of self.old) outcome }
    {
        self.status = self.status.failed();
        match self.gate {
            GatePhase::Out => self.owe(Due::ReplyDue(outcome)),
            GatePhase::InSnapshot | GatePhase::Live(_, _) | GatePhase::InCommit => {
                self.begin_behind(behind, Stage::RollingBack(Ending::Replies(outcome)));
            }
        }
    }

    /// The view shows no attached backend.
    pub(crate) fn strand(&mut self)
        ensures { machine_of self.new ≡ stranded (session_of self.old) }
    {
        self.status = self.status.failed();
        let outcome = self.error_of(no_backend());
        self.release(Ending::Replies(outcome));
    }

    /// The view shows no attached backend, in a chain.
    pub(crate) fn strand_in(&mut self, stage: Stage)
        ensures { machine_of self.new ≡ stranded_in (session_of self.old) stage }
    {
        match stage {
            Stage::Opening(_)
            | Stage::Reading(_, _)
            | Stage::Running(_)
            | Stage::Locking(_, _)
            | Stage::Inserting(_, _)
            | Stage::Closing => self.strand(),
            Stage::Committing => self.owe(Due::LeaveCommitDue(Ending::Leaves)),
            Stage::RollingBack(ending) => self.release(ending),
        }
    }

    /// A statement of a transaction begins.
    pub(crate) fn start(&mut self, work: Work)
        ensures { machine_of self.new ≡ started (session_of self.old) work }
    {
        match work.class {
            Class::Read => {
                self.answers.clear();
                self.owe(Due::ChooseDue(work));
            }
            Class::LockingRead | Class::Write(_) => self.begin(Stage::Running(work)),
            Class::SerialInsert(table) => self.begin(Stage::Locking(work, table)),
        }
    }
}
