//! Where an order leads.
ghost use Rattle.std.specs.Prelude.{◌≡◌, true, IfErr, OnOk, OnErr};
ghost use Rattle.session_engine.specs.Meaning.{heard_in, session_of, machine_of};
ghost use Rattle.session_engine.specs.Dues.{point_of};
ghost use Rattle.session_engine.specs.Sound.{is_statement};

use crate::due::Due;
use crate::standing::Standing;
use pool_base::{BackendId, NoMemory};
use session_machine::{
    Ending, GatePhase, Stage, Status, Work, done_with, in_a_block, moment_out_of_range,
    outside_a_block, rewritten, work_of,
};
use session_orders::{Order, OrderBody, Outcome, Tag};
use std::mem;

impl Standing {
    ghost use Rattle.session_machine.specs.Allowed.{HasItsBit};
    ghost use Rattle.session_machine.specs.Rules.{moment_at, entering, stated_at, block_begun, committing, block_committed, rolled_back, block_rolled_back, settled, leaving, left_in, left_lost, left, ordered};

    /// The moment of the transaction.
    fn moment_at(&self, ordered: i64) -> i64
        ensures { result ≡ moment_at self.now.status self.now.gate self.now.moment ordered }
    {
        match self.status {
            Status::Idle => match self.gate {
                GatePhase::Out => ordered,
                GatePhase::InSnapshot | GatePhase::Live(_, _) | GatePhase::InCommit => self.moment,
            },
            Status::InBlock | Status::Failed => self.moment,
        }
    }

    /// A statement that is rewritten.
    fn enter(&mut self, work: Work)
        ensures { machine_of self.new ≡ entering (session_of self.old) self.old.gate work }
    {
        match self.gate {
            GatePhase::Out => self.owe(Due::EnterDue(work)),
            GatePhase::InSnapshot | GatePhase::Live(_, _) | GatePhase::InCommit => {
                self.start(work);
            }
        }
    }

    /// A statement, with the moment of its transaction.
    #[tactic(auto, unfolding(session_machine::specs::Rules::stated_at))]
    fn state_at(&mut self, moment: i64, work: Work) -> Result<(), NoMemory>
        ensures stated { OnOk result (machine_of self.new
            ≡ stated_at (session_of self.old) moment work) }
        ensures as_before { OnErr result (machine_of self.new ≡ machine_of self.old) }
    {
        match rewritten(moment, work)? {
            None => {
                let outcome = self.error_of(moment_out_of_range());
                self.refuse(false, outcome);
            }
            Some(work) => {
                self.moment = moment;
                self.enter(work);
            }
        }
        Ok(())
    }

    #[tactic(auto, unfolding(session_machine::specs::Rules::block_begun))]
    fn begin_block(&mut self, moment: i64)
        ensures { machine_of self.new ≡ block_begun (session_of self.old) moment self.old.status }
    {
        match self.status {
            Status::Idle => {
                self.status = Status::InBlock;
                self.moment = moment;
                self.owe(Due::ReplyDue(done_with(Tag::Begin)));
            }
            Status::InBlock | Status::Failed => {
                self.owe(Due::ReplyDue(Outcome::Done {
                    tag: Tag::Begin,
                    warning: Some(in_a_block()),
                }));
            }
        }
    }

    /// A transaction commits.
    fn commit(&mut self, outcome: Outcome)
        ensures { machine_of self.new ≡ committing (session_of self.old) self.old.gate outcome }
    {
        match self.gate {
            GatePhase::Out | GatePhase::InSnapshot | GatePhase::InCommit => {
                self.status = Status::Idle;
                self.owe(Due::ReplyDue(outcome));
            }
            GatePhase::Live(changed, _) => {
                if changed {
                    self.owe(Due::EnterCommitDue);
                } else {
                    self.begin(Stage::Closing);
                }
            }
        }
    }

    #[tactic(auto, unfolding(session_machine::specs::Rules::block_committed))]
    fn commit_block(&mut self)
        ensures { machine_of self.new ≡ block_committed (session_of self.old) self.old.status }
    {
        match self.status {
            Status::Idle => {
                self.owe(Due::ReplyDue(Outcome::Done {
                    tag: Tag::Commit,
                    warning: Some(outside_a_block()),
                }));
            }
            Status::InBlock => self.commit(done_with(Tag::Commit)),
            Status::Failed => {
                self.status = Status::Idle;
                self.owe(Due::ReplyDue(done_with(Tag::Rollback)));
            }
        }
    }

    fn roll_back(&mut self)
        ensures { machine_of self.new ≡ rolled_back (session_of self.old) self.old.gate }
    {
        self.status = Status::Idle;
        let outcome = done_with(Tag::Rollback);
        match self.gate {
            GatePhase::Out => self.owe(Due::ReplyDue(outcome)),
            GatePhase::InSnapshot | GatePhase::Live(_, _) | GatePhase::InCommit => {
                self.begin(Stage::RollingBack(Ending::Replies(outcome)));
            }
        }
    }

    #[tactic(auto, unfolding(session_machine::specs::Rules::block_rolled_back))]
    fn roll_block_back(&mut self)
        ensures { machine_of self.new ≡ block_rolled_back (session_of self.old) self.old.status }
    {
        match self.status {
            Status::Idle => {
                self.owe(Due::ReplyDue(Outcome::Done {
                    tag: Tag::Rollback,
                    warning: Some(outside_a_block()),
                }));
            }
            Status::InBlock => self.roll_back(),
            Status::Failed => {
                self.status = Status::Idle;
                self.owe(Due::ReplyDue(done_with(Tag::Rollback)));
            }
        }
    }

    #[tactic(auto, unfolding(session_machine::specs::Rules::settled))]
    fn settle(&mut self)
        ensures { machine_of self.new ≡ settled (session_of self.old) self.old.status }
    {
        match self.status {
            Status::Idle => self.commit(Outcome::Settled),
            Status::InBlock | Status::Failed => self.owe(Due::ReplyDue(Outcome::Settled)),
        }
    }

    /// The client is gone.
    fn leave(&mut self)
        ensures { machine_of self.new ≡ leaving (session_of self.old) self.old.gate }
    {
        match self.gate {
            GatePhase::Out => self.owe(Due::EndDue),
            GatePhase::InSnapshot | GatePhase::Live(_, _) | GatePhase::InCommit => {
                let stage = Stage::RollingBack(Ending::Leaves);
                self.answers.clear();
                self.owe(Due::LookDue(stage));
            }
        }
    }

    fn leave_in(&mut self, stage: Stage)
        ensures { machine_of self.new ≡ left_in (session_of self.old) stage }
    {
        match stage {
            Stage::Opening(_)
            | Stage::Reading(_, _)
            | Stage::Running(_)
            | Stage::Locking(_, _)
            | Stage::Inserting(_, _)
            | Stage::Committing
            | Stage::Closing => self.leave(),
            Stage::RollingBack(_) => {
                self.owe(Due::LookDue(Stage::RollingBack(Ending::Leaves)));
            }
        }
    }

    /// A backend was lost, and is detached first.
    fn leave_lost(&mut self, stage: Stage, b: BackendId, before: u64, after: u64)
        ensures { machine_of self.new ≡ left_lost (session_of self.old) stage b before after }
    {
        match stage {
            Stage::Opening(_)
            | Stage::Reading(_, _)
            | Stage::Running(_)
            | Stage::Locking(_, _)
            | Stage::Inserting(_, _)
            | Stage::Committing
            | Stage::Closing => self.answers.clear(),
            Stage::RollingBack(_) => {}
        }
        let due = Due::LostDue(Stage::RollingBack(Ending::Leaves), b, before, after);
        self.owe(due);
    }

    #[tactic(auto, unfolding(session_machine::specs::Rules::left))]
    fn leave_at(&mut self, due: Due)
        ensures { machine_of self.new ≡ left (session_of self.old)
            (point_of (heard_in self.old) due) }
    {
        match due {
            Due::LookDue(stage)
            | Due::PostDue(stage, _)
            | Due::Waiting(stage, _)
            | Due::SplitDue { stage, .. } => self.leave_in(stage),
            Due::LostDue(stage, b, before, after) => self.leave_lost(stage, b, before, after),
            Due::UnwindDue(ending) => {
                drop(ending);
                self.owe(Due::UnwindDue(Ending::Leaves));
            }
            Due::LeaveCommitDue(ending) => {
                drop(ending);
                self.owe(Due::LeaveCommitDue(Ending::Leaves));
            }
            Due::FinishDue(ending) => {
                drop(ending);
                self.owe(Due::FinishDue(Ending::Leaves));
            }
            rest @ (Due::Resting
            | Due::EnterDue(_)
            | Due::ChooseDue(_)
            | Due::ShowDue
            | Due::LeaveSnapshotDue(_)
            | Due::EnterCommitDue
            | Due::ReplyDue(_)
            | Due::RowsDue(_)
            | Due::EndDue) => {
                drop(rest);
                self.leave();
            }
        }
    }

    /// The client is gone, whatever was due.
    pub(crate) fn left(&mut self)
        ensures { machine_of self.new ≡ left (session_of self.old)
            (point_of (heard_in self.old) self.old.due) }
    {
        let due = mem::replace(&mut self.due, Due::Resting);
        self.leave_at(due);
    }

    /// An order.
    #[tactic(auto, unfolding(session_machine::specs::Rules::ordered))]
    pub(crate) fn ordered(&mut self, order: Order) -> Result<(), NoMemory>
        requires { HasItsBit order.body }
        ensures led { OnOk result (machine_of self.new ≡ ordered (session_of self.old)
            (point_of (heard_in self.old) self.old.due) order.moment order.body) }
        ensures as_before { OnErr result (machine_of self.new ≡ machine_of self.old) }
        ensures want { IfErr result (λ _. is_statement order.body ≡ true) }
    {
        let Order { moment, body } = order;
        match body {
            OrderBody::Statement(checked) => {
                let moment = self.moment_at(moment);
                self.state_at(moment, work_of(checked))?;
            }
            OrderBody::Begin => self.begin_block(moment),
            OrderBody::Commit => self.commit_block(),
            OrderBody::Rollback => self.roll_block_back(),
            OrderBody::Settle => self.settle(),
            OrderBody::ShowNodes => self.owe(Due::ShowDue),
            OrderBody::Recover(_) => self.owe(Due::Resting),
            OrderBody::Refuse { code, name } => self.refuse(false, Outcome::Error { code, name }),
            OrderBody::Leave => self.left(),
        }
        Ok(())
    }
}
