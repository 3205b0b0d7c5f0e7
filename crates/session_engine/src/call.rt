//! Where the gate's answer leads.
ghost use Rattle.std.specs.Prelude.{◌≡◌, ◌+◌};
ghost use Rattle.session_engine.specs.Meaning.{heard_in, session_of, machine_of};
ghost use Rattle.session_engine.specs.Dues.{point_of};
ghost use Rattle.session_engine.specs.Places.{heard_at};

use crate::choice::other_at;
use crate::due::Due;
use crate::standing::Standing;
use pool_base::{BackendId, BackendSet, GateAnswer};
use session_machine::{GatePhase, Stage, Work, counts_spent};
use session_orders::Outcome;
use std::mem;

impl Standing {
    ghost use Rattle.session_machine.specs.Rules.{after, ticket_of, first_chosen, shown, snapshot_entered, snapshot_left, commit_entered, granted, called, lost_one, parted, parted_at, detached, primary, next_action};
    ghost use Rattle.session_engine.specs.Handing.{gate_event};

    fn ticket(&self) -> u64
        ensures { result ≡ ticket_of (session_of self.now) self.now.policy.per_statement }
    {
        let number = u64::from(self.id.number);
        if self.policy.per_statement {
            number + u64::from(self.reads)
        } else {
            number
        }
    }

    /// A read chooses its backend for the first time.
    fn first_chosen(&mut self, work: Work, primary: Option<BackendId>)
        ensures { machine_of self.new ≡ first_chosen (session_of self.old) work primary }
    {
        match primary {
            None => {
                drop(work);
                self.strand();
            }
            Some(_) => {
                let ticket = self.ticket();
                self.reads = self.reads.wrapping_add(1);
                self.chosen(work, ticket);
            }
        }
    }

    fn shown(&mut self, primary: Option<BackendId>)
        ensures { machine_of self.new ≡ shown (session_of self.old) primary }
    {
        match primary {
            None => self.strand(),
            Some(_) => self.owe(Due::ReplyDue(Outcome::Nodes(self.view.attached))),
        }
    }

    fn snapshot_entered(&mut self, work: Work, primary: Option<BackendId>)
        ensures { machine_of self.new ≡ snapshot_entered (session_of self.old) work primary }
    {
        match primary {
            None => {
                drop(work);
                self.strand();
            }
            Some(_) => self.begin(Stage::Opening(work)),
        }
    }

    fn snapshot_left(&mut self, work: Work, primary: Option<BackendId>)
        ensures { machine_of self.new ≡ snapshot_left (session_of self.old) work primary }
    {
        match primary {
            None => {
                drop(work);
                self.strand();
            }
            Some(_) => self.start(work),
        }
    }

    fn commit_entered(&mut self, primary: Option<BackendId>)
        ensures { machine_of self.new ≡ commit_entered (session_of self.old) primary }
    {
        match primary {
            None => self.strand_in(Stage::Committing),
            Some(_) => self.begin(Stage::Committing),
        }
    }

    /// The session has the view of a call that was seen or granted.
    #[tactic(auto, unfolding(session_machine::specs::Rules::granted))]
    fn granted(&mut self, due: Due)
        ensures { machine_of self.new ≡ granted (session_of self.old)
            (point_of (heard_in self.old) due) }
    {
        let primary = self.primary();
        match due {
            Due::EnterDue(work) => {
                self.gate = GatePhase::InSnapshot;
                self.snapshot_entered(work, primary);
            }
            Due::LookDue(stage) => self.looked_at(stage, primary),
            Due::ChooseDue(work) => self.first_chosen(work, primary),
            Due::ShowDue => self.shown(primary),
            Due::LeaveSnapshotDue(work) => {
                self.gate = GatePhase::Live(false, 0);
                self.snapshot_left(work, primary);
            }
            Due::UnwindDue(ending) => {
                self.gate = GatePhase::Live(false, 0);
                self.owe(Due::FinishDue(ending));
            }
            Due::EnterCommitDue => {
                self.gate = GatePhase::InCommit;
                self.commit_entered(primary);
            }
            Due::LeaveCommitDue(ending) | Due::FinishDue(ending) => {
                self.gate = GatePhase::Out;
                self.end(ending);
            }
            other => self.owe(other),
        }
    }

    /// The gate's answer to the call that was due.
    #[tactic(auto, unfolding(session_machine::specs::Rules::called))]
    fn called(&mut self, due: Due, answer: GateAnswer)
        ensures { machine_of self.new ≡ called (session_of self.old)
            (point_of (heard_in self.old) due) answer }
    {
        match answer {
            GateAnswer::Seen(view) | GateAnswer::Granted(view) => {
                self.view = view;
                self.granted(due);
            }
            GateAnswer::Held(_) => self.owe(due),
            GateAnswer::Spent => {
                drop(due);
                let outcome = self.error_of(counts_spent());
                self.refuse(false, outcome);
            }
        }
    }

    /// A lost backend is detached.
    fn lost_one(&mut self, stage: Stage, primary: Option<BackendId>)
        ensures { machine_of self.new ≡ lost_one (session_of self.old) stage primary }
    {
        match primary {
            None => self.strand_in(stage),
            Some(_) => self.owe(Due::LookDue(stage)),
        }
    }

    /// The backend that stands at the place of an answer: its number, and one more.
    fn number_behind(&self, own: usize) -> u8
        ensures { result ≡ (heard_at (heard_in self.now) own).b.number + 1 }
    {
        match self.answers.get(own) {
            Some(heard) => heard.b.number + 1,
            None => 1,
        }
    }

    /// A backend that differs is detached.
    fn parted(&mut self, stage: Stage, best: usize, own: usize, among: BackendSet, more: bool)
        ensures { machine_of self.new ≡ parted (session_of self.old) stage
            (heard_at (heard_in self.old) best) (heard_at (heard_in self.old) own) among more
            (primary (session_of self.old)) }
    {
        if self.primary().is_none() {
            return self.strand_in(stage);
        }
        let from = self.number_behind(own);
        let other = other_at(among, self.answers.as_slice(), best, from);
        self.split(false, stage, best, among, more, other);
    }

    /// The session has the view behind a detachment.
    fn parted_at(&mut self, due: Due)
        ensures { machine_of self.new ≡ parted_at (session_of self.old)
            (point_of (heard_in self.old) due) }
    {
        match due {
            Due::LostDue(stage, _, _, _) => {
                let primary = self.primary();
                self.lost_one(stage, primary);
            }
            Due::SplitDue {
                stage,
                best,
                own,
                among,
                more,
            } => self.parted(stage, best, own, among, more),
            other => self.owe(other),
        }
    }

    /// The gate's answer to a detachment.
    #[tactic(auto, unfolding(session_machine::specs::Rules::detached))]
    fn detached(&mut self, due: Due, answer: GateAnswer)
        ensures { machine_of self.new ≡ detached (session_of self.old)
            (point_of (heard_in self.old) due) answer }
    {
        match answer {
            GateAnswer::Seen(view) | GateAnswer::Granted(view) => {
                self.view = view;
                self.parted_at(due);
            }
            GateAnswer::Held(_) | GateAnswer::Spent => self.owe(due),
        }
    }

    /// The gate's answer to what was due there.
    #[tactic(auto, unfolding(session_machine::specs::Rules::after_at))]
    pub(crate) fn gate_answered(&mut self, answer: GateAnswer)
        ensures { machine_of self.new ≡ after (machine_of self.old)
            (gate_event (next_action (machine_of self.old)) answer) }
    {
        let due = mem::replace(&mut self.due, Due::Resting);
        match due {
            Due::LostDue(_, _, _, _) | Due::SplitDue { .. } => self.detached(due, answer),
            other => self.called(other, answer),
        }
    }
}
