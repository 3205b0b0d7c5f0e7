//! A chain at a Look: the next backend, the judgement of its answers, and where its end leads.
ghost use Rattle.std.specs.Prelude.{◌≡◌, option_map};
ghost use Rattle.session_engine.specs.Places.{heard_at};
ghost use Rattle.session_engine.specs.Meaning.{heard_in, session_of, machine_of};

use crate::choice::{goes_on_at, kept_at, other_at};
use crate::due::Due;
use crate::standing::Standing;
use backend_trait::Answer;
use pool_base::{BackendId, BackendSet, Code};
use session_machine::{
    Ending, Stage, Status, Work, commit_outcome, counts, done_with, next_of, phase_changed, reader,
    refusal_of, tag_of,
};
use write_path::ChainKind;

impl Standing {
    ghost use Rattle.session_machine.specs.Answers.{next_of, kept};
    ghost use Rattle.session_machine.specs.Rules.{ran, opened, locked, closed, decided, split, judged, asked, reading_at, chosen, read, looked, looked_at};

    /// A statement has the answer at that place.
    fn ran(&mut self, behind: bool, work: Work, best: usize)
        ensures { machine_of self.new ≡ ran behind (session_of self.old) work
            (heard_at (heard_in self.old) best).answer }
    {
        let Some(heard) = self.answers.get(best) else {
            return self.rest();
        };
        match &heard.answer {
            Answer::Refused(code) => {
                let outcome = self.error_of(*code);
                self.refuse(behind, outcome);
            }
            Answer::Rows(_) => self.owe(Due::RowsDue(best)),
            Answer::Count(count) => {
                let outcome = done_with(tag_of(work.class, *count));
                self.gate = phase_changed(self.gate, work.tables);
                self.owe(Due::ReplyDue(outcome));
            }
            // None of these answers a statement.
            Answer::Began => self.rest(),
            Answer::Locked => self.rest(),
            Answer::Done => self.rest(),
            Answer::Serial(_) => self.rest(),
        }
    }

    /// The code of the refusal at that place.
    fn refusal_at(&self, best: usize) -> Option<Code>
        ensures { result ≡ Rattle.session_machine.specs.Rules.refusal_of
            (heard_at (heard_in self.now) best).answer }
    {
        match self.answers.get(best) {
            Some(heard) => refusal_of(&heard.answer),
            None => None,
        }
    }

    /// The snapshots are taken, or refused.
    fn opened(&mut self, behind: bool, work: Work, refusal: Option<Code>)
        ensures { machine_of self.new ≡ opened behind (session_of self.old) work refusal }
    {
        match refusal {
            None => self.owe(Due::LeaveSnapshotDue(work)),
            Some(code) => {
                drop(work);
                let outcome = self.error_of(code);
                self.refuse(behind, outcome);
            }
        }
    }

    /// The lock is taken, or refused.
    fn locked(&mut self, behind: bool, work: Work, refusal: Option<Code>)
        ensures { machine_of self.new ≡ locked behind (session_of self.old) work refusal }
    {
        match refusal {
            None => self.begin_behind(behind, Stage::Inserting(work, false)),
            Some(code) => {
                drop(work);
                let outcome = self.error_of(code);
                self.refuse(behind, outcome);
            }
        }
    }

    /// The kept answer decides.
    fn closed(&mut self, behind: bool, stage: Stage, best: usize)
        ensures { machine_of self.new ≡ closed behind (session_of self.old) stage
            (heard_at (heard_in self.old) best).answer }
    {
        match stage {
            Stage::Opening(work) => {
                let refusal = self.refusal_at(best);
                self.opened(behind, work, refusal);
            }
            Stage::Reading(work, _) | Stage::Running(work) | Stage::Inserting(work, _) => {
                self.ran(behind, work, best);
            }
            Stage::Locking(work, _) => {
                let refusal = self.refusal_at(best);
                self.locked(behind, work, refusal);
            }
            Stage::Committing => {
                let ending = Ending::Replies(commit_outcome(self.status));
                self.status = Status::Idle;
                self.owe(Due::LeaveCommitDue(ending));
            }
            Stage::Closing => {
                let ending = Ending::Replies(commit_outcome(self.status));
                self.status = Status::Idle;
                self.owe(Due::FinishDue(ending));
            }
            Stage::RollingBack(ending) => self.release(ending),
        }
    }

    /// All that differ are detached: the chain goes on, or the kept answer decides.
    fn decided(&mut self, behind: bool, stage: Stage, best: usize, more: bool)
        ensures { machine_of self.new ≡ decided behind (session_of self.old) stage
            (heard_at (heard_in self.old) best).answer more }
    {
        if more {
            self.owe(Due::LookDue(stage));
        } else {
            self.closed(behind, stage, best);
        }
    }

    /// The next that differs is to be detached, if there is one.
    pub(crate) fn split(
        &mut self,
        behind: bool,
        stage: Stage,
        best: usize,
        among: BackendSet,
        more: bool,
        other: Option<usize>,
    )
        ensures { machine_of self.new ≡ split behind (session_of self.old) stage
            (heard_at (heard_in self.old) best) among more
            (option_map (heard_at (heard_in self.old)) other) }
    {
        match other {
            None => self.decided(behind, stage, best, more),
            Some(own) => {
                self.owe(Due::SplitDue {
                    stage,
                    best,
                    own,
                    among,
                    more,
                });
            }
        }
    }

    /// The answers are judged by the kept one.
    fn judged(&mut self, stage: Stage, best: Option<usize>)
        ensures { machine_of self.new ≡ judged (session_of self.old) stage
            (option_map (heard_at (heard_in self.old)) best) }
    {
        let Some(best) = best else {
            self.owe(Due::LookDue(stage));
            return;
        };
        let among = self.view.attached;
        let heard = self.answers.as_slice();
        let more = goes_on_at(among, heard, best);
        let other = other_at(among, heard, best, 0);
        self.split(true, stage, best, among, more, other);
    }

    /// A chain goes to the next backend; at its end it is judged.
    #[tactic(auto, unfolding(session_machine::specs::Rules::asked))]
    fn asked(&mut self, stage: Stage, next: Option<BackendId>)
        ensures { machine_of self.new ≡ asked (session_of self.old) stage next }
    {
        match next {
            Some(b) => self.owe(Due::PostDue(stage, b)),
            None => {
                let best = kept_at(self.view.attached, self.answers.as_slice());
                self.judged(stage, best);
            }
        }
    }

    /// A read is sent to the backend that is chosen.
    fn reading_at(&mut self, work: Work, ticket: u64, reader: Option<BackendId>)
        ensures { machine_of self.new ≡ reading_at (session_of self.old) work ticket reader }
    {
        match reader {
            None => {
                drop(work);
                self.strand();
            }
            Some(b) => {
                self.answers.clear();
                self.owe(Due::PostDue(Stage::Reading(work, ticket), b));
            }
        }
    }

    pub(crate) fn chosen(&mut self, work: Work, ticket: u64)
        ensures { machine_of self.new ≡ chosen (session_of self.old) work ticket }
    {
        let reader = reader(&self.policy, self.view.attached, ticket);
        self.reading_at(work, ticket, reader);
    }

    /// A read at a Look.
    fn read(&mut self, work: Work, ticket: u64)
        ensures { machine_of self.new ≡ read (session_of self.old) work ticket
            (heard_in self.old) }
    {
        let [heard, ..] = self.answers.as_slice() else {
            return self.chosen(work, ticket);
        };
        if !counts(self.view.attached, heard) {
            return self.chosen(work, ticket);
        }
        self.closed(true, Stage::Reading(work, ticket), 0);
    }

    /// A chain of this kind at a Look.
    fn gone_on(&mut self, stage: Stage, kind: ChainKind)
        ensures { machine_of self.new ≡ asked (session_of self.old) stage
            (next_of kind self.old.view.attached.bits (heard_in self.old)) }
    {
        let next = next_of(kind, self.view.attached, self.answers.as_slice());
        self.asked(stage, next);
    }

    /// A Look that shows attached backends.
    fn looked(&mut self, stage: Stage)
        ensures { machine_of self.new ≡ looked (session_of self.old) stage }
    {
        match stage {
            Stage::Reading(work, ticket) => self.read(work, ticket),
            Stage::Opening(work) => self.gone_on(Stage::Opening(work), ChainKind::All),
            Stage::Running(work) => self.gone_on(Stage::Running(work), ChainKind::StopAtRefusal),
            Stage::Locking(work, table) => {
                self.gone_on(Stage::Locking(work, table), ChainKind::StopAtRefusal);
            }
            Stage::Inserting(work, posted) => {
                self.gone_on(Stage::Inserting(work, posted), ChainKind::All);
            }
            Stage::Committing => self.gone_on(Stage::Committing, ChainKind::All),
            Stage::Closing => self.gone_on(Stage::Closing, ChainKind::All),
            Stage::RollingBack(ending) => {
                self.gone_on(Stage::RollingBack(ending), ChainKind::All);
            }
        }
    }

    /// A Look.
    pub(crate) fn looked_at(&mut self, stage: Stage, primary: Option<BackendId>)
        ensures { machine_of self.new ≡ looked_at (session_of self.old) stage primary }
    {
        match primary {
            None => self.strand_in(stage),
            Some(_) => self.looked(stage),
        }
    }
}
