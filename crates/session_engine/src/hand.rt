//! The large parts of what is due: a request, a cause, a reply.
ghost use Rattle.std.specs.Prelude.{◌≡◌, [], false, IfOk, IfErr};
ghost use Rattle.session_machine.specs.declared.action.Action.TheVariants as actions;
ghost use Rattle.session_machine.specs.declared.action.Cause.TheVariants as causes;
ghost use Rattle.session_machine.specs.declared.machine.Point.TheVariants as points;
ghost use Rattle.session_engine.specs.Places.{heard_at, rows_in};
ghost use Rattle.session_engine.specs.Sound.{is_plain, are_plain};
ghost use Rattle.session_engine.specs.Meaning.{heard_in, session_of, machine_of};

use crate::answers::Answers;
use crate::due::Due;
use crate::standing::Standing;
use backend_trait::{Answer, Request};
use pool_base::NoMemory;
use session_machine::{Cause, Status, request_of};
use session_orders::{Outcome, Tag};
use std::mem;

/// A copy of an answer. It wants memory for rows alone.
fn copy_of(answer: &Answer) -> Result<Answer, NoMemory>
    ensures copy { IfOk result (λ copy. copy ≡ answer.now) }
    ensures want { IfErr result (λ _. is_plain answer.now ≡ false) }
{
    match answer {
        Answer::Rows(rows) => Ok(Answer::Rows(rows.clone()?)),
        Answer::Began => Ok(Answer::Began),
        Answer::Count(count) => Ok(Answer::Count(*count)),
        Answer::Locked => Ok(Answer::Locked),
        Answer::Done => Ok(Answer::Done),
        Answer::Serial(next) => Ok(Answer::Serial(*next)),
        Answer::Refused(code) => Ok(Answer::Refused(*code)),
    }
}

/// A copy of the answer at that place.
fn copy_at(heard: &Answers, place: usize) -> Result<Answer, NoMemory>
    ensures copy { IfOk result (λ copy. copy ≡ (heard_at heard.now.items.items place).answer) }
    ensures want { IfErr result (λ _. are_plain heard.now.items.items ≡ false) }
{
    match heard.get(place) {
        Some(heard) => copy_of(&heard.answer),
        None => Ok(Answer::Began),
    }
}

/// The two answers that differ.
fn difference(heard: &Answers, best: usize, own: usize) -> Result<Cause, NoMemory>
    ensures is { IfOk result (λ cause. cause
        ≡ causes.Differs (heard_at heard.now.items.items best).answer
        (heard_at heard.now.items.items own).answer) }
    ensures want { IfErr result (λ _. are_plain heard.now.items.items ≡ false) }
{
    Ok(Cause::Differs {
        kept: copy_at(heard, best)?,
        own: copy_at(heard, own)?,
    })
}

impl Standing {
    ghost use Rattle.session_machine.specs.Rules.{next_action};
    ghost use Rattle.session_engine.specs.Dues.{rows_reply, IsPosting, IsParting, IsReplying, IsEnding};
    ghost use Rattle.session_engine.specs.Handing.{handed, Posts, Detaches};
    ghost use Rattle.session_engine.specs.Sound.{WantsCopies};

    /// The request that is to be posted.
    pub(crate) fn request(&self) -> Result<Request, NoMemory>
        requires { IsPosting self.now.due }
        ensures is { IfOk result (λ request. Posts (next_action (machine_of self.now)) request) }
        ensures want { IfErr result (λ _. WantsCopies (heard_in self.now)
            (machine_of self.now).point) }
    {
        match &self.due {
            Due::PostDue(stage, _) => request_of(stage),
            _ => unreachable!(),
        }
    }

    /// The cause for which a backend is to be detached.
    pub(crate) fn cause(&self) -> Result<Cause, NoMemory>
        requires { IsParting self.now.due }
        ensures is { IfOk result (λ cause. Detaches (next_action (machine_of self.now)) cause) }
        ensures want { IfErr result (λ _. WantsCopies (heard_in self.now)
            (machine_of self.now).point) }
    {
        match &self.due {
            Due::LostDue(_, _, before, after) => Ok(Cause::Fault {
                before: *before,
                after: *after,
            }),
            Due::SplitDue { best, own, .. } => difference(&self.answers, *best, *own),
            _ => unreachable!(),
        }
    }

    /// The reply is handed out, and the session is at rest.
    fn reply_with(&mut self, outcome: Outcome) -> (Outcome, Status)
        ensures outcome { result.0 ≡ outcome }
        ensures status { result.1 ≡ self.old.status }
        ensures rest { machine_of self.new ≡ Rattle.session_machine.specs.Rules.due
            (record (session_of self.old) { heard = [] }) points.Resting }
    {
        self.answers.clear();
        self.owe(Due::Resting);
        (outcome, self.status)
    }

    /// The reply with the rows of the answer at that place is handed out: the session is at rest.
    fn reply_rows(&mut self, best: usize) -> (Outcome, Status)
        ensures rows { result.0 ≡ rows_reply
            (rows_in (heard_at (heard_in self.old) best).answer) }
        ensures status { result.1 ≡ self.old.status }
        ensures rest { machine_of self.new ≡ Rattle.session_machine.specs.Rules.due
            (record (session_of self.old) { heard = [] }) points.Resting }
    {
        let rows = self.answers.take_rows(best);
        let tag = Tag::Select(rows.len() as u64);
        self.owe(Due::Resting);
        (Outcome::Rows { rows, tag }, self.status)
    }

    /// The reply that is due is handed out, and has been given.
    pub(crate) fn reply(&mut self) -> (Outcome, Status)
        requires { IsReplying self.old.due }
        ensures action { actions.Reply result.0 result.1 ≡ next_action (machine_of self.old) }
        ensures state { machine_of self.new ≡ handed (machine_of self.old) }
    {
        match mem::replace(&mut self.due, Due::Resting) {
            Due::ReplyDue(outcome) => self.reply_with(outcome),
            Due::RowsDue(best) => self.reply_rows(best),
            _ => unreachable!(),
        }
    }

    /// The end that is due has taken place: its number has a new machine.
    pub(crate) fn end_here(&mut self)
        requires { IsEnding self.old.due }
        ensures { machine_of self.new ≡ handed (machine_of self.old) }
    {
        match mem::replace(&mut self.due, Due::Resting) {
            Due::EndDue => self.restart(),
            _ => unreachable!(),
        }
    }
}
