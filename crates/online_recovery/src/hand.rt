//! The large parts of what is due: a request, a cause, a reply.
ghost use Rattle.std.specs.Prelude.{◌≡◌, ◌≢◌, true, Some, IfOk, IfErr};
ghost use Rattle.online_recovery.specs.declared.standing.Ending.TheVariants as endings;
ghost use Rattle.session_machine.specs.declared.status.Status.TheVariants as statuses;
ghost use Rattle.online_recovery.specs.declared.action.RecoveryAction.TheVariants as actions;
ghost use Rattle.session_machine.specs.Rules.{error_of};
ghost use Rattle.online_recovery.specs.Codes.{cannot_recover};
ghost use Rattle.online_recovery.specs.State.{new_standing, outcome_of};
ghost use Rattle.online_recovery.specs.Rules.{next_action, request_of};
ghost use Rattle.online_recovery.specs.Asking.{IsPost, IsDetach, IsReply, Posts, Detaches, IsCopyDue, is_copy};

use crate::codes::cannot_recover;
use crate::copies::{all_rows_in, no_rows_in, row_in, row_into};
use crate::layout::Layout;
use crate::rules::error_of;
use crate::standing::{Due, Ending, Standing, Task};
use backend_trait::Request;
use pool_base::NoMemory;
use session_machine::{Cause, Status, done_with};
use session_orders::{Outcome, Tag};
use std::alloc::Global;
use std::mem;

/// What is asked for a task. A statement of a copy wants memory.
#[tactic(auto, using(crate::proofs::Fewness::few_columns))]
pub(crate) fn request_of(alloc: Global, layout: &Layout, task: &Task) -> Result<Request, NoMemory>
    ensures is { IfOk result (λ request. request ≡
        request_of layout.now.tables task.now) }
    ensures want { IfErr result (λ _.
        is_copy task.now ≡ true) }
{
    Ok(match task {
        Task::OpeningSource | Task::OpeningTarget | Task::OpeningNumbers => Request::TakeSnapshot,
        Task::Reading(table) => Request::Run(all_rows_in(alloc, &layout.tables, *table)?),
        Task::Emptying(table, _) => Request::Run(no_rows_in(alloc, *table)),
        Task::Filling(table, rows, left) => {
            let values = row_in(rows.as_slice(), *left);
            Request::Run(row_into(alloc, &layout.tables, *table, values)?)
        }
        Task::Committing | Task::ClosingNumbers => Request::Commit,
        Task::Leaving => Request::Rollback,
        Task::ReadingSerial(table) => Request::ReadSerial(*table),
        Task::LockingSerial(table, _) => Request::Lock(*table),
        Task::SettingSerial(table, next) => Request::SetSerial(*table, *next),
    })
}

/// The reply of an end; of a client that is gone there is none.
fn reply_of(alloc: Global, ending: Ending) -> Outcome
    requires { ending ≢ endings.Leaves }
    ensures { Some result ≡ outcome_of ending }
{
    match ending {
        Ending::Attached => done_with(Tag::Recover),
        Ending::Refused(code) => error_of(alloc, code),
        Ending::Leaves => unreachable!(),
    }
}

impl Standing {
    /// The request that is to be posted.
    #[tactic(auto, using(crate::proofs::Calls::undoes))]
    pub(crate) fn request(&self, alloc: Global) -> Result<Request, NoMemory>
        requires { IsPost (next_action self.now) }
        ensures is { IfOk result (λ request. Posts (next_action self.now) request) }
        ensures want { IfErr result (λ _. IsCopyDue self.now.due) }
    {
        match &self.due {
            Due::PostDue(task) => request_of(alloc, &self.held.layout, task),
            Due::Closing(_) => Ok(Request::Rollback),
            _ => unreachable!(),
        }
    }

    /// The cause for which the source is to be detached.
    pub(crate) fn cause(&self) -> Cause
        requires { IsDetach (next_action self.now) }
        ensures { Detaches (next_action self.now) result }
    {
        match &self.due {
            Due::LostDue(_, before, after) => Cause::Fault {
                before: *before,
                after: *after,
            },
            _ => unreachable!(),
        }
    }

    /// The reply that is due has been given: the recovery is at rest.
    #[tactic(auto, using(crate::proofs::Calls::no_leave, crate::proofs::Calls::replied_at))]
    pub(crate) fn reply(&mut self, alloc: Global) -> (Outcome, Status)
        requires { IsReply (next_action self.old) }
        ensures reply { actions.Reply result.0 result.1 ≡ next_action self.old }
        ensures rest { self.new ≡ new_standing self.old.held.id self.old.held.layout }
    {
        match mem::replace(&mut self.due, Due::Resting) {
            Due::Closing(ending) => {
                let outcome = reply_of(alloc, ending);
                self.restart();
                (outcome, Status::Idle)
            }
            _ => unreachable!(),
        }
    }

    /// The reply that there is no spare has been given: the recovery is at rest.
    pub(crate) fn reply_no_spare(&mut self, alloc: Global) -> (Outcome, Status)
        ensures outcome { result.0 ≡ error_of cannot_recover }
        ensures status { result.1 ≡ statuses.Idle }
        ensures rest { self.new ≡ new_standing self.old.held.id self.old.held.layout }
    {
        self.restart();
        (error_of(alloc, cannot_recover()), Status::Idle)
    }
}
