//! The recovery of one backend.
ghost use Rattle.std.specs.Prelude.{◌≡◌, ◌↔◌, ℕ, ℤ, true, IsTrue, IfOk, IfErr};
ghost use Rattle.backend_trait.specs.declared.request.Request.{Request as Asked};
ghost use Rattle.pool_base.specs.declared.gate_call.GateCall.TheVariants as calls;
ghost use Rattle.session_orders.specs.declared.order.OrderBody.TheVariants as orders;
ghost use Rattle.session_machine.specs.declared.action.SessionEvent.TheVariants as events;
ghost use Rattle.online_recovery.specs.declared.action.RecoveryAction.TheVariants as actions;
ghost use Rattle.online_recovery.specs.declared.ask.RecoveryAsk.TheVariants as asks;
ghost use Rattle.online_recovery.specs.State.{new_standing};
ghost use Rattle.online_recovery.specs.Allowed.{MayHappen, is_resting, may_leave};
ghost use Rattle.online_recovery.specs.Asking.{IsCopyDue, IsDetach, IsPost, IsReply, IsSwap, Detaches, Posts, asked_of, gate_event, standing_in};

use crate::ask::RecoveryAsk;
use crate::layout::Layout;
use crate::standing::Standing;
use backend_trait::{Answer, Request};
use pool_base::{BackendId, GateAnswer, NoMemory, SessionId};
use session_machine::{Cause, Status};
use session_orders::Outcome;
use std::alloc::Global;

/// The machine of one session's recoveries. Each call tells it what has taken place; what is due
/// next is asked for, and its large part is made where it is used.
///
/// After: where a call answers want of memory, the recovery stands where it stood. The call is made
/// again, or the recovery is given up.
#[derive(Drop)]
pub struct Recovery {
    standing: Standing,
}

impl Recovery {
    ghost use Rattle.online_recovery.specs.Rules.{after, next_action};

    /// A recovery at rest. It takes no memory.
    pub fn new(id: SessionId, layout: Layout) -> Recovery
        ensures { standing_in result ≡ new_standing id layout }
    {
        Recovery {
            standing: Standing::new(id, layout),
        }
    }

    /// Where it stands.
    pub fn standing(&self) -> &Standing
        ensures { result.now ≡ standing_in self.now }
    {
        &self.standing
    }

    /// What is due.
    pub fn asks(&self) -> RecoveryAsk
        ensures is { result ≡ asked_of (next_action (standing_in self.now)) }

        // What the calls below want to know of it.
        ensures swap { (b : BackendId) → result ≡ asks.Swap b
            → IsSwap (next_action (standing_in self.now)) }
        ensures post { (b : BackendId) → result ≡ asks.Post b
            → IsPost (next_action (standing_in self.now)) }
        ensures detach { (b : BackendId) → result ≡ asks.Detach b
            → IsDetach (next_action (standing_in self.now)) }
        ensures reply { result ≡ asks.Reply → IsReply (next_action (standing_in self.now)) }
        ensures end { result ≡ asks.End → next_action (standing_in self.now) ≡ actions.End }
        ensures start { result ≡ asks.Gate calls.StartCopy
            → next_action (standing_in self.now) ≡ actions.Gate calls.StartCopy }
    {
        self.standing.asks()
    }

    /// The request that is to be posted. What has the columns of a table or the values of a row
    /// wants memory.
    pub fn request(&self, alloc: Global) -> Result<Request, NoMemory>
        requires { IsPost (next_action (standing_in self.now)) }
        ensures is { IfOk result (λ request. Posts (next_action (standing_in self.now)) request) }
        ensures want { IfErr result (λ _. IsCopyDue (standing_in self.now).due) }
        ensures leaves { IfErr result (λ _. may_leave (standing_in self.now).due ≡ true) }
    {
        self.standing.request(alloc)
    }

    /// The cause for which the source is to be detached.
    pub fn cause(&self) -> Cause
        requires { IsDetach (next_action (standing_in self.now)) }
        ensures { Detaches (next_action (standing_in self.now)) result }
    {
        self.standing.cause()
    }

    /// Takes the order to bring in the backend of that number, at rest. The client is in no block.
    pub fn start(&mut self, number: u8)
        requires { is_resting (standing_in self.old).due ≡ true }
        ensures { (moment : ℤ) → standing_in self.new ≡ after (standing_in self.old)
            (events.Ordered (record { moment = moment; body = orders.Recover number })) }
    {
        self.standing.begin(number);
    }

    /// Takes the gate's answer to the call or to the detachment that was due. EnterSnapshot and
    /// EnterQuiet that are held are made again, and StartCopy that is held is handed in.
    pub fn gate_answer(&mut self, answer: GateAnswer)
        requires { MayHappen (standing_in self.old)
            (gate_event (next_action (standing_in self.old)) answer) }
        ensures { standing_in self.new ≡ after (standing_in self.old)
            (gate_event (next_action (standing_in self.old)) answer) }
    {
        self.standing.gate_answered(answer);
    }

    /// A blank backend stands in the target's place.
    pub fn swapped(&mut self)
        requires { IsSwap (next_action (standing_in self.old)) }
        ensures { (b : BackendId) → standing_in self.new ≡
            after (standing_in self.old) (events.Swapped b) }
    {
        self.standing.swapped();
    }

    /// The request that was due is posted.
    pub fn posted(&mut self)
        requires { IsPost (next_action (standing_in self.old)) }
        ensures { (b : BackendId) → (request : Asked) → standing_in self.new ≡
            after (standing_in self.old) (events.Posted b request) }
    {
        self.standing.posted();
    }

    /// Takes the answer of the backend that was waited for.
    pub fn backend_answer(&mut self, b: BackendId, answer: Answer)
        requires { MayHappen (standing_in self.old) (events.Taken b answer) }
        ensures { standing_in self.new ≡ after (standing_in self.old) (events.Taken b answer) }
    {
        self.standing.taken(answer);
    }

    /// The backend that was waited for is lost: its count of faults before and after.
    pub fn backend_lost(&mut self, b: BackendId, before: u64, after: u64)
        requires { MayHappen (standing_in self.old) (events.Faulted b before after) }
        ensures { standing_in self.new ≡ Rattle.online_recovery.specs.Rules.after
            (standing_in self.old) (events.Faulted b before after) }
    {
        self.standing.faulted(before, after);
    }

    /// The reply to the client. It has been given: the recovery is at rest.
    pub fn reply(&mut self, alloc: Global) -> (Outcome, Status)
        requires { IsReply (next_action (standing_in self.old)) }
        ensures reply { actions.Reply result.0 result.1 ≡ next_action (standing_in self.old) }
        ensures rest { standing_in self.new ≡ after (standing_in self.old)
            (events.Replied result.0 result.1) }
    {
        self.standing.reply(alloc)
    }

    /// The caller has no spare, where the copy is due to start: the reply in its place. It has been
    /// given: the recovery is at rest.
    pub fn no_spare(&mut self, alloc: Global) -> (Outcome, Status)
        requires { next_action (standing_in self.old) ≡ actions.Gate calls.StartCopy }
        ensures may { MayHappen (standing_in self.old) (events.Replied result.0 result.1) }
        ensures rest { standing_in self.new ≡ after (standing_in self.old)
            (events.Replied result.0 result.1) }
    {
        self.standing.reply_no_spare(alloc)
    }

    /// The session has ended: its number has a recovery at rest.
    pub fn end(&mut self)
        requires { next_action (standing_in self.old) ≡ actions.End }
        ensures { standing_in self.new ≡ after (standing_in self.old) events.Ended }
    {
        self.standing.restart();
    }

    /// The client is gone, wherever the recovery stands; no request may be pending, and the target
    /// is not attached.
    pub fn give_up(&mut self)
        requires { may_leave (standing_in self.old).due ≡ true }
        ensures { (moment : ℤ) → standing_in self.new ≡ after (standing_in self.old)
            (events.Ordered (record { moment = moment; body = orders.Leave })) }
    {
        self.standing.left();
    }

    /// Whether an order may come.
    pub fn may_start(&self) -> bool
        ensures { result ≡ is_resting (standing_in self.now).due }
    {
        self.standing.is_resting()
    }

    /// Whether this may be the gate's answer to what is due.
    pub fn may_gate_answer(&self, answer: &GateAnswer) -> bool
        ensures { IsTrue result ↔ MayHappen (standing_in self.now)
            (gate_event (next_action (standing_in self.now)) answer.now) }
    {
        self.standing.is_answered(answer)
    }

    /// Whether this may be the answer of the backend that is waited for. The columns of a table
    /// want memory.
    pub fn may_hear(&self, alloc: Global, b: BackendId, answer: &Answer) -> Result<bool, NoMemory>
        ensures { IfOk result (λ may. IsTrue may ↔ MayHappen (standing_in self.now)
            (events.Taken b answer.now)) }
    {
        self.standing.is_heard(alloc, b, answer)
    }

    /// Whether this may be the loss of the backend that is waited for.
    pub fn may_lose(&self, b: BackendId, before: u64, after: u64) -> bool
        ensures { IsTrue result ↔ MayHappen (standing_in self.now)
            (events.Faulted b before after) }
    {
        self.standing.is_lost(b, before, after)
    }

    /// Whether the client may be gone where the recovery stands.
    pub fn may_give_up(&self) -> bool
        ensures { result ≡ may_leave (standing_in self.now).due }
    {
        self.standing.may_leave()
    }
}
