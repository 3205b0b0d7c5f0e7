//! The core of one session.
ghost use Rattle.std.specs.Prelude.{◌≡◌, ◌↔◌, ℤ, true, false, IsTrue, IfOk, IfErr, OnOk, OnErr};
ghost use Rattle.session_orders.specs.declared.order.OrderBody.TheVariants as orders;
ghost use Rattle.session_machine.specs.declared.action.Action.TheVariants as actions;
ghost use Rattle.session_machine.specs.declared.action.SessionEvent.TheVariants as events;
ghost use Rattle.session_engine.specs.declared.ask.Ask.TheVariants as asks;
ghost use Rattle.session_engine.specs.Meaning.{machine_of};
ghost use Rattle.session_engine.specs.Handing.{handed, gate_event, asked_of, IsPost, IsDetach, IsReply, Posts, Detaches};
ghost use Rattle.session_engine.specs.Sound.{IsSound, wants_memory, is_serial_posted, is_statement, is_classed_in};

use crate::ask::Ask;
use crate::standing::Standing;
use backend_trait::{Answer, Request};
use pool_base::{BackendId, GateAnswer, NoMemory, SessionId};
use session_machine::{Cause, ReadPolicy, Status};
use session_orders::{Order, OrderBody, Outcome};
use std::alloc::Global;

/// The machine of one session. Each call tells it what has taken place; what is due next is asked
/// for, and its large part is made where it is used.
///
/// After: where a call answers want of memory, the session stands where it stood. The call is made
/// again, or the session is given up.
#[derive(Drop)]
pub struct Core {
    standing: Standing,
    ghost sound: { ∥ IsSound (machine_of standing) ∥₁ },
    ghost classed: { is_classed_in (machine_of standing).point ≡ true },
}

impl Core {
    ghost use Rattle.session_machine.specs.Rules.{new_machine, after, next_action};
    ghost use Rattle.session_machine.specs.Allowed.{MayHappen, TakesOrder, may_leave};
    ghost use Rattle.session_engine.specs.Cores.{machine_in};

    /// A session at its start, with room for the answers of its chains.
    pub fn new(alloc: Global, id: SessionId, policy: ReadPolicy) -> Result<Core, NoMemory>
        ensures { IfOk result (λ core. machine_in core ≡ new_machine id policy) }
    {
        Ok(Core {
            standing: Standing::new(alloc, id, policy)?,
        })
    }

    /// Where it stands.
    pub fn standing(&self) -> &Standing
        ensures { machine_of result.now ≡ machine_in self.now }
    {
        &self.standing
    }

    /// What is due.
    pub fn asks(&self) -> Ask
        ensures is { result ≡ asked_of (next_action (machine_in self.now)) }

        // What the calls below want to know of it.
        ensures post { (b : BackendId) → result ≡ asks.Post b
            → IsPost (next_action (machine_in self.now)) }
        ensures detach { (b : BackendId) → result ≡ asks.Detach b
            → IsDetach (next_action (machine_in self.now)) }
        ensures reply { result ≡ asks.Reply → IsReply (next_action (machine_in self.now)) }
        ensures end { result ≡ asks.End → next_action (machine_in self.now) ≡ actions.End }
    {
        self.standing.asks()
    }

    /// The request that is to be posted. It wants memory for a statement alone.
    pub fn request(&self) -> Result<Request, NoMemory>
        requires { IsPost (next_action (machine_in self.now)) }
        ensures is { IfOk result (λ request. Posts (next_action (machine_in self.now)) request) }
        ensures want { IfErr result (λ _. wants_memory (machine_in self.now).point ≡ true) }
        ensures leaves { IfErr result (λ _. is_serial_posted (machine_in self.now).point ≡ false
            → may_leave (machine_in self.now).point ≡ true) }
    {
        self.standing.request()
    }

    /// The cause for which the backend is to be detached. It wants memory for the rows of a SELECT
    /// that differ alone.
    pub fn cause(&self) -> Result<Cause, NoMemory>
        requires { IsDetach (next_action (machine_in self.now)) }
        ensures is { IfOk result (λ cause. Detaches (next_action (machine_in self.now)) cause) }
        ensures want { IfErr result (λ _. wants_memory (machine_in self.now).point ≡ true) }
        ensures leaves { IfErr result (λ _. is_serial_posted (machine_in self.now).point ≡ false
            → may_leave (machine_in self.now).point ≡ true) }
    {
        self.standing.cause()
    }

    /// Takes an order at rest. A statement wants memory for its form at its moment: where that is
    /// refused, the order is not taken.
    pub fn order(&mut self, order: Order) -> Result<(), NoMemory>
        requires { MayHappen (machine_in self.old) (events.Ordered order) }
        ensures state { OnOk result (machine_in self.new ≡
            after (machine_in self.old) (events.Ordered order)) }
        ensures as_before { OnErr result (machine_in self.new ≡ machine_in self.old) }
        ensures want { IfErr result (λ _. is_statement order.body ≡ true) }
    {
        self.standing.ordered(order)
    }

    /// Takes the gate's answer to the call or to the detachment that was due.
    pub fn gate_answer(&mut self, answer: GateAnswer)
        requires { MayHappen (machine_in self.old)
            (gate_event (next_action (machine_in self.old)) answer) }
        ensures { machine_in self.new ≡ after (machine_in self.old)
            (gate_event (next_action (machine_in self.old)) answer) }
    {
        self.standing.gate_answered(answer);
    }

    /// The request that was due is posted.
    pub fn posted(&mut self)
        requires { IsPost (next_action (machine_in self.old)) }
        ensures { (b : BackendId) → (request : Request) → machine_in self.new ≡
            after (machine_in self.old) (events.Posted b request) }
    {
        self.standing.posted();
    }

    /// Takes the answer of the backend that was waited for.
    pub fn backend_answer(&mut self, b: BackendId, answer: Answer)
        requires { MayHappen (machine_in self.old) (events.Taken b answer) }
        ensures { machine_in self.new ≡ after (machine_in self.old) (events.Taken b answer) }
    {
        self.standing.taken(b, answer);
    }

    /// The backend that was waited for is lost: its count of faults before and after.
    pub fn backend_lost(&mut self, b: BackendId, before: u64, after: u64)
        requires { MayHappen (machine_in self.old) (events.Faulted b before after) }
        ensures { machine_in self.new ≡ Rattle.session_machine.specs.Rules.after
            (machine_in self.old) (events.Faulted b before after) }
    {
        self.standing.faulted(before, after);
    }

    /// The reply to the client. It has been given: the session is at rest.
    pub fn reply(&mut self) -> (Outcome, Status)
        requires { IsReply (next_action (machine_in self.old)) }
        ensures reply { actions.Reply result.0 result.1 ≡ next_action (machine_in self.old) }
        ensures rest { machine_in self.new ≡ handed (machine_in self.old) }
    {
        self.standing.reply()
    }

    /// The session has ended: its number has a new machine.
    pub fn end(&mut self)
        requires { next_action (machine_in self.old) ≡ actions.End }
        ensures { machine_in self.new ≡ handed (machine_in self.old) }
    {
        self.standing.end_here();
    }

    /// The client is gone, wherever the session stands; no request may be pending.
    pub fn give_up(&mut self)
        requires { may_leave (machine_in self.old).point ≡ true }
        ensures { (moment : ℤ) → machine_in self.new ≡ after (machine_in self.old)
            (events.Ordered (record { moment = moment; body = orders.Leave })) }
    {
        self.standing.left();
    }

    /// Whether the session takes that order where it stands.
    pub fn may_order(&self, body: &OrderBody) -> bool
        ensures { IsTrue result ↔ TakesOrder (machine_in self.now) body.now }
    {
        self.standing.takes_order(body)
    }

    /// Whether this may be the gate's answer to what is due.
    pub fn may_gate_answer(&self, answer: &GateAnswer) -> bool
        ensures { IsTrue result ↔ MayHappen (machine_in self.now)
            (gate_event (next_action (machine_in self.now)) answer.now) }
    {
        self.standing.is_answered(answer)
    }

    /// Whether this may be the answer of the backend that is waited for.
    pub fn may_hear(&self, b: BackendId, answer: &Answer) -> bool
        ensures { IsTrue result ↔ MayHappen (machine_in self.now) (events.Taken b answer.now) }
    {
        self.standing.is_heard(b, answer)
    }

    /// Whether this may be the loss of the backend that is waited for.
    pub fn may_lose(&self, b: BackendId, before: u64, after: u64) -> bool
        ensures { IsTrue result ↔ MayHappen (machine_in self.now)
            (events.Faulted b before after) }
    {
        self.standing.is_lost(b, before, after)
    }

    /// Whether the client may be gone where the session stands.
    pub fn may_give_up(&self) -> bool
        ensures { result ≡ may_leave (machine_in self.now).point }
    {
        self.standing.may_leave()
    }
}
