//! Which events may come.
ghost use Rattle.std.specs.Prelude.{◌≡◌, ◌↔◌, ◌&&◌, not, IfOk, IsTrue, Some, None, slice_get};
ghost use Rattle.session_machine.specs.declared.action.SessionEvent.TheVariants as events;
ghost use Rattle.session_machine.specs.Allowed.{HasItsBit, MayHappen as MachineMay};
ghost use Rattle.session_machine.specs.Rules.{moment_at};
ghost use Rattle.session_engine.specs.Meaning.{session_of};
ghost use Rattle.one_copy_model.specs.declared.event.Event.TheVariants as world_events;
ghost use Rattle.one_copy_model.specs.World.{IsRunnableIn, IsOrderable, Lets, MayHappen};
ghost use Rattle.session_machine.specs.Classes.{work_in};
ghost use Rattle.session_machine.specs.Rules.{rewritten};
ghost use Rattle.classifier.specs.Classes.{WritesOneOf64};
ghost use Rattle.world_program.specs.Meaning.{world_of};
ghost use Rattle.world_program.specs.Backends.{is_waiting, is_lost, is_answer, is_mailed};

use crate::data::{Replica, Replicas};
use crate::gates::gate_gives;
use crate::takes::takes;
use backend_trait::{Answer, Catalogue, Checked, is_runnable};
use checked_sql::checked_copied;
use one_copy_model::Event;
use plain_store::may_act;
use pool_base::{BackendId, Boxed, GateCall, NoMemory, SessionId};
use session_engine::Standing;
use session_machine::{GatePhase, SessionEvent, Status, Work, rewritten, work_of};
use session_orders::{Order, OrderBody};

/// The moment of a statement that is ordered then.
fn moment_at(standing: &Standing, ordered: i64) -> i64
    ensures { result ≡ moment_at standing.now.status standing.now.gate standing.now.moment
        ordered }
{
    match standing.status {
        Status::Idle => match standing.gate {
            GatePhase::Out => ordered,
            GatePhase::InSnapshot | GatePhase::Live(_, _) | GatePhase::InCommit => standing.moment,
        },
        Status::InBlock | Status::Failed => standing.moment,
    }
}

/// Whether a statement that is rewritten, if it is, can be run by stores of the tables.
fn is_runnable_in(tables: &Catalogue, work: &Option<Work>) -> bool
    ensures { IsTrue result ↔ IsRunnableIn tables.now work.now }
{
    match work {
        None => true,
        Some(work) => is_runnable(tables, work.statement.get()),
    }
}

/// Whether a statement can be run at a moment.
fn runs_at(tables: &Catalogue, moment: i64, checked: &Boxed<Checked>) -> Result<bool, NoMemory>
    requires { WritesOneOf64 checked.now.body }
    ensures { IfOk result (λ may. IsTrue may
        ↔ IsRunnableIn tables.now (rewritten moment (work_in checked.now))) }
{
    let copy = Boxed::new(checked.allocator(), checked_copied(checked.get())?)?;
    let work = rewritten(moment, work_of(copy))?;
    Ok(is_runnable_in(tables, &work))
}

fn is_orderable(tables: &Catalogue, standing: &Standing, order: &Order) -> Result<bool, NoMemory>
    requires { HasItsBit order.now.body }
    ensures { IfOk result (λ may. IsTrue may ↔ IsOrderable tables.now (session_of standing.now)
        order.now.moment order.now.body) }
{
    match &order.body {
        OrderBody::Statement(checked) => {
            runs_at(tables, moment_at(standing, order.moment), checked)
        }
        OrderBody::Begin
        | OrderBody::Commit
        | OrderBody::Rollback
        | OrderBody::Settle
        | OrderBody::ShowNodes
        | OrderBody::Recover(_)
        | OrderBody::Refuse { .. }
        | OrderBody::Leave => Ok(true),
    }
}

/// Whether a request of the session waits at the backend.
fn is_waiting(replica: &Replica, s: SessionId) -> bool
    ensures { result ≡ is_waiting (Some replica.now) s.number }
{
    match &replica.store.requests[s.number as usize] {
        Some(_) => true,
        None => false,
    }
}

fn is_answer(mailed: &Option<Answer>, answer: &Answer) -> bool
    ensures { result ≡ is_answer mailed.now answer.now }
{
    match mailed {
        Some(mailed) => *mailed == *answer,
        None => false,
    }
}

/// Whether this is the answer that the backend has given to the session.
fn is_mailed(replica: &Replica, s: SessionId, answer: &Answer) -> bool
    ensures { result ≡ is_mailed (Some replica.now) s.number answer.now }
{
    is_answer(&replica.mail[s.number as usize], answer)
}

/// Whether the session is at rest at the backend.
fn lets_post(w: &Replicas, s: SessionId, b: BackendId) -> bool
    ensures { result ≡ not (is_waiting (slice_get w.now.backends.items b.number) s.number) }
{
    !is_waiting(&w.backends[b.number as usize], s)
}

fn lets_take(w: &Replicas, s: SessionId, b: BackendId, answer: &Answer) -> bool
    ensures { result ≡ is_mailed (slice_get w.now.backends.items b.number) s.number answer.now }
{
    is_mailed(&w.backends[b.number as usize], s, answer)
}

/// Whether the backend is lost, and was still to answer the session.
fn lets_fault(w: &Replicas, s: SessionId, b: BackendId) -> bool
    ensures { result ≡ (is_lost (slice_get w.now.backends.items b.number)
        && is_waiting (slice_get w.now.backends.items b.number) s.number) }
{
    w.backends[b.number as usize].store.is_lost && is_waiting(&w.backends[b.number as usize], s)
}

fn lets_order(w: &Replicas, s: SessionId, order: &Order) -> Result<bool, NoMemory>
    requires { HasItsBit order.now.body }
    ensures { IfOk result (λ may. IsTrue may
        ↔ Lets (world_of w.now) s.number (events.Ordered order.now)) }
{
    is_orderable(&w.catalogue, w.cores[s.number as usize].standing(), order)
}

/// Whether the rest of the world lets an event come that the session's rules let.
fn lets(w: &Replicas, s: SessionId, event: &SessionEvent) -> Result<bool, NoMemory>
    requires { MachineMay ((world_of w.now).machine s.number) event.now }
    ensures { IfOk result (λ may. IsTrue may ↔ Lets (world_of w.now) s.number event.now) }
{
    match event {
        SessionEvent::Ordered(order) => lets_order(w, s, order),
        SessionEvent::Called { call, answer } => Ok(gate_gives(&w.gate, *call, *answer)),
        SessionEvent::Posted { b, .. } => Ok(lets_post(w, s, *b)),
        SessionEvent::Taken { b, answer } => Ok(lets_take(w, s, *b, answer)),
        SessionEvent::Faulted { b, .. } => Ok(lets_fault(w, s, *b)),
        SessionEvent::Detached { b, answer, .. } => {
            Ok(gate_gives(&w.gate, GateCall::Detach { b: *b }, *answer))
        }
        SessionEvent::Swapped { .. } => Ok(false),
        SessionEvent::Replied { .. } | SessionEvent::Ended => Ok(true),
    }
}

/// Whether the session's rules let it.
fn takes_there(w: &Replicas, s: SessionId, event: &SessionEvent) -> Result<bool, NoMemory>
    ensures { IfOk result (λ may. IsTrue may
        ↔ MachineMay ((world_of w.now).machine s.number) event.now) }
{
    takes(&w.cores[s.number as usize], event)
}

fn of_session(w: &Replicas, s: SessionId, event: &SessionEvent) -> Result<bool, NoMemory>
    ensures { IfOk result (λ may. IsTrue may
        ↔ MayHappen (world_of w.now) (world_events.Of s event.now)) }
{
    if !takes_there(w, s, event)? {
        return Ok(false);
    }
    lets(w, s, event)
}

fn acts(w: &Replicas, s: SessionId, b: BackendId, answer: &Answer) -> Result<bool, NoMemory>
    ensures { IfOk result (λ may. IsTrue may ↔ MayHappen (world_of w.now)
        (world_events.Act s b answer.now)) }
{
    may_act(&w.backends[b.number as usize].store, s, answer)
}

fn loses(w: &Replicas, b: BackendId) -> bool
    ensures { IsTrue result ↔ MayHappen (world_of w.now) (world_events.Lost b) }
{
    !w.backends[b.number as usize].store.is_lost
}

/// Whether an event may come.
pub fn may_happen(w: &Replicas, event: &Event) -> Result<bool, NoMemory>
    ensures { IfOk result (λ may. IsTrue may ↔ MayHappen (world_of w.now) event.now) }
{
    match event {
        Event::Of { s, event } => of_session(w, *s, event),
        Event::Act { s, b, answer } => acts(w, *s, *b, answer),
        Event::Lost { b } => Ok(loses(w, *b)),
    }
}
