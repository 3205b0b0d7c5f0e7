//! Where an event leads a session.
ghost use Rattle.std.specs.Prelude.{◌≡◌, IfOk, OnOk};
ghost use Rattle.session_machine.specs.declared.action.SessionEvent.TheVariants as events;
ghost use Rattle.session_machine.specs.Allowed.{MayHappen};
ghost use Rattle.session_machine.specs.Rules.{after};
ghost use Rattle.session_engine.specs.Cores.{machine_in};
ghost use Rattle.session_engine.specs.Tidying.{tidied};

use backend_trait::{Answer, Request};
use checked_sql::checked_copied;
use pool_base::{BackendId, Boxed, GateAnswer, GateCall, NoMemory};
use session_engine::Core;
use session_machine::{Cause, SessionEvent, Status};
use session_orders::{Order, OrderBody, Outcome};

fn body_copied(body: &OrderBody) -> Result<OrderBody, NoMemory>
    ensures { IfOk result (λ copy. copy ≡ body.now) }
{
    Ok(match body {
        OrderBody::Statement(checked) => {
            let copy = checked_copied(checked.get())?;
            OrderBody::Statement(Boxed::new(checked.allocator(), copy)?)
        }
        OrderBody::Begin => OrderBody::Begin,
        OrderBody::Commit => OrderBody::Commit,
        OrderBody::Rollback => OrderBody::Rollback,
        OrderBody::Settle => OrderBody::Settle,
        OrderBody::ShowNodes => OrderBody::ShowNodes,
        OrderBody::Recover(b) => OrderBody::Recover(*b),
        OrderBody::Refuse { code, name } => OrderBody::Refuse {
            code: *code,
            name: name.clone()?,
        },
        OrderBody::Leave => OrderBody::Leave,
    })
}

/// A session takes an order.
fn ordered(core: &mut Core, order: &Order) -> Result<(), NoMemory>
    requires { MayHappen (machine_in core.old) (events.Ordered order.now) }
    ensures { OnOk result (machine_in core.new
        ≡ after (machine_in core.old) (events.Ordered order.now)) }
{
    let body = body_copied(&order.body)?;
    core.order(Order {
        moment: order.moment,
        body,
    })
}

/// The gate answers a call.
fn called(core: &mut Core, call: GateCall, answer: GateAnswer)
    requires { MayHappen (machine_in core.old) (events.Called call answer) }
    ensures { machine_in core.new ≡ after (machine_in core.old) (events.Called call answer) }
{
    let _due = call;
    core.gate_answer(answer);
}

/// The gate answers a detachment.
fn detached(core: &mut Core, b: BackendId, cause: &Cause, answer: GateAnswer)
    requires { MayHappen (machine_in core.old) (events.Detached b cause.now answer) }
    ensures { machine_in core.new
        ≡ after (machine_in core.old) (events.Detached b cause.now answer) }
{
    let _due = b;
    let _cause = cause;
    core.gate_answer(answer);
}

/// A request is posted.
fn posted(core: &mut Core, b: BackendId, request: &Request)
    requires { MayHappen (machine_in core.old) (events.Posted b request.now) }
    ensures { machine_in core.new ≡ after (machine_in core.old) (events.Posted b request.now) }
{
    let _due = b;
    let _request = request;
    core.posted();
}

/// An answer is taken.
fn taken(core: &mut Core, b: BackendId, answer: &Answer) -> Result<(), NoMemory>
    requires { MayHappen (machine_in core.old) (events.Taken b answer.now) }
    ensures { OnOk result (machine_in core.new
        ≡ after (machine_in core.old) (events.Taken b answer.now)) }
{
    let copy = answer.clone()?;
    core.backend_answer(b, copy);
    Ok(())
}

/// The reply is given.
fn replied(core: &mut Core, outcome: &Outcome, status: Status)
    requires { MayHappen (machine_in core.old) (events.Replied outcome.now status) }
    ensures { tidied (machine_in core.new)
        ≡ tidied (after (machine_in core.old) (events.Replied outcome.now status)) }
{
    let _outcome = outcome;
    let _status = status;
    let _given = core.reply();
}

/// The session ends.
fn ended(core: &mut Core)
    requires { MayHappen (machine_in core.old) events.Ended }
    ensures { machine_in core.new ≡ after (machine_in core.old) events.Ended }
{
    core.end();
}

/// An event takes place at a session. After want of memory nothing is said of it.
pub(crate) fn moved(core: &mut Core, event: &SessionEvent) -> Result<(), NoMemory>
    requires { MayHappen (machine_in core.old) event.now }
    ensures { OnOk result (tidied (machine_in core.new)
        ≡ tidied (after (machine_in core.old) event.now)) }
{
    match event {
        SessionEvent::Ordered(order) => ordered(core, order)?,
        SessionEvent::Called { call, answer } => called(core, *call, *answer),
        SessionEvent::Posted { b, request } => posted(core, *b, request),
        SessionEvent::Taken { b, answer } => taken(core, *b, answer)?,
        SessionEvent::Faulted { b, before, after } => core.backend_lost(*b, *before, *after),
        SessionEvent::Detached { b, cause, answer } => detached(core, *b, cause, *answer),
        SessionEvent::Swapped { .. } => (),
        SessionEvent::Replied { outcome, status } => replied(core, outcome, *status),
        SessionEvent::Ended => ended(core),
    }
    Ok(())
}
