//! Where an event leads.
ghost use Rattle.std.specs.Prelude.{◌≡◌, Some, IfOk, OnOk};
ghost use Rattle.backend_trait.specs.Store.{posted};
ghost use Rattle.session_machine.specs.Allowed.{MayHappen as MachineMay};
ghost use Rattle.session_machine.specs.Rules.{after as machine_after};
ghost use Rattle.plain_store.specs.Kept.{IsKept};
ghost use Rattle.plain_store.specs.Meaning.{store_of};
ghost use Rattle.one_copy_model.specs.declared.event.Event.TheVariants as world_events;
ghost use Rattle.one_copy_model.specs.Marks.{marked};
ghost use Rattle.one_copy_model.specs.SingleRun.{after_answer};
ghost use Rattle.one_copy_model.specs.World.{gate_after, after, MayHappen};
ghost use Rattle.world_program.specs.Meaning.{world_of};
ghost use Rattle.world_program.specs.Alike.{AreAlike};
ghost use Rattle.world_program.specs.UnderWay.{IsFit, IsPostKept};
ghost use Rattle.world_program.specs.Steps.{with_gate, with_machine, with_store, with_answer, with_backends, MayMove, IsOfSession};

use crate::data::Replicas;
use crate::gates::gate_moved;
use crate::session::moved;
use backend_trait::{Answer, Request};
use checked_sql::checked_copied;
use one_copy_model::Event;
use plain_store::Database;
use pool_base::{BackendId, NoMemory, SessionId};
use session_machine::SessionEvent;
use std::mem;

fn request_copied(request: &Request) -> Result<Request, NoMemory>
    ensures { IfOk result (λ copy. copy ≡ request.now) }
{
    Ok(match request {
        Request::TakeSnapshot => Request::TakeSnapshot,
        Request::Run(statement) => Request::Run(checked_copied(statement)?),
        Request::Lock(table) => Request::Lock(*table),
        Request::Commit => Request::Commit,
        Request::Rollback => Request::Rollback,
        Request::ReadSerial(table) => Request::ReadSerial(*table),
        Request::SetSerial(table, next) => Request::SetSerial(*table, *next),
    })
}

/// Puts a request of a session, however its transaction stands: the world asks no more.
fn put(store: &mut Database, s: SessionId, request: Request)
    requires { IsKept store.old.catalogue (Some request) }
    ensures { store_of store.new ≡ posted (store_of store.old) s.number request }
{
    let at = s.number as usize;
    drop(mem::replace(&mut store.requests[at], Some(request)));
    store.crossed[at] = false;
}

/// A store behind a post: the requests that are crossed then are marked.
fn store_asked(store: &mut Database, s: SessionId, request: &Request) -> Result<(), NoMemory>
    requires { IsKept store.old.catalogue (Some request.now) }
    ensures { OnOk result (store_of store.new
        ≡ marked (posted (store_of store.old) s.number request.now)) }
{
    let copy = request_copied(request)?;
    put(store, s, copy);
    store.mark()?;
    Ok(())
}

/// A store behind an answer: the requests that are crossed then are marked.
fn store_acted(store: &mut Database, s: SessionId, answer: &Answer) -> Result<(), NoMemory>
    ensures { OnOk result (store_of store.new
        ≡ marked (after_answer (store_of store.old) s.number answer.now)) }
{
    store.act(s, answer)?;
    store.mark()?;
    Ok(())
}

/// The answer that a backend has given to a session and the session has not taken.
fn mailed(mut w: Replicas, s: SessionId, b: BackendId, answer: Option<Answer>) -> Replicas
    ensures { world_of result ≡ with_answer (world_of w) s.number b.number answer }
{
    w.backends[b.number as usize].mail[s.number as usize] = answer;
    w
}

/// A backend is asked.
fn asked(
    mut w: Replicas,
    s: SessionId,
    b: BackendId,
    request: &Request,
) -> Result<Replicas, NoMemory>
    requires { IsKept ((world_of w).store b.number).tables (Some request.now) }
    ensures { IfOk result (λ new. world_of new ≡ with_store (world_of w) b.number
        (marked (posted ((world_of w).store b.number) s.number request.now))) }
{
    store_asked(&mut w.backends[b.number as usize].store, s, request)?;
    Ok(w)
}

/// The backends and the mail behind an event of a session.
fn backends_moved(w: Replicas, s: SessionId, event: &SessionEvent) -> Result<Replicas, NoMemory>
    requires of_session { IsOfSession event.now }
    requires kept { IsPostKept (world_of w) event.now }
    ensures { IfOk result (λ new. world_of new
        ≡ with_backends (world_of w) s.number event.now) }
{
    match event {
        SessionEvent::Posted { b, request } => asked(w, s, *b, request),
        SessionEvent::Taken { b, .. } => Ok(mailed(w, s, *b, None)),
        SessionEvent::Swapped { .. } => unreachable!(),
        SessionEvent::Ordered(_)
        | SessionEvent::Called { .. }
        | SessionEvent::Faulted { .. }
        | SessionEvent::Detached { .. }
        | SessionEvent::Replied { .. }
        | SessionEvent::Ended => Ok(w),
    }
}

/// The gate moves.
fn gated(mut w: Replicas, event: &SessionEvent) -> Replicas
    requires { MayMove (world_of w).gate event.now }
    ensures { world_of result ≡ with_gate (world_of w)
        (gate_after (world_of w).gate event.now) }
{
    gate_moved(&mut w.gate, event);
    w
}

/// The session moves.
fn session_moved(mut w: Replicas, s: SessionId, event: &SessionEvent) -> Result<Replicas, NoMemory>
    requires { MachineMay ((world_of w).machine s.number) event.now }
    ensures { IfOk result (λ new. AreAlike (world_of new) (with_machine (world_of w) s.number
        (machine_after ((world_of w).machine s.number) event.now))) }
{
    moved(&mut w.cores[s.number as usize], event)?;
    Ok(w)
}

/// The world behind an event of a session.
fn session_stepped(w: Replicas, s: SessionId, event: &SessionEvent) -> Result<Replicas, NoMemory>
    requires fit { IsFit (world_of w) }
    requires may { MayHappen (world_of w) (world_events.Of s event.now) }
    ensures { IfOk result (λ new. AreAlike (world_of new)
        (after (world_of w) (world_events.Of s event.now))) }
{
    let gated = gated(w, event);
    let asked = backends_moved(gated, s, event)?;
    session_moved(asked, s, event)
}

/// The store of a backend behind its answer.
fn acted(mut w: Replicas, s: SessionId, b: BackendId, answer: &Answer) -> Result<Replicas, NoMemory>
    ensures { IfOk result (λ new. world_of new ≡ with_store (world_of w) b.number
        (marked (after_answer ((world_of w).store b.number) s.number answer.now))) }
{
    store_acted(&mut w.backends[b.number as usize].store, s, answer)?;
    Ok(w)
}

/// The world behind an act of a backend.
fn backend_acted(
    w: Replicas,
    s: SessionId,
    b: BackendId,
    answer: &Answer,
) -> Result<Replicas, NoMemory>
    ensures { IfOk result (λ new. world_of new
        ≡ after (world_of w) (world_events.Act s b answer.now)) }
{
    let acted = acted(w, s, b, answer)?;
    let copy = answer.clone()?;
    Ok(mailed(acted, s, b, Some(copy)))
}

/// The world behind a loss.
fn backend_lost(mut w: Replicas, b: BackendId) -> Replicas
    ensures { world_of result ≡ after (world_of w) (world_events.Lost b) }
{
    w.backends[b.number as usize].store.lose();
    w
}

/// The world behind an event that may come, but for answers that no session reads any more.
pub fn step(w: Replicas, event: &Event) -> Result<Replicas, NoMemory>
    requires fit { IsFit (world_of w) }
    requires may { MayHappen (world_of w) event.now }
    ensures { IfOk result (λ new. AreAlike (world_of new) (after (world_of w) event.now)) }
{
    match event {
        Event::Of { s, event } => session_stepped(w, *s, event),
        Event::Act { s, b, answer } => backend_acted(w, *s, *b, answer),
        Event::Lost { b } => Ok(backend_lost(w, *b)),
    }
}
