//! The event of a line.
ghost use Rattle.std.specs.Prelude.{◌≡◌, ◌↔◌, IfOk, IsTrue};
ghost use Rattle.schema.specs.Grammar.{IsWithin};
ghost use Rattle.one_copy_model.specs.World.{MayHappen};
ghost use Rattle.world_program.specs.Meaning.{world_of};
ghost use Rattle.play_laws.specs.Lines.{line_of};

use crate::answers::answer;
use crate::due::due_at;
use crate::fault::LineFault;
use crate::kind::{Kind, kind_of};
use crate::orders::order;
use crate::view::has_line;
use crate::words::{backend, number, session, word};
use catalogue::Catalogue;
use one_copy_model::Event;
use pool_base::{BackendId, SessionId};
use session_machine::SessionEvent;
use std::alloc::Global;
use world_program::{Replicas, may_happen};

fn ordered(alloc: Global, tables: &Catalogue, rest: &[u8]) -> Result<Event, LineFault>
    requires { IsWithin tables.now }
{
    let (s, rest) = session(rest)?;
    let order = order(alloc, tables, word(b" ", rest)?)?;
    Ok(Event::Of {
        s,
        event: SessionEvent::Ordered(order),
    })
}

fn answered(alloc: Global, s: SessionId, b: BackendId, rest: &[u8]) -> Result<Event, LineFault> {
    let answer = answer(alloc, rest)?;
    Ok(Event::Act { s, b, answer })
}

fn acted_for(alloc: Global, s: SessionId, rest: &[u8]) -> Result<Event, LineFault> {
    let (b, rest) = backend(rest)?;
    answered(alloc, s, b, word(b" ", rest)?)
}

fn acted(alloc: Global, rest: &[u8]) -> Result<Event, LineFault> {
    let (s, rest) = session(rest)?;
    acted_for(alloc, s, word(b" ", rest)?)
}

fn lost(rest: &[u8]) -> Result<Event, LineFault> {
    let (b, _) = backend(rest)?;
    Ok(Event::Lost { b })
}

fn counted(s: SessionId, b: BackendId, rest: &[u8]) -> Result<Event, LineFault> {
    let (before, rest) = number(rest)?;
    let (after, _) = number(word(b" ", rest)?)?;
    Ok(Event::Of {
        s,
        event: SessionEvent::Faulted { b, before, after },
    })
}

fn faulted_at(s: SessionId, rest: &[u8]) -> Result<Event, LineFault> {
    let (b, rest) = backend(rest)?;
    counted(s, b, word(b" ", rest)?)
}

fn faulted(rest: &[u8]) -> Result<Event, LineFault> {
    let (s, rest) = session(rest)?;
    faulted_at(s, word(b" ", rest)?)
}

fn found(s: SessionId, event: Option<SessionEvent>) -> Result<Event, LineFault> {
    match event {
        Some(event) => Ok(Event::Of { s, event }),
        None => Err(LineFault::NotDue),
    }
}

/// The event of that kind that is due at the session that the line names.
fn due(w: &Replicas, kind: Kind, rest: &[u8]) -> Result<Event, LineFault> {
    let (s, _) = session(rest)?;
    found(s, due_at(w, s, kind)?)
}

/// An event that may have the line.
fn likely(
    alloc: Global,
    tables: &Catalogue,
    w: &Replicas,
    kind: Kind,
    rest: &[u8],
) -> Result<Event, LineFault>
    requires { IsWithin tables.now }
{
    match kind {
        Kind::Order => ordered(alloc, tables, rest),
        Kind::Act => acted(alloc, rest),
        Kind::Lost => lost(rest),
        Kind::Fault => faulted(rest),
        Kind::Gate | Kind::Post | Kind::Take | Kind::Detach | Kind::Reply | Kind::End => {
            due(w, kind, rest)
        }
    }
}

/// What another line than that of the event says of this one.
fn other_line(kind: Kind) -> LineFault {
    match kind {
        Kind::Order | Kind::Act | Kind::Lost | Kind::Fault => LineFault::BadLine,
        Kind::Gate | Kind::Post | Kind::Take | Kind::Detach | Kind::Reply | Kind::End =>
            LineFault::NotDue,
    }
}

/// Whether the line, with its end, is that of the event, and the event may come.
fn check_event(
    alloc: Global,
    tables: &Catalogue,
    w: &Replicas,
    kind: Kind,
    event: &Event,
    line: &[u8],
) -> Result<(), LineFault>
    ensures { IfOk result (λ _. (line_of tables.now event.now ≡ line.now)
        × MayHappen (world_of w.now) event.now) }
{
    if !has_line(alloc, tables, event, line)? {
        return Err(other_line(kind));
    }
    if !may_happen(w, event)? {
        return Err(LineFault::NotDue);
    }
    Ok(())
}

/// An event that may come and has this line, with its end.
pub(crate) fn read_event(
    alloc: Global,
    tables: &Catalogue,
    w: &Replicas,
    line: &[u8],
) -> Result<Event, LineFault>
    requires { IsWithin tables.now }
    ensures { IfOk result (λ event. (line_of tables.now event ≡ line.now)
        × MayHappen (world_of w.now) event) }
{
    let Some((kind, rest)) = kind_of(line) else {
        return Err(LineFault::BadLine);
    };
    let event = likely(alloc, tables, w, kind, rest)?;
    match check_event(alloc, tables, w, kind, &event, line) {
        Ok(()) => Ok(event),
        Err(fault) => {
            drop(event);
            Err(fault)
        }
    }
}
