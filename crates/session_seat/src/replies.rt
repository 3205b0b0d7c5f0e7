//! The lines of what a session's client is told.
ghost use Rattle.std.specs.Prelude.{◌≡◌, ◌<◌, ◌≤◌, ◌++◌, List as Sequence, ℕ, length, IfOk, IfErr, OnOk};
ghost use Rattle.pg_messages.specs.declared.server.ServerMessage.{ServerMessage as Message};
ghost use Rattle.pg_messages.specs.Frame.{BeginsWith};
ghost use Rattle.pg_messages.specs.Server.{IsServerForm};
ghost use Rattle.session_wire.specs.Shown.{shown};
ghost use Rattle.session_seat.specs.Speech.{IsShown, IsWritten, closed_line, message_line, no_place};
ghost use Rattle.session_seat.specs.Stops.{IsGarbled, IsNoMessage};
ghost use Rattle.session_seat.specs.declared.fault.StepFault.TheVariants.{Stopped};

use crate::book::Book;
use crate::fault::StepFault;
use pg_messages::{Part, Read, ServerMessage, read_server};
use pgproto::render;
use pool_base::{List, NoMemory, SessionId};
use session_wire::Wire;
use std::alloc::Global;

/// Puts the lines of what waits to be written, and drops it from the wire.
pub(crate) fn put_output(
    alloc: Global,
    s: SessionId,
    wire: &mut Wire,
    book: &mut Book,
) -> Result<(), StepFault>
    ensures written { OnOk result (IsWritten s.number (shown wire.old) (shown wire.new)
        book.old.lines book.new.lines) }
    ensures events { book.new.events ≡ book.old.events }
    ensures journal { book.new.journal ≡ book.old.journal }
    ensures stopped { IfErr result (λ e. e ≡ Stopped → IsGarbled (shown wire.old).output) }
{
    put_replies(alloc, s, wire.output(), book)?;
    let count = wire.output().len();
    wire.written(count);
    Ok(())
}

/// Puts the lines of whole messages.
fn put_replies(alloc: Global, s: SessionId, bytes: &[u8], book: &mut Book) -> Result<(), StepFault>
    ensures shows { OnOk result ((text : Sequence ℕ) × IsShown s.number bytes.now text
        × (book.new.lines ≡ book.old.lines ++ text)) }
    ensures events { book.new.events ≡ book.old.events }
    ensures journal { book.new.journal ≡ book.old.journal }
    ensures stopped { IfErr result (λ e. e ≡ Stopped → IsGarbled bytes.now) }
{
    let mut rest = bytes;
    'replies: while !rest.is_empty() {
        let length = put_reply(alloc, s, rest, book)?;
        if length == 0 {
            return Err(StepFault::Stopped);
        }
        rest = rest.split_at(length).1;
    }
    Ok(())
}

/// Puts the line of the message at the front, and gives its length; 0 where there is no whole one.
fn put_reply(alloc: Global, s: SessionId, bytes: &[u8], book: &mut Book) -> Result<usize, NoMemory>
    ensures events { book.new.events ≡ book.old.events }
    ensures journal { book.new.journal ≡ book.old.journal }
    ensures shows { IfOk result (λ taken. 0 < taken → (message : Message)
        × BeginsWith IsServerForm message taken bytes.now
        × (book.new.lines ≡ book.old.lines ++ message_line s.number message)) }
    ensures within { IfOk result (λ taken. taken ≤ length bytes.now) }
    ensures none { IfOk result (λ taken. taken ≡ 0 → IsNoMessage bytes.now) }
{
    match read_server(alloc, bytes)? {
        Read::Whole { message, length } => {
            let line = render(alloc, s, &message)?;
            book.say(line.as_bytes())?;
            Ok(length)
        }
        Read::More | Read::Bad { .. } | Read::TooLong { .. } => Ok(0),
    }
}

fn part(alloc: Global, tag: u8, text: &[u8]) -> Result<Part, NoMemory>
    ensures { IfOk result (λ part. part ≡ record { tag = tag; text = text.now }) }
{
    Ok(Part {
        tag,
        text: List::from_slice(alloc, text)?,
    })
}

/// The error by which a client that finds no place is refused.
fn no_place(alloc: Global) -> Result<ServerMessage, NoMemory>
    ensures { IfOk result (λ message. message ≡ no_place) }
{
    let mut parts = List::new(alloc);
    parts.push(part(alloc, b'S', b"FATAL")?)?;
    parts.push(part(alloc, b'V', b"FATAL")?)?;
    parts.push(part(alloc, b'C', b"53300")?)?;
    parts.push(part(alloc, b'M', b"too many clients")?)?;
    Ok(ServerMessage::Error { parts })
}

/// Puts the lines by which a client that finds no place is refused.
pub fn put_no_place(alloc: Global, s: SessionId, book: &mut Book) -> Result<(), NoMemory>
    ensures lines { OnOk result (book.new.lines ≡ book.old.lines
        ++ (message_line s.number no_place ++ closed_line s.number)) }
    ensures events { book.new.events ≡ book.old.events }
    ensures journal { book.new.journal ≡ book.old.journal }
{
    let message = no_place(alloc)?;
    let line = render(alloc, s, &message)?;
    book.say(line.as_bytes())?;
    book.say_of(alloc, s, "closed")
}
