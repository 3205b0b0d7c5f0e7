//! The bytes that clients send, and how they reach the wire.
ghost use Rattle.std.specs.Prelude.{◌≡◌, ◌++◌, IfOk, OnOk, Some, map};
ghost use Rattle.pg_messages.specs.Client.{Fits};
ghost use Rattle.pgproto.specs.Line.{line_of};
ghost use Rattle.pgproto.specs.Spelling.{IsOfGrammar};
ghost use Rattle.session_wire.specs.Shown.{shown, with_piece};
ghost use Rattle.session_player.specs.Sent.{raw_of, sent_of, spelling_of};

use pg_messages::{ClientMessage, write_client};
use pgproto::{ScriptLine, message_of};
use pool_base::{List, NoMemory};
use session_wire::Wire;
use std::alloc::Global;

/// How the clients' bytes come.
#[derive(Clone, Copy)]
pub(crate) enum Cut {
    /// Whole messages.
    Whole,
    /// In pieces of so many bytes.
    Pieces(usize),
}

/// Gives the wire of a session the bytes of its client. However they are cut, it has them all.
pub(crate) fn feed(wire: &mut Wire, cut: Cut, bytes: &[u8]) -> Result<(), NoMemory>
    ensures { OnOk result (shown wire.new ≡ with_piece (shown wire.old) bytes.now) }
{
    match cut {
        Cut::Whole => wire.feed(bytes),
        Cut::Pieces(size) => feed_pieces(wire, size, bytes),
    }
}

fn feed_pieces(wire: &mut Wire, size: usize, bytes: &[u8]) -> Result<(), NoMemory>
    ensures { OnOk result (shown wire.new ≡ with_piece (shown wire.old) bytes.now) }
{
    let mut rest = bytes;
    while size > 0 && rest.len() > size {
        let (piece, after) = rest.split_at(size);
        wire.feed(piece)?;
        rest = after;
    }
    wire.feed(rest)
}

/// The bytes of a `raw` line; none of another.
fn raw_bytes(line: &ScriptLine) -> &[u8]
    ensures { result.now ≡ raw_of (line_of line.now) }
{
    match line {
        ScriptLine::Raw(_, bytes) => bytes.as_slice(),
        ScriptLine::Session(_)
        | ScriptLine::Lose(_)
        | ScriptLine::Cut(_)
        | ScriptLine::Moment(_)
        | ScriptLine::Hold(_)
        | ScriptLine::Go(_)
        | ScriptLine::Until(_, _)
        | ScriptLine::Query(_, _)
        | ScriptLine::Parse { .. }
        | ScriptLine::Describe { .. }
        | ScriptLine::Bind { .. }
        | ScriptLine::Execute { .. }
        | ScriptLine::Close { .. }
        | ScriptLine::Flush(_)
        | ScriptLine::Sync(_)
        | ScriptLine::Terminate(_) => &[],
    }
}

/// The bytes that a line sends.
pub(crate) fn sent_of(alloc: Global, line: &ScriptLine) -> Result<List<u8>, NoMemory>
    requires { IsOfGrammar (line_of line.now) }
    ensures { IfOk result (λ bytes. bytes ≡ sent_of (line_of line.now)) }
{
    let mut bytes = List::from_slice(alloc, raw_bytes(line))?;
    if let Some(message) = message_of(alloc, line)? {
        put(message, &mut bytes)?;
    }
    Ok(bytes)
}

/// Puts a message behind the bytes.
fn put(message: ClientMessage, onto: &mut List<u8>) -> Result<(), NoMemory>
    requires { Fits message }
    ensures { OnOk result (onto.new ≡ onto.old ++ spelling_of (Some message)) }
{
    let written = write_client(&message, onto);
    drop(message);
    written
}
