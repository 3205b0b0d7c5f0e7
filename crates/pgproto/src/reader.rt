//! The reader of one line.
ghost use Rattle.std.specs.Prelude.{◌≡◌, ℕ, Some, IfOk};
ghost use Rattle.pgproto.specs.Line.{IsLine, IsSmall, Line, line_of, place_of};
ghost use Rattle.pgproto.specs.Reading.{Gives, front, spaced_at};
ghost use Rattle.pgproto.specs.LineReading.{answer_at, cut_line_at, ended, letter_at, line_at, lose_line_at, moment_line_at, numbered_at, order_at, place_at, post_at, raw_at, session_line_at, target_at, until_at};

use crate::line::{Mark, ScriptLine};
use crate::messages::message;
use crate::parts::{backend, session};
use crate::stop::Stop;
use crate::words::{hex, number, string, word};
use pool_base::SessionId;
use std::alloc::Global;

/// The line that the bytes are, without its end.
pub(crate) fn line(alloc: Global, bytes: &[u8]) -> Result<ScriptLine, Stop>
    ensures found { IfOk result (λ l. IsLine (line_of l) bytes.now) }
    ensures small { IfOk result (λ l. IsSmall (line_of l)) }
    ensures only { (l : Line) → IsLine l bytes.now → IsSmall l → Gives line_of result (Some l) }
{
    exact_line(alloc, bytes)
}

#[tactic(auto, unfolding(crate::specs::LineReading::line_at))]
fn exact_line(alloc: Global, bytes: &[u8]) -> Result<ScriptLine, Stop>
    ensures { Gives line_of result (line_at bytes.now) }
{
    match bytes {
        [b's', ..] => session_line(bytes),
        [b'l', ..] => lose_line(bytes),
        [b'c', ..] => cut_line(bytes),
        [b'm', ..] => moment_line(alloc, bytes),
        _ => numbered(alloc, bytes),
    }
}

/// A line that has come to its end.
pub(crate) fn ended(line: ScriptLine, rest: &[u8]) -> Result<ScriptLine, Stop>
    ensures { Gives line_of result (ended (line_of line) rest.now) }
{
    match rest {
        [] => Ok(line),
        _ => {
            drop(line);
            Err(Stop::NotALine)
        }
    }
}

fn ended_mark(mark: Mark, rest: &[u8]) -> Result<Mark, Stop>
    ensures { Gives place_of result (ended (place_of mark) rest.now) }
{
    match rest {
        [] => Ok(mark),
        _ => Err(Stop::NotALine),
    }
}

#[tactic(auto, unfolding(crate::specs::LineReading::session_line_at))]
fn session_line(bytes: &[u8]) -> Result<ScriptLine, Stop>
    ensures { Gives line_of result (session_line_at bytes.now) }
{
    let rest = word(b"session ", bytes)?;
    let (s, rest) = session(rest)?;
    ended(ScriptLine::Session(s), rest)
}

#[tactic(auto, unfolding(crate::specs::LineReading::lose_line_at))]
fn lose_line(bytes: &[u8]) -> Result<ScriptLine, Stop>
    ensures { Gives line_of result (lose_line_at bytes.now) }
{
    let rest = word(b"lose ", bytes)?;
    let (b, rest) = backend(rest)?;
    ended(ScriptLine::Lose(b), rest)
}

#[tactic(auto, unfolding(crate::specs::LineReading::cut_line_at))]
fn cut_line(bytes: &[u8]) -> Result<ScriptLine, Stop>
    ensures { Gives line_of result (cut_line_at bytes.now) }
{
    let rest = word(b"cut ", bytes)?;
    let (size, rest) = number(65536, rest)?;
    if size == 0 {
        return Err(Stop::NotALine);
    }
    ended(ScriptLine::Cut(size), rest)
}

#[tactic(auto, unfolding(crate::specs::LineReading::moment_line_at))]
fn moment_line(alloc: Global, bytes: &[u8]) -> Result<ScriptLine, Stop>
    ensures { Gives line_of result (moment_line_at bytes.now) }
{
    let rest = word(b"moment ", bytes)?;
    let (text, rest) = string(alloc, rest)?;
    ended(ScriptLine::Moment(text), rest)
}

/// A line that begins with a session's number.
#[tactic(auto, unfolding(crate::specs::LineReading::numbered_at))]
fn numbered(alloc: Global, bytes: &[u8]) -> Result<ScriptLine, Stop>
    ensures { Gives line_of result (numbered_at bytes.now) }
{
    let (s, rest) = session(bytes)?;
    let rest = word(b" ", rest)?;
    order(alloc, s, rest)
}

/// What stands behind a session's number and a space.
#[tactic(auto, unfolding(crate::specs::LineReading::order_at))]
fn order(alloc: Global, s: SessionId, bytes: &[u8]) -> Result<ScriptLine, Stop>
    ensures { Gives line_of result (order_at s.number bytes.now) }
{
    match bytes {
        [b'\'', ..] => message(alloc, s, bytes),
        [b'h', ..] => {
            let rest = word(b"hold", bytes)?;
            ended(ScriptLine::Hold(s), rest)
        }
        [b'g', ..] => {
            let rest = word(b"go", bytes)?;
            ended(ScriptLine::Go(s), rest)
        }
        [b'u', ..] => until(s, bytes),
        _ => raw(alloc, s, bytes),
    }
}

#[tactic(auto, unfolding(crate::specs::LineReading::until_at))]
fn until(s: SessionId, bytes: &[u8]) -> Result<ScriptLine, Stop>
    ensures { Gives line_of result (until_at s.number bytes.now) }
{
    let rest = word(b"until ", bytes)?;
    let mark = mark(rest)?;
    Ok(ScriptLine::Until(s, mark))
}

#[tactic(auto, unfolding(crate::specs::LineReading::place_at))]
fn mark(bytes: &[u8]) -> Result<Mark, Stop>
    ensures { Gives place_of result (place_at bytes.now) }
{
    match bytes {
        [b'o', ..] => ended_mark(Mark::Order, word(b"order", bytes)?),
        [b's', ..] => ended_mark(Mark::Snapshot, word(b"snapshot", bytes)?),
        [b'c', ..] => ended_mark(Mark::Commit, word(b"commit", bytes)?),
        [b'p', ..] => post_mark(bytes),
        [b'a', ..] => answer_mark(bytes),
        _ => ended_mark(Mark::Reply, word(b"reply", bytes)?),
    }
}

#[tactic(auto, unfolding(crate::specs::LineReading::post_at))]
fn post_mark(bytes: &[u8]) -> Result<Mark, Stop>
    ensures { Gives place_of result (post_at bytes.now) }
{
    let rest = word(b"post ", bytes)?;
    let (b, rest) = backend(rest)?;
    ended_mark(Mark::Post(b), rest)
}

#[tactic(auto, unfolding(crate::specs::LineReading::answer_at))]
fn answer_mark(bytes: &[u8]) -> Result<Mark, Stop>
    ensures { Gives place_of result (answer_at bytes.now) }
{
    let rest = word(b"answer ", bytes)?;
    let (b, rest) = backend(rest)?;
    ended_mark(Mark::Answer(b), rest)
}

#[tactic(auto, unfolding(crate::specs::LineReading::raw_at))]
fn raw(alloc: Global, s: SessionId, bytes: &[u8]) -> Result<ScriptLine, Stop>
    ensures { Gives line_of result (raw_at s.number bytes.now) }
{
    let rest = word(b"raw ", bytes)?;
    let (found, rest) = hex(alloc, rest)?;
    ended(ScriptLine::Raw(s, found), rest)
}
