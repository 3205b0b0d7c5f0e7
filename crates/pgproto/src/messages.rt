//! The readers of the lines that send a message.
ghost use Rattle.std.specs.Prelude.{◌≡◌, ℕ};
ghost use Rattle.pgproto.specs.Line.{line_of};
ghost use Rattle.pgproto.specs.Reading.{Gives, spaced_at};
ghost use Rattle.pgproto.specs.LineReading.{bind_at, close_at, describe_at, execute_at, letter_at, message_at, message_of_letter, parse_at, query_at, target_at};

use crate::line::ScriptLine;
use crate::lists::{formats, kinds, values};
use crate::parts::{limit, spaced_string};
use crate::reader::ended;
use crate::stop::Stop;
use crate::words::word;
use pool_base::SessionId;
use std::alloc::Global;

/// A letter in single quotes, and what it says of the rest.
#[tactic(auto, unfolding(crate::specs::LineReading::message_at))]
pub(crate) fn message(alloc: Global, s: SessionId, bytes: &[u8]) -> Result<ScriptLine, Stop>
    ensures { Gives line_of result (message_at s.number bytes.now) }
{
    let (letter, rest) = letter(bytes)?;
    message_of_letter(alloc, s, letter, rest)
}

fn letter(bytes: &[u8]) -> Result<(u8, &[u8]), Stop>
    ensures { Gives (λ x. (x.0, x.1.now)) result (letter_at bytes.now) }
{
    match bytes {
        [b'\'', letter, b'\'', rest @ ..] => Ok((*letter, rest)),
        _ => Err(Stop::NotALine),
    }
}

#[tactic(auto, unfolding(crate::specs::LineReading::message_of_letter))]
fn message_of_letter(
    alloc: Global,
    s: SessionId,
    letter: u8,
    rest: &[u8],
) -> Result<ScriptLine, Stop>
    ensures { Gives line_of result (message_of_letter s.number letter rest.now) }
{
    match letter {
        b'Q' => query(alloc, s, rest),
        b'P' => parse(alloc, s, rest),
        b'B' => bind(alloc, s, rest),
        b'D' => describe(alloc, s, rest),
        b'E' => execute(alloc, s, rest),
        b'C' => close(alloc, s, rest),
        b'H' => ended(ScriptLine::Flush(s), rest),
        b'S' => ended(ScriptLine::Sync(s), rest),
        b'X' => ended(ScriptLine::Terminate(s), rest),
        _ => Err(Stop::NotALine),
    }
}

#[tactic(auto, unfolding(crate::specs::LineReading::query_at))]
fn query(alloc: Global, s: SessionId, rest: &[u8]) -> Result<ScriptLine, Stop>
    ensures { Gives line_of result (query_at s.number rest.now) }
{
    let (text, rest) = spaced_string(alloc, rest)?;
    ended(ScriptLine::Query(s, text), rest)
}

#[tactic(auto, unfolding(crate::specs::LineReading::parse_at))]
fn parse(alloc: Global, s: SessionId, rest: &[u8]) -> Result<ScriptLine, Stop>
    ensures { Gives line_of result (parse_at s.number rest.now) }
{
    let (name, rest) = spaced_string(alloc, rest)?;
    let (text, rest) = spaced_string(alloc, rest)?;
    let (kinds, rest) = kinds(alloc, rest)?;
    let line = ScriptLine::Parse {
        s,
        name,
        text,
        kinds,
    };
    ended(line, rest)
}

#[tactic(auto, unfolding(crate::specs::LineReading::bind_at))]
fn bind(alloc: Global, s: SessionId, rest: &[u8]) -> Result<ScriptLine, Stop>
    ensures { Gives line_of result (bind_at s.number rest.now) }
{
    let (portal, rest) = spaced_string(alloc, rest)?;
    let (name, rest) = spaced_string(alloc, rest)?;
    let (chosen, rest) = formats(alloc, rest)?;
    let (values, rest) = values(alloc, rest)?;
    let (results, rest) = formats(alloc, rest)?;
    let line = ScriptLine::Bind {
        s,
        portal,
        name,
        formats: chosen,
        values,
        results,
    };
    ended(line, rest)
}

/// Whether a portal is meant; else a statement is.
#[tactic(auto, unfolding(crate::specs::LineReading::target_at, crate::specs::Reading::spaced_at))]
fn spaced_target(rest: &[u8]) -> Result<(bool, &[u8]), Stop>
    ensures { Gives (λ x. (x.0, x.1.now)) result (spaced_at target_at rest.now) }
{
    let rest = word(b" ", rest)?;
    let (letter, rest) = letter(rest)?;
    match letter {
        b'P' => Ok((true, rest)),
        b'S' => Ok((false, rest)),
        _ => Err(Stop::NotALine),
    }
}

#[tactic(auto, unfolding(crate::specs::LineReading::describe_at))]
fn describe(alloc: Global, s: SessionId, rest: &[u8]) -> Result<ScriptLine, Stop>
    ensures { Gives line_of result (describe_at s.number rest.now) }
{
    let (portal, rest) = spaced_target(rest)?;
    let (name, rest) = spaced_string(alloc, rest)?;
    ended(ScriptLine::Describe { s, portal, name }, rest)
}

#[tactic(auto, unfolding(crate::specs::LineReading::close_at))]
fn close(alloc: Global, s: SessionId, rest: &[u8]) -> Result<ScriptLine, Stop>
    ensures { Gives line_of result (close_at s.number rest.now) }
{
    let (portal, rest) = spaced_target(rest)?;
    let (name, rest) = spaced_string(alloc, rest)?;
    ended(ScriptLine::Close { s, portal, name }, rest)
}

#[tactic(auto, unfolding(crate::specs::LineReading::execute_at))]
fn execute(alloc: Global, s: SessionId, rest: &[u8]) -> Result<ScriptLine, Stop>
    ensures { Gives line_of result (execute_at s.number rest.now) }
{
    let (portal, rest) = spaced_string(alloc, rest)?;
    let (limit, rest) = spaced_limit(rest)?;
    ended(ScriptLine::Execute { s, portal, limit }, rest)
}

#[tactic(auto, unfolding(crate::specs::Reading::spaced_at))]
fn spaced_limit(rest: &[u8]) -> Result<(i32, &[u8]), Stop>
    ensures { Gives
        (λ x. (x.0, x.1.now)) result (spaced_at Rattle.pgproto.specs.Reading.limit_at rest.now) }
{
    let rest = word(b" ", rest)?;
    limit(rest)
}
