//! Which scripts are played.
ghost use Rattle.std.specs.Prelude.{◌≡◌, ◌↔◌, ℕ, IsTrue, IsSome, List, map};
ghost use Rattle.pgproto.specs.Line.{Line, line_of, moment, query, session, terminate};
ghost use Rattle.play.specs.Script.{IsSession, IsSessionFrom, IsStep};
ghost use Rattle.play.specs.Parts.{IsMomentRead, IsNextOr, part_of};

use pg_values::{ColType, Value, ValueFault, from_text};
use pgproto::ScriptLine;
use std::alloc::Global;

/// What a line does.
#[derive(Clone, Copy)]
pub(crate) enum Step<'a> {
    /// It sets the moment.
    Set(&'a [u8]),
    /// Session 1 connects.
    Connect,
    /// It sends this text in a Query.
    Ask(&'a [u8]),
    /// It leaves.
    Leave,
    /// None of these.
    Other,
}

/// What the line does.
pub(crate) fn step_of(line: &ScriptLine) -> Step<'_>
    ensures { IsStep (line_of line.now) result }
{
    match line {
        ScriptLine::Moment(text) => Step::Set(text.as_bytes()),
        ScriptLine::Session(s) if s.number == 1 => Step::Connect,
        ScriptLine::Query(s, text) if s.number == 1 => Step::Ask(text.as_bytes()),
        ScriptLine::Terminate(s) if s.number == 1 => Step::Leave,
        ScriptLine::Session(_)
        | ScriptLine::Lose(_)
        | ScriptLine::Cut(_)
        | ScriptLine::Hold(_)
        | ScriptLine::Go(_)
        | ScriptLine::Until(_, _)
        | ScriptLine::Raw(_, _)
        | ScriptLine::Query(_, _)
        | ScriptLine::Parse { .. }
        | ScriptLine::Describe { .. }
        | ScriptLine::Bind { .. }
        | ScriptLine::Execute { .. }
        | ScriptLine::Close { .. }
        | ScriptLine::Flush(_)
        | ScriptLine::Sync(_)
        | ScriptLine::Terminate(_) => Step::Other,
    }
}

/// The moment of a text, if it is a text form of one.
pub(crate) fn moment_of(alloc: Global, text: &[u8]) -> Option<i64>
    ensures { IsMomentRead text.now result }
{
    match from_text(alloc, ColType::Moment, text) {
        Ok(Value::Moment(micros)) => Some(micros),
        Ok(_) => None,
        Err(ValueFault::Bad(_)) => None,
        // Memory is refused for a text alone.
        Err(ValueFault::NoMemory) => unreachable!(),
    }
}

/// Where the lines of a script are.
#[derive(Clone, Copy, Debug, PartialEq, Eq)]
enum Part {
    /// No session yet.
    Before,
    /// Session 1.
    Within,
    /// No session any more.
    Behind,
}

/// Where the lines are behind one more line. None: it may not stand there.
fn next_part(alloc: Global, part: Part, line: &ScriptLine) -> Option<Part>
    ensures { IsNextOr (part_of part) (line_of line.now) result }
{
    match step_of(line) {
        Step::Set(text) => behind_moment(alloc, part, text),
        Step::Connect => behind_session(part),
        Step::Ask(_) => behind_query(part),
        Step::Leave => behind_leaving(part),
        Step::Other => None,
    }
}

/// Where they are behind a line that sets the moment.
fn behind_moment(alloc: Global, part: Part, text: &[u8]) -> Option<Part>
    ensures { IsNextOr (part_of part) (moment text.now) result }
{
    match moment_of(alloc, text) {
        Some(_) => Some(part),
        None => None,
    }
}

/// Where they are behind the line by which session 1 connects.
fn behind_session(part: Part) -> Option<Part>
    ensures { IsNextOr (part_of part) (session 1) result }
{
    match part {
        Part::Before => Some(Part::Within),
        Part::Within => None,
        Part::Behind => None,
    }
}

/// Where they are behind a Query.
fn behind_query(part: Part) -> Option<Part>
    ensures { (text : List ℕ) → IsNextOr (part_of part) (query 1 text) result }
{
    match part {
        Part::Before => None,
        Part::Within => Some(Part::Within),
        Part::Behind => None,
    }
}

/// Where they are behind the line by which session 1 leaves.
fn behind_leaving(part: Part) -> Option<Part>
    ensures { IsNextOr (part_of part) (terminate 1) result }
{
    match part {
        Part::Before => None,
        Part::Within => Some(Part::Behind),
        Part::Behind => None,
    }
}

/// Whether the script is one of session 1 that is played: `session 1`, then Query lines, then at
/// most one `1 'X'`, and moments between them.
pub fn is_session(alloc: Global, script: &[ScriptLine]) -> bool
    ensures { IsTrue result ↔ IsSession (map line_of script.now) }
{
    let mut part = Part::Before;
    for line in script {
        match next_part(alloc, part, line) {
            Some(next) => part = next,
            None => return false,
        }
    }
    true
}
