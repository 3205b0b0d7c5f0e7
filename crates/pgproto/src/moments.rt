//! Which lines set a moment that is one.
ghost use Rattle.std.specs.Prelude.{◌↔◌, IsTrue};
ghost use Rattle.pgproto.specs.Line.{line_of};
ghost use Rattle.pgproto.specs.Script.{IsClock, IsTimed};

use crate::line::ScriptLine;
use pg_values::{ColType, from_text};
use pool_base::Text;
use std::alloc::Global;

/// Whether the line sets a moment that is one, or sets none.
pub(crate) fn is_timed(alloc: Global, line: &ScriptLine) -> bool
    ensures { IsTrue result ↔ IsTimed (line_of line.now) }
{
    match line {
        ScriptLine::Moment(text) => is_clock(alloc, text),
        ScriptLine::Session(_)
        | ScriptLine::Lose(_)
        | ScriptLine::Cut(_)
        | ScriptLine::Hold(_)
        | ScriptLine::Go(_)
        | ScriptLine::Until(_, _)
        | ScriptLine::Raw(_, _)
        | ScriptLine::Query(_, _)
        | ScriptLine::Parse { .. }
        | ScriptLine::Describe { .. }
        | ScriptLine::Bind { .. }
        | ScriptLine::Execute { .. }
        | ScriptLine::Close { .. }
        | ScriptLine::Flush(_)
        | ScriptLine::Sync(_)
        | ScriptLine::Terminate(_) => true,
    }
}

/// Whether a text is a text form of a moment.
fn is_clock(alloc: Global, text: &Text) -> bool
    ensures { IsTrue result ↔ IsClock text.now }
{
    match from_text(alloc, ColType::Moment, text.as_bytes()) {
        Ok(value) => {
            drop(value);
            true
        }
        Err(_) => false,
    }
}
