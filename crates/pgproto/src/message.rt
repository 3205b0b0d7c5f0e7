//! The message that a line sends.
ghost use Rattle.std.specs.Prelude.{◌≡◌, ◌++◌, map, IfOk, OnOk, option_map, Some};
ghost use Rattle.pgproto.specs.Line.{line_of};
ghost use Rattle.pgproto.specs.Script.{message_of, value_of};

use crate::line::{ScriptLine, ScriptValue};
use pg_messages::ClientMessage;
use pool_base::{List, NoMemory, Text};
use std::alloc::Global;

/// The message that a line sends, where it sends one. `raw` sends bytes and no message.
pub fn message_of(alloc: Global, line: &ScriptLine) -> Result<Option<ClientMessage>, NoMemory>
    ensures { IfOk result (λ message. message ≡ message_of (line_of line.now)) }
{
    let message = match line {
        ScriptLine::Query(_, text) => ClientMessage::Query {
            text: bytes_of(alloc, text)?,
        },
        ScriptLine::Parse {
            name,
            text,
            kinds,
            ..
        } => ClientMessage::Parse {
            name: bytes_of(alloc, name)?,
            text: bytes_of(alloc, text)?,
            kinds: List::from_slice(alloc, kinds.as_slice())?,
        },
        ScriptLine::Describe { portal, name, .. } => ClientMessage::Describe {
            portal: *portal,
            name: bytes_of(alloc, name)?,
        },
        ScriptLine::Bind {
            portal,
            name,
            formats,
            values,
            results,
            ..
        } => ClientMessage::Bind {
            portal: bytes_of(alloc, portal)?,
            name: bytes_of(alloc, name)?,
            formats: List::from_slice(alloc, formats.as_slice())?,
            values: values_of(alloc, values.as_slice())?,
            results: List::from_slice(alloc, results.as_slice())?,
        },
        ScriptLine::Execute { portal, limit, .. } => ClientMessage::Execute {
            portal: bytes_of(alloc, portal)?,
            limit: *limit,
        },
        ScriptLine::Close { portal, name, .. } => ClientMessage::Close {
            portal: *portal,
            name: bytes_of(alloc, name)?,
        },
        ScriptLine::Flush(_) => ClientMessage::Flush,
        ScriptLine::Sync(_) => ClientMessage::Sync,
        ScriptLine::Terminate(_) => ClientMessage::Terminate,
        ScriptLine::Session(_)
        | ScriptLine::Lose(_)
        | ScriptLine::Cut(_)
        | ScriptLine::Moment(_)
        | ScriptLine::Hold(_)
        | ScriptLine::Go(_)
        | ScriptLine::Until(_, _)
        | ScriptLine::Raw(_, _) => return Ok(None),
    };
    Ok(Some(message))
}

fn bytes_of(alloc: Global, text: &Text) -> Result<List<u8>, NoMemory>
    ensures { IfOk result (λ bytes. bytes ≡ text.now) }
{
    List::from_slice(alloc, text.as_bytes())
}

fn value_of(alloc: Global, value: &ScriptValue) -> Result<Option<List<u8>>, NoMemory>
    ensures { IfOk result (λ found. found ≡ value_of value.now) }
{
    match value {
        ScriptValue::Null => Ok(None),
        ScriptValue::Str(text) => Ok(Some(bytes_of(alloc, text)?)),
        ScriptValue::Hex(bytes) => Ok(Some(List::from_slice(alloc, bytes.as_slice())?)),
    }
}

fn values_of(alloc: Global, values: &[ScriptValue]) -> Result<List<Option<List<u8>>>, NoMemory>
    ensures { IfOk result (λ found. found ≡ map value_of values.now) }
{
    let mut found = List::new(alloc);
    for value in values {
        found.push(value_of(alloc, value)?)?;
    }
    Ok(found)
}
