//! Parts of lines in their one spelling, put behind bytes.
ghost use Rattle.std.specs.Prelude.{◌≡◌, ◌++◌, ◌∷◌, OnOk, [], List, flat_map, codes};
ghost use Rattle.std.specs.Fmt.{decimal};
ghost use Rattle.pgproto.specs.Words.{escaped, quoted};
ghost use Rattle.pgproto.specs.Line.{place_of};
ghost use Rattle.pgproto.specs.Spelling.{counted_spelled, place_spelled, target_spelled, value_spelled};

use crate::line::{Mark, ScriptValue};
use crate::pieces::{push_hex, push_number};
use pool_base::{List, NoMemory, Text};
use std::alloc::Global;

fn push_escaped(byte: u8, onto: &mut List<u8>) -> Result<(), NoMemory>
    ensures { OnOk result (onto.new ≡ onto.old ++ escaped byte) }
{
    match byte {
        b'"' => onto.extend_from_slice(b"\\\""),
        b'\\' => onto.extend_from_slice(b"\\\\"),
        b'\n' => onto.extend_from_slice(b"\\n"),
        _ => onto.push(byte),
    }
}

/// A string in double quotes.
pub(crate) fn push_string(text: &Text, onto: &mut List<u8>) -> Result<(), NoMemory>
    ensures { OnOk result (onto.new ≡ onto.old ++ quoted text.now) }
{
    let bytes = text.as_bytes();
    onto.push(b'"')?;
    for byte in bytes {
        push_escaped(*byte, onto)?;
    }
    onto.push(b'"')
}

fn push_value(value: &ScriptValue, onto: &mut List<u8>) -> Result<(), NoMemory>
    ensures { OnOk result (onto.new ≡ onto.old ++ value_spelled value.now) }
{
    match value {
        ScriptValue::Null => onto.extend_from_slice(b"null"),
        ScriptValue::Str(text) => push_string(text, onto),
        ScriptValue::Hex(bytes) => {
            onto.push(b'x')?;
            push_hex(bytes.as_slice(), onto)
        }
    }
}

/// The count of the values, and then the values.
pub(crate) fn push_values(
    alloc: Global,
    values: &[ScriptValue],
    onto: &mut List<u8>,
) -> Result<(), NoMemory>
    ensures { OnOk result (onto.new ≡ onto.old ++ counted_spelled value_spelled values.now) }
{
    onto.push(b' ')?;
    push_number(alloc, values.len() as u64, onto)?;
    for value in values {
        onto.push(b' ')?;
        push_value(value, onto)?;
    }
    Ok(())
}

/// The count of the numbers, and then the numbers.
pub(crate) fn push_kinds(alloc: Global, kinds: &[u32], onto: &mut List<u8>) -> Result<(), NoMemory>
    ensures { OnOk result (onto.new ≡ onto.old ++ counted_spelled decimal kinds.now) }
{
    onto.push(b' ')?;
    push_number(alloc, kinds.len() as u64, onto)?;
    for kind in kinds {
        onto.push(b' ')?;
        push_number(alloc, u64::from(*kind), onto)?;
    }
    Ok(())
}

/// The count of the numbers, and then the numbers.
pub(crate) fn push_formats(
    alloc: Global,
    formats: &[u16],
    onto: &mut List<u8>,
) -> Result<(), NoMemory>
    ensures { OnOk result (onto.new ≡ onto.old ++ counted_spelled decimal formats.now) }
{
    onto.push(b' ')?;
    push_number(alloc, formats.len() as u64, onto)?;
    for format in formats {
        onto.push(b' ')?;
        push_number(alloc, u64::from(*format), onto)?;
    }
    Ok(())
}

pub(crate) fn push_mark(alloc: Global, mark: Mark, onto: &mut List<u8>) -> Result<(), NoMemory>
    ensures { OnOk result (onto.new ≡ onto.old ++ place_spelled (place_of mark)) }
{
    match mark {
        Mark::Order => onto.extend_from_slice(b"order"),
        Mark::Snapshot => onto.extend_from_slice(b"snapshot"),
        Mark::Commit => onto.extend_from_slice(b"commit"),
        Mark::Post(b) => {
            onto.extend_from_slice(b"post ")?;
            push_number(alloc, u64::from(b.number), onto)
        }
        Mark::Answer(b) => {
            onto.extend_from_slice(b"answer ")?;
            push_number(alloc, u64::from(b.number), onto)
        }
        Mark::Reply => onto.extend_from_slice(b"reply"),
    }
}

/// `'P'` of a portal, `'S'` of a statement, and its name.
pub(crate) fn push_target(portal: bool, name: &Text, onto: &mut List<u8>) -> Result<(), NoMemory>
    ensures { OnOk result (onto.new ≡ onto.old ++ (target_spelled portal ++ (32 ∷ quoted
        name.now))) }
{
    let target = if portal { b"'P'" } else { b"'S'" };
    onto.extend_from_slice(target)?;
    onto.push(b' ')?;
    push_string(name, onto)
}
