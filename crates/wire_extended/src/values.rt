//! The values of a Bind.
ghost use Rattle.std.specs.Prelude.{◌≡◌, ◌↔◌, All, get_or, IfOk, IsTrue};
ghost use Rattle.pg_values.specs.declared.col_type.ColType.TheVariants.{Text as TextKind};
ghost use Rattle.pg_values.specs.Answers.{IfRefused};
ghost use Rattle.wire_extended.specs.Binding.{IsFormat, IsRead, IsUnread, MayStand, TellsRead};

use pg_values::{ColType, Value, ValueFault, from_binary, from_text};
use pool_base::{Code, List, NoMemory};
use std::alloc::Global;
use wire_reply::format_at;

/// The values, or the code of the first that is none.
#[derive(Drop)]
pub(crate) enum Read {
    Values(List<Value>),
    Refused(Code),
}

fn value_of(
    alloc: Global,
    kind: ColType,
    format: u16,
    bytes: &Option<List<u8>>,
) -> Result<Value, ValueFault>
    ensures read { IfOk result (IsRead kind format bytes.now) }
    ensures unread { IfRefused result (IsUnread kind format bytes.now) }
{
    match bytes {
        None => Ok(Value::Null),
        Some(bytes) => {
            if format == 1 {
                let value = from_binary(alloc, kind, bytes.as_slice())?;
                Ok(value)
            } else {
                let value = from_text(alloc, kind, bytes.as_slice())?;
                Ok(value)
            }
        }
    }
}

/// The type at that place.
fn kind_at(kinds: &[ColType], at: usize) -> ColType
    ensures { result ≡ get_or kinds.now at TextKind }
{
    match kinds.get(at) {
        Some(kind) => *kind,
        None => ColType::Text,
    }
}

/// The values of these types, each in its format.
pub(crate) fn values_of(
    alloc: Global,
    kinds: &[ColType],
    formats: &[u16],
    given: &[Option<List<u8>>],
) -> Result<Read, NoMemory>
    ensures { IfOk result (TellsRead kinds.now formats.now given.now) }
{
    let mut values = List::new(alloc);
    for bytes in given {
        let at = values.len();
        match value_of(alloc, kind_at(kinds, at), format_at(formats, at), bytes) {
            Ok(value) => values.push(value)?,
            Err(ValueFault::Bad(code)) => return Ok(Read::Refused(code)),
            Err(ValueFault::NoMemory) => return Err(NoMemory),
        }
    }
    Ok(Read::Values(values))
}

/// Whether a list of formats may stand beside so many values.
pub(crate) fn counts(formats: &[u16], values: usize) -> bool
    ensures { IsTrue result ↔ MayStand formats.now values }
{
    formats.len() <= 1 || formats.len() == values
}

fn is_format(format: u16) -> bool
    ensures { IsTrue result ↔ IsFormat format }
{
    format <= 1
}

/// Whether each is 0 or 1.
pub(crate) fn are_formats(formats: &[u16]) -> bool
    ensures { IsTrue result ↔ All IsFormat formats.now }
{
    formats.iter().all(|format| is_format(*format))
}
