//! The messages that the server makes.
ghost use Rattle.std.specs.Prelude.{◌≡◌, ◌≤◌, IfOk, length, All};
ghost use Rattle.std.specs.List.{AllZip};
ghost use Rattle.pg_values.specs.Range.{IsInRange};
ghost use Rattle.pg_messages.specs.declared.server.ServerMessage.TheVariants as messages;
ghost use Rattle.pg_messages.specs.Server.{Fits};
ghost use Rattle.sql_eval.specs.Reads.{row_size};
ghost use Rattle.play.specs.Answering.{IsCellText, IsHeld, IsRowInRange, IsShort};
ghost use Rattle.play.specs.Replies.{field_of, fields_of, size_of, tag_of, IsRowMessage, error_message, error_parts, part};

use backend_trait::Row;
use catalogue::{CheckedBody, ColumnDesc};
use pg_messages::{Field, Part, ServerMessage};
use pg_values::{ColType, Value, oid_of, text_of};
use pool_base::{Code, List, NoMemory, Text};
use std::alloc::Global;

/// A setting that is told at the start.
pub(crate) fn setting(alloc: Global, name: &[u8], value: &[u8]) -> Result<ServerMessage, NoMemory>
    ensures { IfOk result (λ message. message ≡ messages.ParameterStatus name.now value.now) }
{
    let name = List::from_slice(alloc, name)?;
    let value = List::from_slice(alloc, value)?;
    Ok(ServerMessage::ParameterStatus { name, value })
}

/// The columns of a result, in text form.
pub(crate) fn row_description(
    alloc: Global,
    columns: &[ColumnDesc],
) -> Result<ServerMessage, NoMemory>
    ensures { IfOk result (λ message. message ≡ messages.RowDescription (fields_of columns.now)) }
{
    let mut fields = List::new(alloc);
    for one in columns {
        fields.push(column(alloc, one)?)?;
    }
    Ok(ServerMessage::RowDescription { fields })
}

/// The size of a type's values in bytes; -1 where they have no one size.
fn size_of(kind: ColType) -> i16
    ensures { result ≡ size_of kind }
{
    match kind {
        ColType::Bool => 1,
        ColType::Int4 => 4,
        ColType::Int8 | ColType::Moment => 8,
        ColType::Text => -1,
    }
}

/// A column in text form: its name, the OID and the size of its type.
fn column(alloc: Global, column: &ColumnDesc) -> Result<Field, NoMemory>
    ensures { IfOk result (λ field. field ≡ field_of column.now) }
{
    Ok(Field {
        name: List::from_slice(alloc, column.name.as_bytes())?,
        table: 0,
        column: 0,
        kind: oid_of(column.kind),
        size: size_of(column.kind),
        modifier: -1,
        format: 0,
    })
}

/// A row in text form.
pub(crate) fn row_message(alloc: Global, row: &Row) -> Result<ServerMessage, NoMemory>
    requires { IsRowInRange row.now }
    ensures row { IfOk result (IsRowMessage row.now) }
    ensures fits { IfOk result (λ message. length row.now.cells ≤ 1664 → row_size row.now ≤ 1048000
        → Fits message) }
{
    let values = row_values(alloc, row.cells.as_slice())?;
    Ok(ServerMessage::DataRow { values })
}

fn row_values(alloc: Global, cells: &[Value]) -> Result<List<Option<List<u8>>>, NoMemory>
    requires { All IsInRange cells.now }
    ensures { IfOk result (AllZip IsCellText cells.now) }
{
    let mut values = List::new(alloc);
    for value in cells {
        values.push(cell_text(alloc, value)?)?;
    }
    Ok(values)
}

/// The bytes of a text. It takes no memory.
fn bytes_of(text: Text) -> List<u8>
    ensures { result ≡ text }
{
    List::from_vec(text.into_string().into_bytes())
}

/// A value as text; None is null.
fn cell_text(alloc: Global, value: &Value) -> Result<Option<List<u8>>, NoMemory>
    requires { IsInRange value.now }
    ensures { IfOk result (IsCellText value.now) }
{
    is_held(value);
    match text_of(alloc, value)? {
        None => Ok(None),
        Some(text) => Ok(Some(bytes_of(text))),
    }
}

/// A whole number is in the range of its type.
fn is_held(value: &Value)
    ensures { IsHeld value.now }
{
    match value {
        Value::Int4(number) => {
            let _number = *number;
        }
        Value::Int8(number) => {
            let _number = *number;
        }
        Value::Null | Value::Bool(_) | Value::Text(_) | Value::Moment(_) => {}
    }
}

/// The tag of a statement that is done, with the count of its rows.
fn tag_text(alloc: Global, body: &CheckedBody, count: u64) -> Result<Text, NoMemory>
    ensures { IfOk result (λ text. text ≡ tag_of body.now count) }
{
    Ok(Text::from_string(match body {
        CheckedBody::Read(_) => format!(in alloc; "SELECT {count}")?,
        CheckedBody::Insert(_) => format!(in alloc; "INSERT 0 {count}")?,
        CheckedBody::Change(_) => format!(in alloc; "UPDATE {count}")?,
        CheckedBody::Remove(_) => format!(in alloc; "DELETE {count}")?,
    }))
}

/// The end of a statement that is done, with the count of its rows.
pub(crate) fn written(
    alloc: Global,
    body: &CheckedBody,
    count: u64,
) -> Result<ServerMessage, NoMemory>
    ensures tag { IfOk result (λ message. message ≡ messages.Complete (tag_of body.now count)) }
    ensures fits { IfOk result Fits }
{
    let text = tag_text(alloc, body, count)?;
    let tag = bytes_of(text);
    Ok(ServerMessage::Complete { tag })
}

/// The error of a code, with this text.
pub(crate) fn error_message(
    alloc: Global,
    code: Code,
    text: &[u8],
) -> Result<ServerMessage, NoMemory>
    ensures error { IfOk result (λ message. message ≡ error_message code.bytes text.now) }
    ensures fits { IfOk result (λ message. IsShort text.now → Fits message) }
{
    let parts = error_parts(alloc, code_bytes(&code.bytes), text)?;
    Ok(ServerMessage::Error { parts })
}

fn code_bytes(bytes: &[u8; 5]) -> &[u8]
    ensures same { result.now ≡ bytes.now }
    ensures five { length result.now ≡ 5 }
{
    bytes.as_slice()
}

fn error_parts(alloc: Global, code: &[u8], text: &[u8]) -> Result<List<Part>, NoMemory>
    ensures { IfOk result (λ parts. parts ≡ error_parts code.now text.now) }
{
    let mut parts = List::new(alloc);
    parts.push(part(alloc, b'S', b"ERROR")?)?;
    parts.push(part(alloc, b'V', b"ERROR")?)?;
    parts.push(part(alloc, b'C', code)?)?;
    parts.push(part(alloc, b'M', text)?)?;
    Ok(parts)
}

fn part(alloc: Global, tag: u8, text: &[u8]) -> Result<Part, NoMemory>
    ensures { IfOk result (λ made. made ≡ part tag text.now) }
{
    Ok(Part {
        tag,
        text: List::from_slice(alloc, text)?,
    })
}
