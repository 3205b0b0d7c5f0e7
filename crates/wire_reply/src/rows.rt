//! The rows of a result as messages.
ghost use Rattle.std.specs.Prelude.{◌≡◌, IfOk, All};
ghost use Rattle.pg_values.specs.Range.{IsInRange};
ghost use Rattle.wire_reply.specs.Rows.{AreCells, AreInRange, AreRows, IsCell, IsMessage, IsRow, description};

use crate::fields::fields_of;
use crate::formats::format_at;
use catalogue::ColumnDesc;
use pg_messages::{ServerMessage, server_fits, write_server};
use pg_values::{Value, binary_of, text_of};
use pool_base::{List, NoMemory};
use sql_eval::Row;
use std::alloc::Global;

/// A value in its format; None is null.
fn cell_of(alloc: Global, value: &Value, format: u16) -> Result<Option<List<u8>>, NoMemory>
    requires range { IsInRange value.now }
    ensures { IfOk result (IsCell format value.now) }
{
    if format == 1 {
        return binary_of(alloc, value);
    }
    match text_of(alloc, value)? {
        None => Ok(None),
        Some(text) => Ok(Some(List::from_slice(alloc, text.as_bytes())?)),
    }
}

fn cells_of(
    alloc: Global,
    cells: &[Value],
    formats: &[u16],
) -> Result<List<Option<List<u8>>>, NoMemory>
    requires range { All IsInRange cells.now }
    ensures { IfOk result (AreCells formats.now 0 cells.now) }
{
    let mut made = List::new(alloc);
    for value in cells {
        let format = format_at(formats, made.len());
        made.push(cell_of(alloc, value, format)?)?;
    }
    Ok(made)
}

/// A message as its bytes, where it fits; what does not is left out.
pub fn message_bytes(alloc: Global, message: &ServerMessage) -> Result<List<u8>, NoMemory>
    ensures { IfOk result (IsMessage message.now) }
{
    let mut bytes = List::new(alloc);
    if server_fits(message) {
        write_server(message, &mut bytes)?;
    }
    Ok(bytes)
}

/// A row as the bytes of its DataRow, its values in these formats.
pub fn row_bytes(alloc: Global, row: &Row, formats: &[u16]) -> Result<List<u8>, NoMemory>
    requires range { All IsInRange row.now.cells }
    ensures { IfOk result (IsRow formats.now row.now) }
{
    let values = cells_of(alloc, row.cells.as_slice(), formats)?;
    let message = ServerMessage::DataRow { values };
    let bytes = message_bytes(alloc, &message);
    drop(message);
    bytes
}

/// Rows as the bytes of their DataRows, their values in these formats.
pub fn rows_bytes(alloc: Global, rows: &[Row], formats: &[u16]) -> Result<List<u8>, NoMemory>
    requires range { AreInRange rows.now }
    ensures { IfOk result (AreRows formats.now rows.now) }
{
    let mut bytes = List::new(alloc);
    for row in rows {
        bytes.append(row_bytes(alloc, row, formats)?)?;
    }
    Ok(bytes)
}

/// The columns of a result as the bytes of their RowDescription; NoData where there are none.
pub fn description_bytes(
    alloc: Global,
    columns: &[ColumnDesc],
    formats: &[u16],
) -> Result<List<u8>, NoMemory>
    ensures { IfOk result (IsMessage (description formats.now columns.now)) }
{
    if columns.is_empty() {
        return message_bytes(alloc, &ServerMessage::NoData);
    }
    let fields = fields_of(alloc, columns, formats)?;
    let message = ServerMessage::RowDescription { fields };
    let bytes = message_bytes(alloc, &message);
    drop(message);
    bytes
}
