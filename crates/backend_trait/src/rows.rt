//! Whether a row is one of a result's columns.
ghost use Rattle.std.specs.Prelude.{◌≡◌, ◌≤◌, ◌-◌, nat_lt, nat_le, if◌then◌else◌, map, Some, None};
ghost use Rattle.checked_sql.specs.Sound.{are_fit};
ghost use Rattle.sql_eval.specs.Reads.{cell_size, row_size};
ghost use Rattle.backend_trait.specs.Typed.{has_columns};

use catalogue::ColumnDesc;
use checked_sql::is_value;
use pg_values::Value;
use sql_eval::Row;

/// The most that the cells of a row count.
const MOST: usize = 1_048_000;

/// What a cell leaves of some room: a text counts its bytes, another cell 32, and each 4 more.
fn room_behind(cell: &Value, room: usize) -> Option<usize>
    ensures { result ≡ (if nat_lt room (cell_size cell.now) then None
        else Some (room - cell_size cell.now)) }
{
    match cell {
        Value::Text(text) => {
            if text.len() > room || room - text.len() < 4 {
                return None;
            }
            Some(room - text.len() - 4)
        }
        Value::Null | Value::Bool(_) | Value::Int4(_) | Value::Int8(_) | Value::Moment(_) => {
            room.checked_sub(36)
        }
    }
}

/// Whether a row is no larger than a row may be.
fn is_small(row: &Row) -> bool
    ensures { result ≡ nat_le (row_size row.now) 1048000 }
{
    let mut room = MOST;
    for cell in row.cells.as_slice() {
        match room_behind(cell, room) {
            None => return false,
            Some(left) => room = left,
        }
    }
    true
}

/// Whether values are of the types of columns, one for each.
fn are_of(columns: &[ColumnDesc], values: &[Value]) -> bool
    ensures { result ≡ are_fit (map (λ c. c.kind) columns.now) values.now }
{
    match columns {
        [] => match values {
            [] => true,
            [_, ..] => false,
        },
        [column, others @ ..] => match values {
            [] => false,
            [value, more @ ..] => is_value(column.kind, value) && are_of(others, more),
        },
    }
}

/// Whether a row has a value for each column, Null or of its type, and is no larger than a row may
/// be.
pub fn has_columns(columns: &[ColumnDesc], row: &Row) -> bool
    ensures { result ≡ has_columns columns.now row.now }
{
    are_of(columns, row.cells.as_slice()) && is_small(row)
}
