//! How large a row may be.
ghost use Rattle.std.specs.Prelude.{◌≡◌, ◌≤◌, ◌-◌, nat_lt, if◌then◌else◌, Some, None};
ghost use Rattle.std.specs.List.{list_all};
ghost use Rattle.sql_eval.specs.Reads.{cell_size};
ghost use Rattle.postgres_talk.specs.Forms.{is_small};

use backend_trait::Row;
use pg_values::Value;

/// The most that the cells of a row count.
const MOST: usize = 1_048_000;

/// What a cell leaves of some room: a text counts its bytes, another cell 32, and each 4 more.
fn room_behind(cell: &Value, room: usize) -> Option<usize>
    ensures { result ≡ (if nat_lt room (cell_size cell.now) then None
        else Some (room - cell_size cell.now)) }
{
    match cell {
        Value::Text(text) => {
            if text.len() > room || room - text.len() < 4 {
                return None;
            }
            Some(room - text.len() - 4)
        }
        Value::Null | Value::Bool(_) | Value::Int4(_) | Value::Int8(_) | Value::Moment(_) => {
            room.checked_sub(36)
        }
    }
}

/// Whether a row is no larger than a row may be.
fn is_small(row: &Row) -> bool
    ensures { result ≡ is_small row.now }
{
    let mut room = MOST;
    for cell in row.cells.as_slice() {
        match room_behind(cell, room) {
            None => return false,
            Some(left) => room = left,
        }
    }
    true
}

/// Whether each row is no larger than a row may be.
pub(crate) fn are_small(rows: &[Row]) -> bool
    ensures { result ≡ list_all is_small rows.now }
{
    for row in rows {
        if !is_small(row) {
            return false;
        }
    }
    true
}
