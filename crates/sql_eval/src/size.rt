//! How large a row may be.
ghost use Rattle.std.specs.Prelude.{◌≡◌, ◌≤◌, ◌-◌, nat_lt, if◌then◌else◌, Some, None};
ghost use Rattle.sql_eval.specs.Walks.{GivesAs};
ghost use Rattle.sql_eval.specs.Reads.{cell_size, row_size, fitting};

use crate::codes::TOO_LARGE;
use crate::row::Row;
use pg_values::Value;
use sql_values::ExprFault;

/// The most that the cells of a row count.
const MOST: usize = 1_048_000;

/// What a cell leaves of some room: a text counts its bytes, another cell 32, and each 4 more.
fn room_behind(cell: &Value, room: usize) -> Option<usize>
    ensures { result ≡ (if nat_lt room (cell_size cell.now) then None
        else Some (room - cell_size cell.now)) }
{
    match cell {
        Value::Text(text) => {
            if text.len() > room || room - text.len() < 4 {
                return None;
            }
            Some(room - text.len() - 4)
        }
        _ => room.checked_sub(36),
    }
}

/// Whether a row is larger than a row may be.
fn is_too_large(row: &Row) -> bool
    ensures { result ≡ nat_lt 1048000 (row_size row.now) }
{
    let mut room = MOST;
    for cell in row.cells.as_slice() {
        match room_behind(cell, room) {
            None => return true,
            Some(left) => room = left,
        }
    }
    false
}

/// A row that is as large as a row may be at most.
///
/// House rule: 1048000, where a text counts its bytes, another cell 32, and each cell 4 more.
pub(crate) fn fitting(row: Row) -> Result<Row, ExprFault>
    ensures { GivesAs (λ r. r) result (fitting row) }
{
    if is_too_large(&row) {
        return Err(ExprFault::Refused(TOO_LARGE));
    }
    Ok(row)
}
