//! What may stand in the columns of a table.
ghost use Rattle.std.specs.Prelude.{◌≡◌, Ok};
ghost use Rattle.sql_values.specs.Outcome.{Gives};
ghost use Rattle.sql_eval.specs.Walks.{GivesAs};
ghost use Rattle.sql_eval.specs.Stored.{as_kind, as_column, kind_at, lacks, not_lacking};

use crate::codes::{NULL_REFUSED, OUT_OF_RANGE};
use crate::row::Row;
use pg_values::{ColType, Value};
use schema::ColumnDef;
use sql_values::{ExprFault, is_null};

/// A value in the type of its column: int4 and int8 stand for each other where the number fits.
pub(crate) fn as_kind(kind: ColType, value: Value) -> Result<Value, ExprFault>
    ensures { Gives result (as_kind kind value) }
{
    match (kind, value) {
        (ColType::Int4, Value::Int8(number)) => {
            if number < -2_147_483_648 || number > 2_147_483_647 {
                return Err(ExprFault::Refused(OUT_OF_RANGE));
            }
            Ok(Value::Int4(number as i32))
        }
        (ColType::Int8, Value::Int4(number)) => Ok(Value::Int8(number as i64)),
        (_, value) => Ok(value),
    }
}

/// A value in the type of the column of that number.
pub(crate) fn as_column(columns: &[ColumnDef], column: u8, value: Value) -> Result<Value, ExprFault>
    ensures { Gives result (as_column (kind_at columns.now column) value) }
{
    match columns.get(column as usize) {
        Some(column) => as_kind(column.kind, value),
        None => Ok(value),
    }
}

/// Whether a column that is not null has Null.
fn lacks(columns: &[ColumnDef], cells: &[Value]) -> bool
    ensures { result ≡ lacks columns.now cells.now }
{
    let mut at: usize = 0;
    for column in columns {
        match cells.get(at) {
            None => return false,
            Some(cell) => {
                if column.not_null && is_null(cell) {
                    return true;
                }
            }
        }
        at += 1;
    }
    false
}

/// A row that has no Null where its table has none.
///
/// Source: PostgreSQL 15, "Not-Null Constraints".
pub(crate) fn not_lacking(columns: &[ColumnDef], row: Row) -> Result<Row, ExprFault>
    ensures { GivesAs (λ r. r.cells) result (not_lacking columns.now row.cells) }
{
    if lacks(columns, row.cells.as_slice()) {
        return Err(ExprFault::Refused(NULL_REFUSED));
    }
    Ok(row)
}
