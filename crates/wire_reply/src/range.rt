//! Whether the values of rows are in their ranges.
ghost use Rattle.std.specs.Prelude.{◌↔◌, All, IsTrue};
ghost use Rattle.pg_values.specs.Range.{HasNoZero, IsInRange, IsMoment};
ghost use Rattle.wire_reply.specs.Rows.{AreInRange};

use pg_values::Value;
use sql_eval::Row;

/// The first and the last moment, in microseconds since 2000-01-01 00:00 UTC: those of the years 1
/// and 9999.
const FIRST_MOMENT: i64 = -63_082_281_600_000_000;

const LAST_MOMENT: i64 = 252_455_615_999_999_999;

fn is_moment(micros: i64) -> bool
    ensures { IsTrue result ↔ IsMoment micros }
{
    micros >= FIRST_MOMENT && micros <= LAST_MOMENT
}

fn has_no_zero(text: &[u8]) -> bool
    ensures { IsTrue result ↔ HasNoZero text.now }
{
    text.iter().all(|byte| *byte != 0)
}

fn is_in_range(value: &Value) -> bool
    ensures { IsTrue result ↔ IsInRange value.now }
{
    match value {
        Value::Text(text) => has_no_zero(text.as_bytes()),
        Value::Moment(micros) => is_moment(*micros),
        Value::Null | Value::Bool(_) | Value::Int4(_) | Value::Int8(_) => true,
    }
}

fn is_row_in_range(row: &Row) -> bool
    ensures { IsTrue result ↔ All IsInRange row.now.cells }
{
    row.cells.as_slice().iter().all(|value| is_in_range(value))
}

/// Whether each value of the rows is in its range: a text without a zero byte, a moment of the
/// years 1 to 9999.
pub fn are_in_range(rows: &[Row]) -> bool
    ensures { IsTrue result ↔ AreInRange rows.now }
{
    rows.iter().all(|row| is_row_in_range(row))
}
