//! Which values are of a type and in its range.
ghost use Rattle.std.specs.Prelude.{◌≡◌};
ghost use Rattle.checked_sql.specs.Sound.{has_no_zero, is_moment, is_value};

use crate::kinds::same_kind;
use pg_values::{ColType, Value};

/// The first and the last moment, in microseconds since 2000-01-01 00:00 UTC: those of the years 1
/// and 9999.
const FIRST_MOMENT: i64 = -63_082_281_600_000_000;

const LAST_MOMENT: i64 = 252_455_615_999_999_999;

/// Whether there is no zero byte.
pub(crate) fn has_no_zero(text: &[u8]) -> bool
    ensures { result ≡ has_no_zero text.now }
{
    for byte in text {
        if *byte == 0 {
            return false;
        }
    }
    true
}

/// Whether it is a moment of the years 1 to 9999.
fn is_moment(micros: i64) -> bool
    ensures { result ≡ is_moment micros }
{
    FIRST_MOMENT <= micros && micros <= LAST_MOMENT
}

/// Whether a value may stand in a column of a type: it is Null, or of that type and in its range.
pub fn is_value(kind: ColType, value: &Value) -> bool
    ensures { result ≡ is_value kind value.now }
{
    match value {
        Value::Null => true,
        Value::Bool(_) => same_kind(kind, ColType::Bool),
        Value::Int4(_) => same_kind(kind, ColType::Int4),
        Value::Int8(_) => same_kind(kind, ColType::Int8),
        Value::Text(text) => same_kind(kind, ColType::Text) && has_no_zero(text.as_bytes()),
        Value::Moment(micros) => same_kind(kind, ColType::Moment) && is_moment(*micros),
    }
}
