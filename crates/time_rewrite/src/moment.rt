//! The range of moments.
ghost use Rattle.std.specs.Prelude.{◌↔◌, IsTrue};
ghost use Rattle.pg_values.specs.Range.{IsMoment};

/// The first moment, 0001-01-01 00:00 UTC.
const FIRST_MOMENT: i64 = -63_082_281_600_000_000;

/// The last moment, a microsecond before the year 10000.
const LAST_MOMENT: i64 = 252_455_615_999_999_999;

/// Whether a number of microseconds since 2000-01-01 00:00 UTC is in the range of moments.
pub(crate) fn is_moment(micros: i64) -> bool
    ensures { IsTrue result ↔ IsMoment micros }
{
    micros >= FIRST_MOMENT && micros <= LAST_MOMENT
}
