//! How a moment stands in the log: in UTC, to the millisecond, as ISO 8601 has it.
ghost use Rattle.std.specs.Prelude.{IfOk};
ghost use Rattle.pg_values.specs.Range.{IsMoment};
ghost use Rattle.serve_base.specs.Stamps.{IsStamp};

use pg_values::{Value, text_of};
use pool_base::{NoMemory, Text};
use std::alloc::Global;
use std::fmt;

/// The first moment that has a stamp, 0001-01-01 00:00 UTC, and the last second that has one.
const FIRST: i64 = -63_082_281_600_000_000;

const LAST: i64 = 252_455_615_999_000_000;

/// A moment as the log has it.
#[derive(Drop)]
pub struct Stamp {
    /// What is printed of its second.
    second: Text,
    /// The milliseconds behind it, below 1000.
    millis: u32,
}

/// The stamp of a moment. A moment outside the years 1 to 9999 has that of the nearest.
///
/// Units: `micros` are microseconds since 2000-01-01 00:00 UTC.
pub fn stamp_of(alloc: Global, micros: i64) -> Result<Stamp, NoMemory>
    ensures { IfOk result IsStamp }
{
    let micros = micros.max(FIRST).min(LAST);
    let rest = micros.rem_euclid(1_000_000);
    stamped(alloc, (micros - rest).max(FIRST), (rest / 1000) as u32)
}

/// The stamp of a second, with so many milliseconds behind it.
fn stamped(alloc: Global, second: i64, millis: u32) -> Result<Stamp, NoMemory>
    requires { IsMoment second }
    ensures { IfOk result IsStamp }
{
    match text_of(alloc, &Value::Moment(second))? {
        Some(second) => Ok(Stamp { second, millis }),
        None => Err(NoMemory),
    }
}

impl fmt::Display for Stamp {
    fn fmt<W: fmt::Write>(&self, f: &mut fmt::Formatter<W>) -> fmt::Result {
        let millis = self.millis;
        let text = self.second.as_str();
        match (text.get(..10), text.get(11..19)) {
            (Some(date), Some(time)) => write!(f, "{date}T{time}.{millis:03}Z"),
            _ => f.write_str(text),
        }
    }
}
