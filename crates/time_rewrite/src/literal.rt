//! Moments as literals.
ghost use Rattle.std.specs.Prelude.{◌≡◌, ◌↔◌, IfOk, OnOk, Err};
ghost use Rattle.pg_values.specs.Range.{IsMoment};
ghost use Rattle.time_rewrite.specs.Literals.{IsLiteralOf};
ghost use Rattle.time_rewrite.specs.declared.fault.RewriteFault.TheVariants.{MomentOutOfRange};

use crate::fault::RewriteFault;
use crate::moment::is_moment;
use pg_values::{Value, text_of};
use pool_base::Text;
use std::alloc::Global;

/// The literal of a moment.
///
/// Shape: `TIMESTAMPTZ 'YYYY-MM-DD HH:MM:SS+00'`, with the fraction before `+00` where it is not 0.
/// Units: `moment` is in microseconds since 2000-01-01 00:00 UTC.
/// Source: PostgreSQL 15, "Date/Time Types", "Date/Time Input"; a typed string is of SQL.
pub fn literal_of(alloc: Global, moment: i64) -> Result<Text, RewriteFault>
    ensures literal { IfOk result (λ text. IsLiteralOf moment text) }
    ensures in_range { OnOk result (IsMoment moment) }
    ensures out_of_range { (result ≡ Err MomentOutOfRange) ↔ ¬ (IsMoment moment) }
{
    if !is_moment(moment) {
        return Err(RewriteFault::MomentOutOfRange);
    }
    let text = text_of(alloc, &Value::Moment(moment))?.unwrap();
    Ok(Text::from_string(format!(in alloc; "TIMESTAMPTZ '{}'", text.as_str())?))
}
