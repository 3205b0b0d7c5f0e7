//! Which moment is meant by what is written.
ghost use Rattle.std.specs.Prelude.{◌≡◌, ◌<◌, ◌≤◌, ◌↔◌, ◌≤ℤ◌, Some, pos, neg_ℤ, IsTrue, IfSome, MatchOption};
ghost use Rattle.pg_values.specs.declared.written.Zone.TheVariants.{Offset as ZoneOffset};
ghost use Rattle.pg_values.specs.Range.{IsMoment};
ghost use Rattle.pg_values.specs.Moments.{FractionFits, SecondsFit, ClockFits, Fits, fraction_micros, seconds_micros, second_in, ZoneInRange, ZoneFits, minutes_ahead, ClockInRange, clock_micros, FieldsInRange, moment_of};

use crate::calendar::day_number;
use crate::written::{Clock, Fraction, Offset, Seconds, Sign, Written, Zone};

/// The first moment, 0001-01-01 00:00 UTC.
pub const FIRST_MOMENT: i64 = -63_082_281_600_000_000;

/// The last moment, a microsecond before the year 10000.
const LAST_MOMENT: i64 = 252_455_615_999_999_999;

/// Whether a number of microseconds since 2000-01-01 00:00 UTC is in the range of moments.
pub fn is_moment(micros: i64) -> bool
    ensures { IsTrue result ↔ IsMoment micros }
{
    micros >= FIRST_MOMENT && micros <= LAST_MOMENT
}

fn fraction_micros(fraction: Option<Fraction>) -> u32
    requires { FractionFits fraction }
    ensures value { result ≡ fraction_micros fraction }
    ensures below { result < 1_000_000 }
{
    match fraction {
        None => 0,
        Some(fraction) => fraction.number * 10u32.pow(6 - fraction.digits),
    }
}

/// The microseconds of the seconds, if they are in range.
fn seconds_micros(seconds: Option<Seconds>) -> Option<u32>
    requires { SecondsFit seconds }
    ensures value { MatchOption result (59 < second_in seconds)
        (λ micros. (second_in seconds ≤ 59) × (micros ≡ seconds_micros seconds)) }
    ensures below { IfSome result (λ micros. micros < 60_000_000) }
{
    match seconds {
        None => Some(0),
        Some(seconds) => {
            if seconds.second > 59 {
                return None;
            }
            Some(seconds.second * 1_000_000 + fraction_micros(seconds.fraction))
        }
    }
}

/// The minutes of an offset from UTC, if they are in range.
fn offset_minutes(offset: Offset) -> Option<i64>
    requires { ZoneFits (ZoneOffset offset) }
    ensures value { MatchOption result (¬ (ZoneInRange (ZoneOffset offset)))
        (λ minutes. ZoneInRange (ZoneOffset offset)
        × (minutes ≡ minutes_ahead (ZoneOffset offset))) }
    ensures within { IfSome result (λ minutes.
        (neg_ℤ (pos 959) ≤ℤ minutes) × (minutes ≤ℤ pos 959)) }
{
    let minutes = offset.minutes.unwrap_or(0);
    if offset.hours > 15 || minutes > 59 {
        return None;
    }
    let minutes = (offset.hours * 60 + minutes) as i64;
    match offset.sign {
        Sign::East => Some(minutes),
        Sign::West => Some(-minutes),
    }
}

/// How many minutes the clocks of a zone are ahead of UTC, if its fields are in range.
fn minutes_ahead(zone: Zone) -> Option<i64>
    requires { ZoneFits zone }
    ensures value { MatchOption result (¬ (ZoneInRange zone))
        (λ minutes. ZoneInRange zone × (minutes ≡ minutes_ahead zone)) }
    ensures within { IfSome result (λ minutes.
        (neg_ℤ (pos 959) ≤ℤ minutes) × (minutes ≤ℤ pos 959)) }
{
    match zone {
        Zone::Unwritten | Zone::Zulu => Some(0),
        Zone::Offset(offset) => offset_minutes(offset),
    }
}

/// The microseconds from the day's beginning in UTC to a time of day, if its fields are in range.
fn time_micros(clock: Clock) -> Option<i64>
    requires { ClockFits (Some clock) }
    ensures value { MatchOption result (¬ (ClockInRange (Some clock)))
        (λ micros. ClockInRange (Some clock) × (micros ≡ clock_micros (Some clock))) }
    ensures within { IfSome result (λ micros.
        (neg_ℤ (pos 200_000_000_000) ≤ℤ micros) × (micros ≤ℤ pos 200_000_000_000)) }
{
    if clock.hour > 23 || clock.minute > 59 {
        return None;
    }
    let seconds = seconds_micros(clock.seconds)?;
    let ahead = minutes_ahead(clock.zone)?;
    let minutes = (clock.hour * 60 + clock.minute) as i64;
    Some(minutes * 60_000_000 + seconds as i64 - ahead * 60_000_000)
}

fn clock_micros(clock: Option<Clock>) -> Option<i64>
    requires { ClockFits clock }
    ensures value { MatchOption result (¬ (ClockInRange clock))
        (λ micros. ClockInRange clock × (micros ≡ clock_micros clock)) }
    ensures within { IfSome result (λ micros.
        (neg_ℤ (pos 200_000_000_000) ≤ℤ micros) × (micros ≤ℤ pos 200_000_000_000)) }
{
    match clock {
        None => Some(0),
        Some(clock) => time_micros(clock),
    }
}

/// The moment that is meant, if it and its fields are in range.
pub fn moment_of(written: Written) -> Option<i64>
    requires { Fits written }
    ensures { MatchOption result (¬ (FieldsInRange written × IsMoment (moment_of written)))
        (λ micros. FieldsInRange written × IsMoment (moment_of written)
        × (micros ≡ moment_of written)) }
{
    let day = day_number(written.year, written.month, written.day)?;
    let clock = clock_micros(written.clock)?;
    let micros = day * 86_400_000_000 + clock;
    if !is_moment(micros) {
        return None;
    }
    Some(micros)
}
