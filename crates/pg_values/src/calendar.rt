//! Days of the calendar, by their numbers from 2000-01-01 on. The arithmetic is `jiff_core`'s.
ghost use Rattle.std.specs.Prelude.{◌≡◌, ◌<◌, ◌≤◌, ◌≤ℤ◌, pos, neg_ℤ, IfSome, MatchOption};
ghost use Rattle.pg_values.specs.Calendar.{day_number, IsDay};

use jiff_core::civil::Date;

/// The days from the day 0 of jiff, 1970-01-01, to 2000-01-01.
const DAYS_TO_2000: i64 = 10_957;

/// The number of a day, if the calendar has it.
pub fn day_number(year: u32, month: u32, day: u32) -> Option<i64>
    requires year { year < 10_000 }
    requires month { month < 100 }
    requires day { day < 100 }
    ensures value { MatchOption result (¬ (IsDay year month day))
        (λ number. IsDay year month day × (number ≡ day_number year month day)) }
    ensures within { IfSome result (λ number.
        (neg_ℤ (pos 4_382_544) ≤ℤ number) × (number ≤ℤ pos 2_921_939)) }
{
    match Date::new(year as i16, month as i8, day as i8) {
        Ok(date) => Some(date.to_unix_epoch_day() as i64 - DAYS_TO_2000),
        Err(_) => None,
    }
}

/// A day of the calendar.
#[derive(Clone, Copy, PartialEq, Eq)]
pub struct Day {
    pub year: u32,
    pub month: u32,
    pub day: u32,
}

/// The day of a number, from 0001-01-01 to 9999-12-31.
pub fn day_of(number: i64) -> Day
    requires from { neg_ℤ (pos 730_119) ≤ℤ number }
    requires to { number ≤ℤ pos 2_921_939 }
    ensures is_day { IsDay result.year result.month result.day }
    ensures number { day_number result.year result.month result.day ≡ number }
{
    let date = Date::from_days_since_min((number + 4_382_544) as u32);
    Day {
        year: date.year.unsigned_abs() as u32,
        month: date.month as u32,
        day: date.day as u32,
    }
}
