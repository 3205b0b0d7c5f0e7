//! Prints a moment.
ghost use Rattle.std.specs.Prelude.{◌≡◌, ◌<◌, ◌≤◌, ◌++◌, ◌∷◌, ◌^◌, ◌≤ℤ◌, pos, neg_ℤ, OnOk, IfOk, Contains};
ghost use Rattle.std.specs.Str.{IsAscii};
ghost use Rattle.pg_values.specs.Digits.{fixed};
ghost use Rattle.pg_values.specs.Range.{IsMoment};
ghost use Rattle.pg_values.specs.Moments.{IsReading, moment_read, micros_text, printed_text, IsPrintedMoment};

use crate::calendar::day_of;
use crate::digits::{put_fixed, put_shortest};
use crate::moment::FIRST_MOMENT;
use crate::reading::Reading;
use pool_base::{NoMemory, Text};
use std::alloc::{AllocError, Global};

/// The date and the time of day of a moment, in UTC.
fn reading_of(micros: i64) -> Reading
    requires { IsMoment micros }
    ensures is_reading { IsReading result }
    ensures moment { moment_read result ≡ micros }
{
    let since = (micros - FIRST_MOMENT) as u64;
    let day = day_of((since / 86_400_000_000) as i64 - 730_119);
    let of_day = since % 86_400_000_000;
    let minutes = (of_day / 60_000_000) as u32;
    let of_minute = (of_day % 60_000_000) as u32;
    Reading {
        year: day.year,
        month: day.month,
        day: day.day,
        hour: minutes / 60,
        minute: minutes % 60,
        second: of_minute / 1_000_000,
        micros: of_minute % 1_000_000,
    }
}

/// Puts a mark and two digits behind the bytes.
fn put_field(out: &mut Vec<u8>, mark: u8, number: u32) -> Result<(), AllocError>
    requires { number < 100 }
    ensures { OnOk result (out.new.items ≡ out.old.items ++ (mark ∷ fixed 2 number)) }
{
    out.push(mark)?;
    put_fixed(out, 2, number)
}

/// Puts a point and the digits of microseconds behind the bytes, unless they are 0.
fn put_micros(out: &mut Vec<u8>, micros: u32) -> Result<(), AllocError>
    requires { micros < 1_000_000 }
    ensures { OnOk result (out.new.items ≡ out.old.items ++ micros_text micros) }
{
    if micros == 0 {
        return Ok(());
    }
    out.push(b'.')?;
    put_shortest(out, 6, micros)
}

/// Puts what is printed of a moment behind the bytes.
fn put_reading(out: &mut Vec<u8>, reading: Reading) -> Result<(), AllocError>
    requires { IsReading reading }
    ensures { OnOk result (out.new.items ≡ out.old.items ++ printed_text reading) }
{
    put_fixed(out, 4, reading.year)?;
    put_field(out, b'-', reading.month)?;
    put_field(out, b'-', reading.day)?;
    put_field(out, b' ', reading.hour)?;
    put_field(out, b':', reading.minute)?;
    put_field(out, b':', reading.second)?;
    put_micros(out, reading.micros)?;
    out.extend_from_slice(b"+00")?;
    Ok(())
}

/// The text of ASCII bytes.
fn ascii_text(bytes: Vec<u8>) -> Text
    requires { IsAscii bytes.items }
    ensures { result ≡ bytes.items }
{
    match String::from_utf8(bytes) {
        Ok(text) => Text::from_string(text),
        Err(_) => unreachable!(),
    }
}

/// The text that is printed of a moment.
pub fn moment_text(alloc: Global, micros: i64) -> Result<Text, NoMemory>
    requires { IsMoment micros }
    ensures { IfOk result (λ text. IsPrintedMoment micros text) }
{
    let reading = reading_of(micros);
    let mut out = Vec::with_capacity(alloc, 29)?;
    put_reading(&mut out, reading)?;
    Ok(ascii_text(out))
}
