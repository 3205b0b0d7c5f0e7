//! The runs that are timed, and what is told of them.
ghost use Rattle.std.specs.Prelude.{◌<◌, ◌^◌, length};

use crate::sql::reading::read_times;
use crate::sql::samples::{POINT, THREE, of_rows};
use pool_base::NoMemory;
use sql_profile::SqlFault;
use std::io;
use std::time::{Duration, Instant};

/// Reads the short texts so many times, and the long ones. Whether all were read.
pub fn run(rt: HostRuntime, times: u32) -> io::Result<bool> {
    if !timed(rt, "a SELECT by key", POINT, times)? {
        return Ok(false);
    }
    if !timed(rt, "an INSERT of three rows", THREE, times)? {
        return Ok(false);
    }
    if !long(rt, 4999)? {
        return Ok(false);
    }
    long(rt, 9999)
}

/// Reads an INSERT of one row and so many more, once. Whether it was read.
fn long(rt: HostRuntime, more: u32) -> io::Result<bool>
    requires { more < 10000 }
{
    let text = match of_rows(rt.alloc(), more) {
        Ok(text) => text,
        Err(NoMemory) => return Err(io::ErrorKind::OutOfMemory.into()),
    };
    timed(rt, "a long INSERT", text.as_str(), 1)
}

/// Reads the text so many times. Whether it was read.
fn timed(rt: HostRuntime, what: &str, text: &str, times: u32) -> io::Result<bool>
    requires { length text.now < 2 ^ 32 }
{
    let start = Instant::now(&rt)?;
    let total = match read_times(rt.alloc(), text, times) {
        Ok(total) => total,
        Err(SqlFault::NoMemory) => return Err(io::ErrorKind::OutOfMemory.into()),
        Err(SqlFault::Syntax(_) | SqlFault::Outside { .. } | SqlFault::TooLong) => {
            return Ok(false);
        }
    };
    let time = start.elapsed(&rt)?;
    println!(rt; "read {total} statements: {what} of {} bytes", text.len())?;
    tell(rt, what, times, time)?;
    Ok(true)
}

/// Tells the texts of a second, and the microseconds of all.
fn tell(rt: HostRuntime, what: &str, times: u32, time: Duration) -> io::Result<()> {
    let each = u128::from(times).saturating_mul(1_000_000_000) / time.as_nanos().max(1);
    let micros = time.as_nanos() / 1000;
    eprintln!(rt; "{what}: {each} a second; {micros} microseconds in all")
}
