//! The runs that are timed, and what is told of them.
ghost use Rattle.std.specs.Prelude.{◌≡◌, ◌<◌, ◌^◌, IfOk, OnErr, IsErr, length};
ghost use Rattle.pg_messages.specs.Server.{Fits};

use crate::messages::reading::read_times;
use crate::messages::samples::{batch, row};
use crate::messages::writing::write_times;
use pg_messages::ServerMessage;
use pool_base::{List, NoMemory};
use std::io;
use std::time::{Duration, Instant};

/// Reads and writes half of the batches, and then all of them.
pub fn run(rt: HostRuntime, batches: u32) -> io::Result<()> {
    let bytes = given(batch(rt.alloc()))?;
    let half = time_reading(rt, bytes.as_slice(), batches / 2)?;
    let whole = time_reading(rt, bytes.as_slice(), batches)?;
    tell(rt, "reading", batches, half, whole)?;
    let message = given(row(rt.alloc()))?;
    let rows = batches.saturating_mul(1000);
    let half = time_writing(rt, &message, rows / 2)?;
    let whole = time_writing(rt, &message, rows)?;
    tell(rt, "writing", batches, half, whole)
}

/// Want of memory as an error of the system.
fn given<T>(answer: Result<T, NoMemory>) -> io::Result<T>
    ensures value { IfOk result (λ value. answer ≡ Ok value) }
    ensures memory { OnErr result (IsErr answer) }
{
    match answer {
        Ok(value) => Ok(value),
        Err(NoMemory) => Err(io::ErrorKind::OutOfMemory.into()),
    }
}

fn time_reading(rt: HostRuntime, bytes: &[u8], times: u32) -> io::Result<Duration>
    requires { length bytes.now < 2 ^ 31 }
{
    let start = Instant::now(&rt)?;
    let tally = given(read_times(rt.alloc(), bytes, times))?;
    let time = start.elapsed(&rt)?;
    println!(rt; "read {} messages of {} bytes", tally.messages, tally.bytes)?;
    Ok(time)
}

fn time_writing(rt: HostRuntime, message: &ServerMessage, times: u32) -> io::Result<Duration>
    requires { Fits message.now }
{
    let mut written = List::new(rt.alloc());
    let start = Instant::now(&rt)?;
    let total = given(write_times(message, times, &mut written))?;
    let time = start.elapsed(&rt)?;
    println!(rt; "wrote {times} rows of {total} bytes")?;
    Ok(time)
}

/// Tells the nanoseconds of a message, and the share of the time that half of the messages took.
fn tell(
    rt: HostRuntime,
    what: &str,
    batches: u32,
    half: Duration,
    whole: Duration,
) -> io::Result<()> {
    let each = whole.as_nanos() / (batches as u128 * 1000).max(1);
    let share = half.as_nanos().saturating_mul(100) / whole.as_nanos().max(1);
    eprintln!(rt; "{what}: {each} ns a message; half of the messages took {share} % of the time")
}
