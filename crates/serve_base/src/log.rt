//! Lines on standard error, each with its moment. What cannot be written is left out.
ghost use Rattle.std.specs.Prelude.{IfOk};
ghost use Rattle.serve_base.specs.Stamps.{IsStamp};

use crate::stamp::{Stamp, stamp_of};
use pool_base::{Clock as Moments, NoMemory, SystemClock};
use std::alloc::Global;
use std::fmt;
use std::rt::Clock;
use std::time::{Duration, Instant};

/// The stamp of this moment.
pub fn stamp_now<R: Clock + Copy>(rt: &R, alloc: Global) -> Result<Stamp, NoMemory>
    ensures { IfOk result IsStamp }
{
    stamp_of(alloc, SystemClock::new(*rt).now())
}

/// Writes a line.
pub fn tell<R: Clock + Eprint + Copy, D: fmt::Display + Drop>(rt: &R, alloc: Global, what: D) {
    match stamp_now(rt, alloc) {
        Ok(stamp) => drop(eprintln!(rt; "{stamp} pool: {what}")),
        Err(_) => drop(eprintln!(rt; "pool: {what}")),
    }
}

/// Whether a second is over since then, so that a line may be written again.
pub fn is_second_over<R: Clock>(rt: &R, last: Option<Instant>) -> bool {
    match (last, Instant::now(rt)) {
        (Some(last), Ok(now)) => now.saturating_duration_since(last) >= Duration::from_secs(1),
        _ => true,
    }
}
