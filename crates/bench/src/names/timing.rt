//! The runs that are timed, and what is told of them.
use crate::names::looking::{found_times, walked_times};
use crate::names::words::{Word, words_of};
use named_list::NamedList;
use pool_base::NoMemory;
use std::io;
use std::time::{Duration, Instant};

/// How many names the lists have. A table has at most 32 columns and a schema at most 64 tables.
const SIZES: [u32; 6] = [4, 16, 32, 64, 256, 1600];

/// Looks for each name of each list so many times, by the index and by a walk.
pub fn run(rt: HostRuntime, times: u32) -> io::Result<()> {
    for size in SIZES {
        timed(rt, size, times)?;
    }
    Ok(())
}

/// Looks for each name of a list of so many, so many times.
fn timed(rt: HostRuntime, size: u32, times: u32) -> io::Result<()> {
    let words = match words_of(rt.alloc(), size) {
        Ok(words) => words,
        Err(NoMemory) => return Err(io::ErrorKind::OutOfMemory.into()),
    };
    let told = look(rt, &words, size, times);
    drop(words);
    told
}

/// Looks for each of the words so many times, by the index and by a walk.
fn look(rt: HostRuntime, words: &NamedList<Word>, size: u32, times: u32) -> io::Result<()> {
    let start = Instant::now(&rt)?;
    let found = found_times(words, times);
    let indexed = start.elapsed(&rt)?;
    let start = Instant::now(&rt)?;
    let walked = walked_times(words, times);
    let walking = start.elapsed(&rt)?;
    println!(rt; "of {size} names {found} were found by the index and {walked} by a walk")?;
    let all = u64::from(size).saturating_mul(u64::from(times)).max(1);
    tell(rt, size, indexed, walking, all)
}

/// Tells the nanoseconds of a look-up.
fn tell(
    rt: HostRuntime,
    size: u32,
    indexed: Duration,
    walking: Duration,
    all: u64,
) -> io::Result<()> {
    let by_index = indexed.as_nanos() / u128::from(all.max(1));
    let by_walk = walking.as_nanos() / u128::from(all.max(1));
    eprintln!(rt; "of {size} names: {by_index} nanoseconds by the index, {by_walk} by a walk")
}
