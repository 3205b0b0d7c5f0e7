//! Whether the system lets the program open as many files as its seats may need.
ghost use Rattle.std.specs.Prelude.{◌≤◌, ◌+◌};

use pool_base::{NoMemory, SystemFiles, read_whole};
use pool_config::Config;
use serve_base::tell;
use std::str;

/// Where the system tells the limits of the program.
const LIMITS: &str = "/proc/self/limits";

/// The longest text of limits, in bytes.
const TEXT_LIMIT: usize = 65_536;

/// What the line of the limit begins with.
const OPEN_FILES: &str = "Max open files";

/// How many files the program opens besides those of its seats.
const BESIDES: u64 = 32;

/// How many files so many seats before so many backends need: a client's connection is open twice,
/// each backend has a link and is asked by one connection more.
fn needed(seats: u32, backends: u32) -> u64 {
    u64::from(seats)
        .saturating_mul(u64::from(backends) + 3)
        .saturating_add(u64::from(backends) + BESIDES)
}

/// How many of the seats fit where so many files may be open: one at least.
fn fitting(seats: u32, backends: u32, limit: u64) -> u32
    ensures { result ≤ seats + 1 }
{
    if needed(seats, backends) <= limit {
        return seats;
    }
    let rest = limit.saturating_sub(u64::from(backends) + BESIDES);
    let fit = rest / (u64::from(backends) + 3);
    (fit.min(u64::from(seats)) as u32).max(1)
}

/// The number behind the words of a line.
fn number_in(line: &str) -> Option<u64> {
    let rest = line.strip_prefix(OPEN_FILES)?;
    let (number, _) = rest.trim_ascii().split_once(' ')?;
    number.parse::<u64>().ok()
}

/// How many files the program may have open, where the system tells it.
fn limit_of(rt: &HostRuntime) -> Result<Option<u64>, NoMemory> {
    let mut files = SystemFiles::new(rt.clone()?);
    let Ok(text) = read_whole(rt.alloc(), &mut files, LIMITS, TEXT_LIMIT) else {
        return Ok(None);
    };
    let Ok(text) = str::from_utf8(text.as_slice()) else {
        return Ok(None);
    };
    for line in text.split('\n') {
        if let Some(limit) = number_in(line) {
            return Ok(Some(limit));
        }
    }
    Ok(None)
}

/// The seats that fit. Where they are fewer than the configuration has, an operator is told.
pub(crate) fn seats_of(rt: &HostRuntime, config: &Config) -> Result<u32, NoMemory> {
    let backends = config.nodes.len().min(8) as u32;
    let Some(limit) = limit_of(rt)? else {
        return Ok(config.children);
    };
    let (seats, wanted) = (config.children, needed(config.children, backends));
    let fit = fitting(seats, backends, limit);
    if fit < seats {
        let (what, children) = ("the limit of open files is", "num_init_children");
        let line = format_args!(
            "{what} {limit}, and {children} = {seats} may need {wanted}: seats {fit}"
        );
        tell(rt, rt.alloc(), line);
    }
    Ok(fit)
}
