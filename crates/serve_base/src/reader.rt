//! The reader: a text to the status that it says, or to its first faulty line.
ghost use Rattle.std.specs.Prelude.{◌≡◌, ◌<◌, IfOk, bytes_eq, length, option_map};
ghost use Rattle.serve_base.specs.Status.{last_line};
ghost use Rattle.serve_base.specs.Reader.{Gives, fault_behind, host_in, line_in, lines_behind, port_in, said_by, state_in, status_in};

use crate::cut::{behind, cut, cut_line};
use crate::port::read_port;
use crate::status::{Down, Standing, StatusFault};
use pool_base::{List, NoMemory};
use std::alloc::Global;

#[tactic(auto, using(crate::proofs::Rows::row_read, crate::proofs::Rows::row_bad, crate::proofs::Rows::row_last), unfolding(crate::specs::Reader::status_in))]
/// The status that the text says.
///
/// Shape: docs/SERVE.md, "The status file".
/// Errors: the first faulty line decides, or the line that is not there.
pub fn read_status(alloc: Global, text: &[u8]) -> Result<List<Standing>, StatusFault>
    requires { length text.now < 4294967290 }
    ensures { Gives result (status_in text.now) }
{
    let (first, rest) = cut_line(text);
    if first != b"pool status 1".as_slice() {
        return Err(StatusFault::BadLine(1));
    }
    let Some(rest) = rest else {
        return Err(StatusFault::BadLine(2));
    };
    let mut left = rest;
    let mut all = List::new(alloc);
    let mut number: u32 = 0;
    loop {
        let (line, next) = cut_line(left);
        if is_last(alloc, number, line)? {
            return match fault_behind(number, next) {
                Some(bad) => Err(StatusFault::BadLine(bad)),
                None => Ok(all),
            };
        }
        let Some(standing) = read_line(alloc, number, line)? else {
            return Err(StatusFault::BadLine(number + 2));
        };
        all.push(standing)?;
        number += 1;
        let Some(more) = next else {
            return Err(StatusFault::BadLine(number + 2));
        };
        left = more;
    }
}

/// Whether this is the last line, of so many backends.
fn is_last(alloc: Global, number: u32, line: &[u8]) -> Result<bool, NoMemory>
    ensures { IfOk result (λ is. is ≡ bytes_eq line.now (last_line number)) }
{
    let last = format!(in alloc; "end {number}")?;
    Ok(line == last.as_bytes())
}

#[tactic(auto, using(crate::proofs::Cuts::more_behind))]
/// The faulty line behind the last one: there is one unless the last line ends the text.
fn fault_behind(number: u32, next: Option<&[u8]>) -> Option<u32>
    requires { number < 4294967292 }
    ensures { result
        ≡ fault_behind number (lines_behind (option_map (λ t. t.now) next.entry)) }
{
    match next {
        None => Some(number + 2),
        Some([]) => None,
        Some([_, ..]) => Some(number + 3),
    }
}

/// What a line says of a backend's state.
#[derive(Clone, Copy)]
pub enum State<'a> {
    Up,
    Down { since: &'a [u8], why: &'a [u8] },
}

/// What a line says of the backend with that number.
#[tactic(auto, unfolding(crate::specs::Reader::line_in))]
fn read_line(alloc: Global, number: u32, line: &[u8]) -> Result<Option<Standing>, NoMemory>
    ensures { IfOk result (λ standing. standing ≡ line_in number line.now) }
{
    let start = format!(in alloc; "backend {number} '")?;
    let Some((host, rest)) = read_host(start.as_bytes(), line) else {
        return Ok(None);
    };
    let Some((port, rest)) = read_port_behind(rest) else {
        return Ok(None);
    };
    let Some(state) = read_state(rest) else {
        return Ok(None);
    };
    Ok(Some(Standing {
        host: List::from_slice(alloc, host)?,
        port,
        down: down_of(alloc, state)?,
    }))
}

/// The host of a line that starts so, and what stands behind its quote.
fn read_host<'a>(start: &[u8], line: &'a [u8]) -> Option<(&'a [u8], &'a [u8])>
    ensures { option_map (λ p. (p.0.now, p.1.now)) result ≡ host_in start.now line.entry.now }
{
    cut(b'\'', behind(start, line)?)
}

/// The port behind a host, and what stands behind its blank.
fn read_port_behind(bytes: &[u8]) -> Option<(u16, &[u8])>
    ensures { option_map (λ p. (p.0, p.1.now)) result ≡ port_in bytes.now }
{
    let (digits, rest) = cut(b' ', behind(b" ", bytes)?)?;
    Some((read_port(digits)?, rest))
}

/// The state at the end of a line.
fn read_state(bytes: &[u8]) -> Option<State<'_>>
    ensures { option_map said_by result ≡ state_in bytes.now }
{
    if bytes == b"up".as_slice() {
        return Some(State::Up);
    }
    let (since, why) = cut(b' ', behind(b"down ", bytes)?)?;
    Some(State::Down { since, why })
}

fn down_of(alloc: Global, state: State) -> Result<Option<Down>, NoMemory>
    ensures { IfOk result (λ down. down ≡ said_by state.entry) }
{
    match state {
        State::Up => Ok(None),
        State::Down { since, why } => Ok(Some(Down {
            since: List::from_slice(alloc, since)?,
            why: List::from_slice(alloc, why)?,
        })),
    }
}
