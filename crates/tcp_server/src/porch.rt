//! Clients that find no seat: one thread tells all of them.
//!
//! ```text
//! comes --a start message, or a second--> told, and gone
//! ```
//!
//! A client is told so behind its start message. One that asks for encryption first believes no
//! error before it has the answer to that. Where many wait here, one more is told at once.

use crate::refusal::{TOO_MANY_CONNECTIONS, refusal};
use pool_base::NoMemory;
use serve_base::{is_second_over, tell};
use std::alloc::Global;
use std::io::{ErrorKind, Read, Write};
use std::net::TcpStream;
use std::rt::Clock;
use std::sync::{Condvar, Mutex, Wait};
use std::time::{Duration, Instant};
use std::{mem, thread};
use wire_reply::Saying;

/// How long the thread rests between two looks at those who wait.
///
/// Units: milliseconds.
const REST: u64 = 10;

/// How often it looks at one that says nothing before it tells it.
const LOOKS: u32 = 100;

/// How many wait here at most.
const ROOM: usize = 64;

/// How many requests for encryption of one are answered: one of each kind.
const ANSWERS: u32 = 2;

/// A request for encryption by SSL.
///
/// Shape: `Int32 8`, `Int32 80877103`.
const SSL: [u8; 8] = [0, 0, 0, 8, 4, 210, 22, 47];

/// A request for encryption by GSS.
///
/// Shape: `Int32 8`, `Int32 80877104`.
const GSS: [u8; 8] = [0, 0, 0, 8, 4, 210, 22, 48];

/// A client that waits to be told.
#[derive(Drop)]
struct Waiting {
    stream: TcpStream,
    /// How often it was looked at since it said something.
    looks: u32,
    answered: u32,
}

/// What a look at one comes to.
#[derive(Clone, Copy)]
enum Look {
    Waits,
    IsDue,
    Gone,
}

/// Who has come, and how many were refused since that was told.
#[derive(Drop)]
struct Crowd {
    come: Vec<Waiting>,
    refused: u64,
}

/// Those that find no seat.
#[derive(Drop)]
pub(crate) struct Porch {
    alloc: Global,
    crowd: Mutex<Crowd>,
    someone: Condvar,
}

/// Whether a first message asks for encryption.
fn asks_for_encryption(bytes: &[u8]) -> bool {
    bytes == SSL.as_slice() || bytes == GSS.as_slice()
}

/// Whether nothing has come yet: a signal came, or it would have to be waited for.
fn is_passing(kind: ErrorKind) -> bool {
    matches!(kind, ErrorKind::WouldBlock | ErrorKind::Interrupted)
}

impl Waiting {
    /// Looks whether it has said what it wants.
    fn look(&mut self) -> Look {
        let mut piece = [0u8; 1024];
        match self.stream.read(&mut piece) {
            Ok(0) => Look::Gone,
            Ok(count) => self.hear(&piece[..count]),
            Err(fault) if is_passing(fault.kind()) => self.wait(),
            Err(_) => Look::Gone,
        }
    }

    /// It has said this.
    fn hear(&mut self, said: &[u8]) -> Look {
        if !asks_for_encryption(said) || self.answered >= ANSWERS {
            return Look::IsDue;
        }
        self.answered += 1;
        self.looks = 0;
        match self.stream.write_all(b"N") {
            Ok(()) => Look::Waits,
            Err(_) => Look::Gone,
        }
    }

    /// It has said nothing.
    fn wait(&mut self) -> Look {
        if self.looks >= LOOKS {
            return Look::IsDue;
        }
        self.looks += 1;
        Look::Waits
    }
}

/// Tells one that there is no seat. What cannot be written at once is left out.
fn turn_away(alloc: Global, one: Waiting) {
    let mut one = one;
    if let Ok(bytes) = refusal(alloc, TOO_MANY_CONNECTIONS, Saying::TooManyClients) {
        drop(one.stream.write_all(bytes.as_slice()));
    }
}

/// Looks at each that waits: those that wait on are left.
fn look_at(alloc: Global, here: Vec<Waiting>) -> Vec<Waiting> {
    let mut left = Vec::new(alloc);
    for one in here {
        let mut one = one;
        match one.look() {
            Look::Waits => drop(left.push(one)),
            Look::IsDue => turn_away(alloc, one),
            Look::Gone => drop(one),
        }
    }
    left
}

impl Porch {
    /// Nobody is here.
    pub fn new(alloc: Global) -> Porch {
        Porch {
            alloc,
            crowd: Mutex::new(Crowd {
                come: Vec::new(alloc),
                refused: 0,
            }),
            someone: Condvar::new(),
        }
    }

    /// One comes. Where too many wait it is told at once.
    pub fn take<R: Wait>(&self, rt: &R, stream: TcpStream) {
        let one = Waiting {
            stream,
            looks: 0,
            answered: 0,
        };
        if one.stream.set_nonblocking(true).is_err() {
            return;
        }
        let mut crowd = self.crowd.lock(rt);
        crowd.refused = crowd.refused.saturating_add(1);
        self.someone.notify_all();
        if crowd.come.len() < ROOM {
            drop(crowd.come.push(one));
        } else {
            drop(crowd);
            turn_away(self.alloc, one);
        }
    }

    /// Those who have come since. Where nobody is here somebody is waited for.
    fn come<R: Wait>(&self, rt: &R, is_idle: bool) -> Vec<Waiting> {
        let mut crowd = self.crowd.lock(rt);
        if is_idle {
            crowd = self.someone.wait_while(rt, crowd, |crowd| {
                crowd.come.is_empty() && crowd.refused == 0
            });
        }
        mem::replace(&mut crowd.come, Vec::new(self.alloc))
    }

    /// Those who are here, and those who have come since.
    fn gather<R: Wait>(&self, rt: &R, here: Vec<Waiting>) -> Vec<Waiting> {
        let mut all = here;
        for one in self.come(rt, all.is_empty()) {
            drop(all.push(one));
        }
        all
    }

    /// How many were refused since this was asked last.
    fn refused<R: Wait>(&self, rt: &R) -> u64 {
        let mut crowd = self.crowd.lock(rt);
        mem::replace(&mut crowd.refused, 0)
    }
}

/// Tells an operator how many were refused, where a second is over since the last such line.
/// Answers when that was.
fn tell_refused<R: Wait + Clock + Eprint + Copy>(
    rt: &R,
    porch: &Porch,
    seats: u32,
    last: Option<Instant>,
) -> Option<Instant> {
    if !is_second_over(rt, last) {
        return last;
    }
    let refused = porch.refused(rt);
    if refused == 0 {
        return last;
    }
    tell(
        rt,
        porch.alloc,
        format_args!("refuses {refused} clients: all {seats} seats are taken"),
    );
    Instant::now(rt).ok()
}

/// Tells those who come, for ever; and an operator at most once a second how many.
pub(crate) fn attend<R: Wait + Clock + Eprint + Copy>(rt: &R, porch: &Porch, seats: u32) {
    let mut here = Vec::new(porch.alloc);
    let mut last = None;
    for _ in rt.forever() {
        here = look_at(porch.alloc, porch.gather(rt, here));
        last = tell_refused(rt, porch, seats, last);
        thread::sleep(rt, Duration::from_millis(REST));
    }
}
