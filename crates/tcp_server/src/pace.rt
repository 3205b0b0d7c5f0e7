//! How fast clients may try passwords: so many answers a second are told at one address. A client
//! waits until its own may be told, as long as it has time.
//!
//! ```text
//! shown --a claim passes--> told: counts for a second --it was right--> counts no more
//!   ^ +--too many were told--> waits
//!   +----------------------------+
//! ```
ghost use Rattle.std.specs.Prelude.{◌≡◌};

use crate::desk::Desk;
use login::{Claim, Pace, Tries};
use serve_base::tell;
use std::alloc::Global;
use std::net::{IpAddr, SocketAddr};
use std::rt::Clock;
use std::sync::{Mutex, Wait};
use std::thread;
use std::time::{Duration, Instant};

/// How long a client waits before it is looked again whether its answer may be told.
///
/// Units: milliseconds.
const REST: u64 = 50;

/// How often that is looked at: for ten minutes, which is as long as any client has.
const LOOKS: u32 = 12_000;

/// The answers to passwords of late, at all addresses.
#[derive(Drop)]
pub(crate) struct Answers {
    tries: Mutex<Tries>,
    /// What the moments of the tries count from. `None`: the clock has failed.
    begun: Option<Instant>,
}

/// A client whose password may be answered once its address has room.
#[derive(Drop)]
pub(crate) struct Paced<'a, R> {
    desk: &'a Desk<'a, R>,
    answers: &'a Answers,
    address: u128,
    /// When its answer was let through.
    at: u64,
    passes: u64,
}

/// An address of IPv6, or one of IPv4 as it is mapped into these. All that are not known are one.
fn address_of(from: Option<SocketAddr>) -> u128 {
    let Some(from) = from else {
        return 0;
    };
    match from.ip() {
        IpAddr::V4(address) => address.to_ipv6_mapped().to_bits(),
        IpAddr::V6(address) => address.to_bits(),
    }
}

impl Answers {
    /// None was told.
    pub fn new<R: Clock>(rt: &R, alloc: Global) -> Answers {
        Answers {
            tries: Mutex::new(Tries::new(alloc)),
            begun: Instant::now(rt).ok(),
        }
    }

    /// How long it has been there.
    ///
    /// Units: milliseconds.
    fn moment<R: Clock>(&self, rt: &R) -> u64 {
        match (&self.begun, Instant::now(rt)) {
            (Some(begun), Ok(now)) => {
                let since = now.saturating_duration_since(*begun);
                since
                    .as_secs()
                    .saturating_mul(1000)
                    .saturating_add(u64::from(since.subsec_millis()))
            }
            _ => 0,
        }
    }
}

impl<'a, R: Wait + Clock + Eprint + Copy> Paced<'a, R> {
    /// A client that has shown no password yet.
    pub fn new(desk: &'a Desk<'a, R>, answers: &'a Answers) -> Paced<'a, R> {
        Paced {
            desk,
            answers,
            address: address_of(desk.visit.from),
            at: 0,
            passes: 0,
        }
    }

    /// Whether its answer may be told now. Where memory is refused it may not yet.
    fn may_be_told(&mut self) -> bool
        ensures { self.new.passes ≡ self.old.passes }
    {
        let at = self.answers.moment(self.desk.rt);
        let claim = self
            .answers
            .tries
            .lock(self.desk.rt)
            .claim(self.desk.alloc, self.address, at);
        match claim {
            Ok(Claim::Passes) => {
                self.at = at;
                true
            }
            Ok(Claim::Waits { tells: true }) => {
                let (desk, visit) = (self.desk, self.desk.visit);
                tell(
                    desk.rt,
                    desk.alloc,
                    format_args!("{visit} waits: from its address passwords are tried too fast"),
                );
                false
            }
            Ok(Claim::Waits { tells: false }) | Err(_) => false,
        }
    }

    /// Waits until its answer may be told. False: its time is over.
    fn is_in_time(&mut self) -> bool
        ensures { self.new.passes ≡ self.old.passes }
    {
        for _ in 0..LOOKS {
            if self.may_be_told() {
                return true;
            }
            if self.desk.time_left().is_none() {
                return false;
            }
            thread::sleep(self.desk.rt, Duration::from_millis(REST));
        }
        false
    }

    /// Its password was right: its answer counts no more. Where memory is refused it counts on.
    pub fn forgive(&self) {
        let mut tries = self.answers.tries.lock(self.desk.rt);
        drop(tries.forgive(self.desk.alloc, self.address, self.at));
    }
}

impl<'a, R: Wait + Clock + Eprint + Copy> Pace for Paced<'a, R> {
    ghost passes = { λ p. p.passes };

    fn wait(&mut self) -> bool {
        if self.passes == u64::MAX || !self.is_in_time() {
            return false;
        }
        self.passes += 1;
        true
    }
}
