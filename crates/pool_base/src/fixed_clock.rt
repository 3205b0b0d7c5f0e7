//! A clock that is set by hand.
ghost use Rattle.std.specs.Prelude.{◌≡◌, ◌≢◌, ◌+◌, ◌-◌, Some, [], length, slice_index_or};
ghost use Rattle.pool_base.specs.Moments.{given_of};

use crate::list::List;
use crate::outside::Clock;
use std::sync::Wait;

/// A clock that gives its moments, and then the last one again and again.
///
/// It counts its calls in a `u64`, and waits forever at the call that it can count no more.
#[derive(Drop)]
pub struct FixedClock<W: Wait + Drop> {
    moments: List<i64>,
    last: i64,
    calls: u64,
    rt: W,
}

impl<W: Wait + Drop> FixedClock<W> {
    /// Units: microseconds since 2000-01-01 00:00 UTC.
    pub fn new(rt: W, moments: List<i64>) -> FixedClock<W>
        requires { moments ≢ [] }
        ensures given { ⟦<FixedClock<W> as Clock>⟧.given result ≡ Some [] }
        ensures moments { result.moments ≡ moments }
        ensures last { result.last ≡ slice_index_or moments (length moments - 1) result.last }
    {
        let last = last_of(moments.as_slice());
        FixedClock {
            moments,
            last,
            calls: 0,
            rt,
        }
    }
}

fn last_of(moments: &[i64]) -> i64
    requires { moments.now ≢ [] }
    ensures { result ≡ slice_index_or moments.now (length moments.now - 1) result }
{
    moments[moments.len() - 1]
}

fn moment_at(moments: &[i64], last: i64, place: u64) -> i64
    ensures { result ≡ slice_index_or moments.now place last }
{
    if place < moments.len() as u64 {
        return moments[place as usize];
    }
    last
}

impl<W: Wait + Drop> Clock for FixedClock<W> {
    ghost given = { λ c. Some (given_of c.moments c.last c.calls) };

    #[tactic(auto, using(crate::proofs::Clocks::gives_next))]
    fn now(&mut self) -> i64 {
        let calls = count_on(&self.rt, self.calls);
        let moment = moment_at(self.moments.as_slice(), self.last, self.calls);
        self.calls = calls;
        moment
    }
}

/// The next count. At the largest count it waits forever.
fn count_on(rt: &impl Wait, calls: u64) -> u64
    ensures { result ≡ calls + 1 }
{
    for _ in rt.forever() {
        if let Some(next) = calls.checked_add(1) {
            return next;
        }
    }
    unreachable!()
}
