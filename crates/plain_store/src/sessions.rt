//! All sessions of a store, as they stand.
ghost use Rattle.std.specs.Prelude.{◌≡◌, ◌<◌, option_map};
ghost use Rattle.outcomes.specs.Given.{given_in};
ghost use Rattle.plain_store.specs.Giving.{AreGiven};
ghost use Rattle.plain_store.specs.States.{AreAll, states_of, states_in, phase_at, asked_at};

use crate::data::{Database, Phase};
use backend_trait::Request;
use outcomes::{NextNumbers, Outcome};

/// All sessions by their numbers: the transaction, the request that waits, and what it gives where
/// it is a statement of a live transaction; and the next numbers of serial columns.
#[derive(Clone, Copy)]
pub(crate) struct Sessions<'a> {
    pub phases: &'a [Phase],
    pub requests: &'a [Option<Request>],
    pub given: &'a [Option<Outcome>],
    pub numbers: &'a NextNumbers,
}

impl<'a> Sessions<'a> {
    /// Those of a store whose statements that wait give that.
    pub fn of(store: &'a Database, given: &'a [Option<Outcome>]) -> Sessions<'a>
        requires { AreGiven store.now given.now }
        ensures all { AreAll result }
        ensures states { states_of result ≡ states_in store.now }
    {
        let phases = store.phases.as_slice();
        let requests = store.requests.as_slice();
        Sessions {
            phases,
            requests,
            given,
            numbers: &store.numbers,
        }
    }

    /// The transaction of a session.
    pub fn phase(self, s: usize) -> &'a Phase
        requires all { AreAll self }
        requires s { s < 65 }
        ensures { result.now ≡ phase_at (states_of self.entry) s }
    {
        &self.phases[s]
    }

    /// The request of a session that waits.
    pub fn asked(self, s: usize) -> &'a Option<Request>
        requires all { AreAll self }
        requires s { s < 65 }
        ensures { result.now ≡ asked_at (states_of self.entry) s }
    {
        &self.requests[s]
    }

    /// What the statement of a session gives its live transaction. None: no such statement waits.
    pub fn given(self, s: usize) -> &'a Option<Outcome>
        requires all { AreAll self }
        requires s { s < 65 }
        ensures { option_map given_in result.now ≡ (states_of self.entry).given s }
    {
        &self.given[s]
    }
}
