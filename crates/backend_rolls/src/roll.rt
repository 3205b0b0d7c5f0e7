//! The roll of a backend.

use crate::known::Known;
use pool_base::SessionId;

/// The roll of a backend: what is known of each session there, by the session's number.
#[derive(Clone, Copy)]
pub struct Roll {
    known: [Known; 65],
}

impl Roll {
    ghost use Rattle.std.specs.Prelude.{◌≡◌, ℕ};
    ghost use Rattle.backend_trait.specs.Rows.{with_at};
    ghost use Rattle.backend_rolls.specs.Known.{nothing_known};
    ghost use Rattle.backend_rolls.specs.Rolls.{known_in};

    /// Nobody has a transaction, or waits.
    pub fn new() -> Roll
        ensures { (s : ℕ) → known_in result s ≡ nothing_known }
    {
        let known = Known::nothing();
        Roll { known: [known; 65] }
    }

    /// What is known of a session.
    pub fn at(&self, s: SessionId) -> Known
        ensures { result ≡ known_in self.now s.number }
    {
        self.known[s.number as usize]
    }

    /// That is known of a session from now on.
    pub fn put(&mut self, s: SessionId, known: Known)
        ensures { known_in self.new ≡ with_at (known_in self.old) s.number known }
    {
        self.known[s.number as usize] = known;
    }
}
