//! The trait of backends.
ghost use Rattle.std.specs.Prelude.{◌≡◌, ◌≤◌, ℕ, ℤ, Bool, true, None, IfOk, OnOk, OnErr, IsSome};
ghost use Rattle.schema.specs.Allowed.{AreAllowed};
ghost use Rattle.schema.specs.Ranges.{AreInRange};
ghost use Rattle.backend_trait.specs.Store.{Store, blank, prepared, posted_by, lost_by, MayPost, line_of};
ghost use Rattle.backend_trait.specs.Acts.{InForm, Acts, IsPromptly};
ghost use Rattle.backend_trait.specs.Rows.{rows_in};

use crate::answer::Polled;
use crate::request::{Posted, Request};
use catalogue::Catalogue;
use pool_base::{List, NoMemory, SessionId};
use sql_eval::Row;

/// A database with all its sessions.
///
/// `meaning` is the store that it means, and `count` its faults so far. No call changes the three
/// facts: whether it is honest (each answer is one that its store may give), prompt (honest, and
/// an answer waits only where it must), and steady (it is lost only where `lose` was called).
pub trait Backend: Drop {
    ghost meaning: { Self → Store };

    ghost count: { Self → ℕ };

    ghost is_honest: { Self → Bool };

    ghost is_prompt: { Self → Bool };

    ghost is_steady: { Self → Bool };

    /// Gives a blank store the tables of a catalogue, without rows.
    fn prepare(&mut self, catalogue: &Catalogue) -> Result<(), NoMemory>
        requires blank { meaning self.old ≡ blank }
        requires in_range { AreInRange catalogue.now }
        requires allowed { AreAllowed catalogue.now }
        ensures prepared { OnOk result (meaning self.new ≡ prepared catalogue.now) }
        ensures unchanged { OnErr result (meaning self.new ≡ meaning self.old) }
        ensures count { count self.old ≤ count self.new }
        ensures honest { is_honest self.new ≡ is_honest self.old }
        ensures prompt { is_prompt self.new ≡ is_prompt self.old }
        ensures steady { is_steady self.new ≡ is_steady self.old };

    /// Puts a request of a session.
    fn post(&mut self, s: SessionId, request: Request) -> Posted
        requires idle { (meaning self.old).pending s.number ≡ None }
        requires may { MayPost (meaning self.old) s.number request }
        ensures posted { posted_by (meaning self.old) s.number request result (meaning self.new) }
        ensures count { count self.old ≤ count self.new }
        ensures honest { is_honest self.new ≡ is_honest self.old }
        ensures prompt { is_prompt self.new ≡ is_prompt self.old }
        ensures steady { is_steady self.new ≡ is_steady self.old };

    /// Looks for the answer to the session's request.
    fn poll(&mut self, s: SessionId) -> Polled
        requires pending { IsSome ((meaning self.old).pending s.number) }

        // Of every backend: an answer has the form of its request, and what it leaves follows it.
        ensures form { InForm (meaning self.old) s.number result (count self.old) (count self.new)
            (meaning self.new) }
        ensures count { count self.old ≤ count self.new }

        // Of an honest one, of a prompt one, and of a steady one.
        ensures acts { is_honest self.old ≡ true
            → Acts (meaning self.old) s.number result (meaning self.new) }
        ensures promptly { is_prompt self.old ≡ true
            → IsPromptly (meaning self.old) s.number result }
        ensures stays { is_steady self.old ≡ true
            → (meaning self.new).lost ≡ (meaning self.old).lost }

        ensures honest { is_honest self.new ≡ is_honest self.old }
        ensures prompt { is_prompt self.new ≡ is_prompt self.old }
        ensures steady { is_steady self.new ≡ is_steady self.old };

    /// Loses it: it acts no more.
    fn lose(&mut self)
        ensures lost { meaning self.new ≡ lost_by (meaning self.old) }
        ensures count { count self.old ≤ count self.new }
        ensures honest { is_honest self.new ≡ is_honest self.old }
        ensures prompt { is_prompt self.new ≡ is_prompt self.old }
        ensures steady { is_steady self.new ≡ is_steady self.old };

    /// The committed rows of a table, in the order of their keys.
    fn rows_of(&self, table: u8) -> Result<List<Row>, NoMemory>
        ensures { IfOk result (λ rows. rows ≡ rows_in (meaning self.now).rows table) };

    /// The next number of a table's serial column. None: it has no such column, or keeps no number
    /// of it.
    fn serial_of(&self, table: u8) -> Option<i64>
        ensures { result ≡ (meaning self.now).next table };

    /// How many faults of it there were so far.
    fn faults(&self) -> u64
        ensures { result ≡ count self.now };
}

/// A backend in a box.
impl Backend for Box<dyn Backend> {
    ghost meaning = { λ b. (Backend-box b).meaning b.value };

    ghost count = { λ b. (Backend-box b).count b.value };

    ghost is_honest = { λ b. (Backend-box b).is_honest b.value };

    ghost is_prompt = { λ b. (Backend-box b).is_prompt b.value };

    ghost is_steady = { λ b. (Backend-box b).is_steady b.value };

    fn prepare(&mut self, catalogue: &Catalogue) -> Result<(), NoMemory> {
        (**self).prepare(catalogue)
    }

    fn post(&mut self, s: SessionId, request: Request) -> Posted {
        (**self).post(s, request)
    }

    fn poll(&mut self, s: SessionId) -> Polled {
        (**self).poll(s)
    }

    fn lose(&mut self) {
        (**self).lose();
    }

    fn rows_of(&self, table: u8) -> Result<List<Row>, NoMemory> {
        (**self).rows_of(table)
    }

    fn serial_of(&self, table: u8) -> Option<i64> {
        (**self).serial_of(table)
    }

    fn faults(&self) -> u64 {
        (**self).faults()
    }
}
