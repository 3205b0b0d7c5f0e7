//! The store as a backend.
ghost use Rattle.std.specs.Prelude.{◌≡◌, ◌≤◌, None, true};
ghost use Rattle.backend_trait.specs.Store.{MayPost, posted_by};
ghost use Rattle.backend_trait.specs.declared.request.Posted.TheVariants as posts;
ghost use Rattle.model_store.specs.Acting.{takes_none};
ghost use Rattle.model_store.specs.Meaning.{meaning as meaning_of};

use crate::store::MemoryStore;
use crate::verdict::{Verdict, decide};
use crate::waiting::{has_room, wait};
use backend_trait::{Answer, Backend, Catalogue, Polled, Posted, Request, Row};
use checked_sql::catalogue_copied;
use outcomes::{NextNumbers, rows_of};
use pool_base::{List, NoMemory, SessionId};

/// It is honest, prompt and steady.
impl Backend for MemoryStore {
    ghost meaning = { meaning_of };

    ghost count = { λ store. store.faults };

    ghost is_honest = { λ store. true };

    ghost is_prompt = { λ store. true };

    ghost is_steady = { λ store. true };

    fn prepare(&mut self, catalogue: &Catalogue) -> Result<(), NoMemory> {
        let copy = catalogue_copied(self.alloc, catalogue)?;
        self.numbers = NextNumbers::new(catalogue);
        self.catalogue = copy;
        Ok(())
    }

    fn post(&mut self, s: SessionId, request: Request) -> Posted
        requires idle { (meaning_of self.old).pending s.number ≡ None }
        requires may { MayPost (meaning_of self.old) s.number request }
        ensures posted { posted_by (meaning_of self.old) s.number request result (meaning_of
            self.new) }
        ensures count { self.old.faults ≤ self.new.faults }
        // A post of Lock, Commit or Rollback wants no memory.
        ensures sure { takes_none request ≡ true → result ≡ posts.Accepted }
    {
        if !has_room(self.alloc, &mut self.log, &mut self.index, &request) {
            return Posted::NoMemory(request);
        }
        let at = s.number as usize;
        let log = self.log.as_slice();
        wait(
            &mut self.seats[at],
            self.alloc,
            &self.catalogue,
            &self.numbers,
            &self.index,
            log,
            request,
        )
    }

    fn poll(&mut self, s: SessionId) -> Polled {
        if self.is_lost {
            self.faults = self.faults.saturating_add(1);
            return Polled::Lost;
        }
        let at = s.number as usize;
        match decide(self.log.as_slice(), self.seats.as_slice(), at) {
            Verdict::Waits => Polled::NotYet,
            Verdict::Refused(code) => {
                self.refused(at, code);
                Polled::Answered(Answer::Refused(code))
            }
            Verdict::Goes => Polled::Answered(self.granted(at)),
        }
    }

    fn lose(&mut self) {
        self.is_lost = true;
    }

    fn rows_of(&self, table: u8) -> Result<List<Row>, NoMemory> {
        rows_of(self.alloc, self.log.as_slice(), table)
    }

    fn serial_of(&self, table: u8) -> Option<i64> {
        self.numbers.at(table)
    }

    fn faults(&self) -> u64 {
        self.faults
    }
}
