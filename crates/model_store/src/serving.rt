//! The steps of the store.
use crate::grant::{draw, grant_at};
use crate::phase::Phase;
use crate::seat::Seat;
use crate::store::MemoryStore;
use backend_trait::Answer;
use pool_base::Code;
use std::mem;

impl MemoryStore {
    ghost use Rattle.std.specs.Prelude.{◌≡◌, ◌<◌, ℕ, false, slice_get};
    ghost use Rattle.backend_trait.specs.declared.answer.Answer.TheVariants as answers;
    ghost use Rattle.backend_trait.specs.Acts.{WhereSome};
    ghost use Rattle.model_store.specs.declared.verdict.Verdict.TheVariants as verdicts;
    ghost use Rattle.model_store.specs.Seats.{store_of, pending_in};
    ghost use Rattle.model_store.specs.Verdicts.{IsDecided};
    ghost use Rattle.model_store.specs.Acting.{IsActed};
    ghost use Rattle.outcomes.specs.Next.{next_of};
    ghost use Rattle.model_store.specs.Meaning.{meaning};

    /// Grants the request of a seat.
    pub(crate) fn granted(&mut self, at: usize) -> Answer
        requires below { at < 65 }
        requires goes { WhereSome (pending_in (slice_get self.old.seats.items at))
            (λ p. IsDecided (store_of (next_of self.old.numbers) self.old.catalogue
            self.old.log.items self.old.seats.items false) at p.request
            verdicts.Goes) }
        requires not_lost { self.old.is_lost ≡ false }
        ensures acted { IsActed (meaning self.old) at result (meaning self.new) }
        ensures not_lost { self.new.is_lost ≡ false }
        ensures faults { self.new.faults ≡ self.old.faults }
    {
        grant_at(
            self.alloc,
            &self.catalogue,
            &mut self.log,
            &mut self.numbers,
            &mut self.seats[at],
        )
    }

    /// Refuses the request of a seat: its transaction is dead. What it has drawn stays drawn.
    pub(crate) fn refused(&mut self, at: usize, code: Code)
        requires below { at < 65 }
        requires refused { WhereSome (pending_in (slice_get self.old.seats.items at))
            (λ p. IsDecided (store_of (next_of self.old.numbers) self.old.catalogue
            self.old.log.items self.old.seats.items false) at p.request
            (verdicts.Refused code)) }
        requires not_lost { self.old.is_lost ≡ false }
        ensures acted { IsActed (meaning self.old) at (answers.Refused code) (meaning self.new) }
        ensures not_lost { self.new.is_lost ≡ false }
        ensures faults { self.new.faults ≡ self.old.faults }
    {
        draw(&self.catalogue, &mut self.numbers, &self.seats[at].waiting);
        let dead = Seat {
            phase: Phase::Dead,
            waiting: None,
        };
        drop(mem::replace(&mut self.seats[at], dead));
    }
}
