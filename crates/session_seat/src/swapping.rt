//! A spare comes in the place of a backend that is not attached.
ghost use Rattle.std.specs.Prelude.{◌≡◌, ◌↔◌, ◌<◌, true, false, length, IfErr, IfSome, OnErr, OnOk, None};
ghost use Rattle.pool_base.specs.Sets.{has};
ghost use Rattle.schema.specs.Allowed.{AreAllowed};
ghost use Rattle.schema.specs.Ranges.{AreInRange};
ghost use Rattle.backend_trait.specs.Rows.{with_at};
ghost use Rattle.backend_trait.specs.Store.{prepared};
ghost use Rattle.backend_rolls.specs.Spares.{IsFirstFree, IsNoneFree, spare_at};
ghost use Rattle.backend_rolls.specs.declared.spares.Spare.TheVariants.{Free, Aside};
ghost use Rattle.session_seat.specs.Shared.{stores_of};
ghost use Rattle.session_seat.specs.Stops.{MaySwap};
ghost use Rattle.session_seat.specs.declared.fault.StepFault.TheVariants.{Stopped};

use crate::fault::StepFault;
use crate::world::World;
use backend_rolls::{Roll, Spare};
use backend_trait::Backend;
use pool_base::BackendId;

impl<B: Backend> World<B> {
    /// Sets a spare aside, the lowest that is free; None where none is.
    pub fn set_aside(&mut self) -> Option<usize>
        ensures gate { self.new.gate ≡ self.old.gate }
        ensures tables { self.new.tables ≡ self.old.tables }
        ensures count { self.new.count ≡ self.old.count }
        ensures boxes { self.new.shelf.items ≡ self.old.shelf.items }
        ensures none { result ≡ None → IsNoneFree self.old.spares self.old.count
            (length self.old.shelf.items) }
        ensures first { IfSome result (λ found. IsFirstFree self.old.spares self.old.count
            (length self.old.shelf.items) found) }
        ensures aside { IfSome result (λ found. spare_at self.new.spares
            ≡ with_at (spare_at self.old.spares) found Aside) }
    {
        let found = self.spares.lowest(self.count, self.shelf.len())?;
        self.spares.put(found, Spare::Aside);
        Some(found)
    }

    /// Gives a spare back that was set aside, and has come in no backend's place.
    pub fn give_back(&mut self, spare: usize)
        ensures gate { self.new.gate ≡ self.old.gate }
        ensures tables { self.new.tables ≡ self.old.tables }
        ensures count { self.new.count ≡ self.old.count }
        ensures boxes { self.new.shelf.items ≡ self.old.shelf.items }
        ensures free { spare_at self.old.spares spare ≡ Aside → spare_at self.new.spares
            ≡ with_at (spare_at self.old.spares) spare Free }
    {
        if self.spares.is_aside(spare) {
            self.spares.put(spare, Spare::Free);
        }
    }

    /// Whether a spare may come in the place of a backend: it is set aside, and that is detached.
    fn may_swap(&self, b: BackendId, spare: usize) -> bool
        ensures is { result ≡ true ↔ MaySwap self.now.gate.state.attached.bits self.now.count
            self.now.spares (length self.now.shelf.items) b.number spare }
        ensures within { result ≡ true → spare < 64 }
    {
        self.is_configured(b)
            && !self.gate.state.attached.has(b)
            && spare >= self.count
            && spare < self.shelf.len()
            && self.spares.is_aside(spare)
    }

    /// Puts a spare that was set aside in the place of a backend that is not attached, once it has
    /// got the tables. What is known of the sessions there is forgotten with the old box.
    pub fn swap(&mut self, b: BackendId, spare: usize) -> Result<(), StepFault>
        requires in_range { AreInRange self.old.tables }
        requires allowed { AreAllowed self.old.tables }
        ensures gate { self.new.gate ≡ self.old.gate }
        ensures tables { self.new.tables ≡ self.old.tables }
        ensures count { self.new.count ≡ self.old.count }
        ensures boxes { length self.new.shelf.items ≡ length self.old.shelf.items }
        ensures detached { OnOk result (has self.old.gate.state.attached.bits b.number ≡ false) }
        ensures swapped { OnOk result (stores_of B.meaning self.new.tables self.new.count
            self.new.shelf.items ≡ with_at (stores_of B.meaning self.old.tables self.old.count
            self.old.shelf.items) b.number (prepared self.old.tables)) }
        ensures as_before { OnErr result (stores_of B.meaning self.new.tables
            self.new.count self.new.shelf.items ≡ stores_of B.meaning self.old.tables
            self.old.count self.old.shelf.items) }
        ensures stopped { IfErr result (λ e. e ≡ Stopped → MaySwap self.old.gate.state.attached.bits
            self.old.count self.old.spares (length self.old.shelf.items) b.number spare → ⊥) }
    {
        if !self.may_swap(b, spare) {
            return Err(StepFault::Stopped);
        }
        let at = usize::from(b.number);
        self.shelf[spare].prepare(&self.tables)?;
        self.shelf.swap(at, spare);
        self.spares.put(spare, Spare::Spent);
        self.rolls[at] = Roll::new();
        self.lost = self.lost.without(b);
        Ok(())
    }
}
