//! What a serial insert that draws its numbers in the single run keeps of the others.
ghost use Rattle.std.specs.Prelude.{◌≡◌, ◌≢◌, ℕ, Bool, true, false, List, Option, Some};
ghost use Rattle.pool_base.specs.declared.code.Code.{Code};
ghost use Rattle.schema.specs.declared.catalogue.TableDef.{TableDef};
ghost use Rattle.backend_trait.specs.declared.answer.Answer.{Answer};
ghost use Rattle.backend_trait.specs.declared.request.Request.TheVariants.{Run};
ghost use Rattle.backend_trait.specs.Keys.{Place};
ghost use Rattle.backend_trait.specs.Rows.{Changes};
ghost use Rattle.backend_trait.specs.Effect.{Conflicts, Gives, these_places};
ghost use Rattle.backend_trait.specs.Store.{Live, Alive, Store, held_by, is_refusal, table_lock};
ghost use Rattle.backend_trait.specs.Acts.{IsFresh, IsOf, given_of};
ghost use Rattle.session_machine.specs.declared.work.Class.TheVariants.{SerialInsert};
ghost use Rattle.session_machine.specs.declared.work.Work.{Work};
ghost use Rattle.session_machine.specs.declared.machine.Machine.{Machine};
ghost use Rattle.session_machine.specs.declared.machine.Stage.TheVariants.{Inserting};
ghost use Rattle.one_copy_model.specs.declared.deed.Entry.{Entry};
ghost use Rattle.one_copy_model.specs.SingleRun.{store_after, IsRun};
ghost use Rattle.one_copy_model.specs.Places.{asks_of, decided_by};
ghost use Rattle.one_copy_model.specs.Deaths.{is_live, death_of, recorded};
ghost use Rattle.one_copy_model.specs.Tracking.{Told};
ghost use Rattle.one_copy_model.specs.Orders.{IsClassed};
ghost use Rattle.one_copy_model.specs.Invariant.{Inserts, MayRefuseTo, request_in};
ghost use Rattle.one_copy_model.specs.Own.{Own};

/// A serial insert dies in the single run, with its lock and its run: the run goes on, and what
/// holds of another session holds on, where that has no serial insert of the table under way.
pub fn death_drawn()
    ensures { (tables : List TableDef) (s o table attached : ℕ) (history : List Entry)
        (work : Work) (k : Live) (code : Code) (here : ℕ → Store) (m : Machine)
        (mail : ℕ → Option Answer) (told : Option Told) (done : ℕ → Bool) (live : Bool)
        → IsClassed tables work → work.class ≡ SerialInsert table
        → (store_after tables history).transaction s ≡ Alive k
        → request_in ((store_after tables history).pending s) ≡ Some (asks_of work)
        → ((other : ℕ) → s ≢ other → ¬ (Conflicts (table_lock table)
        (held_by ((store_after tables history).transaction other))))
        → IsRun tables history
        → MayRefuseTo (store_after tables history) s ⊥ (Run work.statement) code
        → o ≢ s
        → (is_live ((store_after tables history).transaction o) ≡ true → Inserts m table → ⊥)
        → Own tables attached history here m mail told done live o
        → IsRun tables (recorded s (death_of work (Some code)) history)
        × Own tables attached (recorded s (death_of work (Some code)) history) here m mail told
        done live o }
{}

/// So where it has its result there, as the table of answers gives one.
pub fn result_drawn()
    ensures { (tables : List TableDef) (s o table attached : ℕ) (history : List Entry)
        (work : Work) (k : Live) (answer : Answer) (changes : Changes) (places : List Place)
        (posted : Bool) (here : ℕ → Store) (m : Machine)
        (mail : ℕ → Option Answer) (told : Option Told) (done : ℕ → Bool) (live : Bool)
        → IsClassed tables work → work.class ≡ SerialInsert table
        → (store_after tables history).transaction s ≡ Alive k
        → request_in ((store_after tables history).pending s) ≡ Some (asks_of work)
        → ((other : ℕ) → s ≢ other → ¬ (Conflicts (table_lock table)
        (held_by ((store_after tables history).transaction other))))
        → IsRun tables history
        → IsOf (Run work.statement) answer → is_refusal answer ≡ false
        → given_of (store_after tables history) work.statement k ≡ Gives answer changes places
        → IsFresh (these_places places) k
        → ((other : ℕ) → other ≢ s → ¬ (Conflicts (these_places places)
        (held_by ((store_after tables history).transaction other))))
        → o ≢ s
        → (is_live ((store_after tables history).transaction o) ≡ true → Inserts m table → ⊥)
        → Own tables attached history here m mail told done live o
        → IsRun tables (recorded s (decided_by (Inserting work posted) answer) history)
        × Own tables attached (recorded s (decided_by (Inserting work posted) answer) history) here
        m mail told done live o }
{}
