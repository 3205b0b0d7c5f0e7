//! What becomes of a request that waits.
ghost use Rattle.std.specs.Prelude.{◌≡◌, ◌<◌, ◌≤◌, ℕ, ℤ, List as Sequence, Option, false, IsSome, length, map, slice_get, codes};
ghost use Rattle.backend_trait.specs.Acts.{WhereSome};
ghost use Rattle.backend_trait.specs.declared.answer.Answer.{Answer};
ghost use Rattle.backend_trait.specs.Effect.{Gives, table_in};
ghost use Rattle.backend_trait.specs.Rows.{Changes};
ghost use Rattle.schema.specs.declared.catalogue.TableDef.{TableDef};
ghost use Rattle.model_store.specs.Phases.{live_of, IsGivenIn};
ghost use Rattle.outcomes.specs.Given.{given_in};
ghost use Rattle.outcomes.specs.Spots.{place_of};
ghost use Rattle.outcomes.specs.declared.change.ChangeSet.{ChangeSet};
ghost use Rattle.model_store.specs.Seats.{store_of, pending_in, mark_in, AreGiven};
ghost use Rattle.model_store.specs.Verdicts.{Fits, FitsLock, FitsRun, IsDecided};

use crate::conflict::{Wanted, is_taken};
use crate::cycle::is_in_cycle;
use crate::phase::{Phase, Run, Waiting, Work};
use crate::seat::Seat;
use outcomes::{ChangeSet, Outcome, Spot, is_any_changed};
use pool_base::Code;

/// What becomes of a request that waits.
#[derive(Clone, Copy, Drop)]
pub enum Verdict {
    /// It is granted.
    Goes,
    /// It waits on.
    Waits,
    /// It is refused with this code.
    Refused(Code),
}

fn changed_meanwhile() -> Code
    ensures { result.bytes ≡ codes "40001" }
{
    Code { bytes: *b"40001" }
}

fn deadlock() -> Code
    ensures { result.bytes ≡ codes "40P01" }
{
    Code { bytes: *b"40P01" }
}

/// What becomes of a statement that wants these places: it is refused where another transaction has
/// changed one of them since the snapshot; a place that another holds is waited for.
fn verdict_on_places(
    log: &[ChangeSet],
    seats: &[Seat],
    at: usize,
    work: &Work,
    places: &[Spot],
) -> Verdict
    requires { work.now.mark ≤ length log.now }
    ensures { (numbers : ℕ → Option ℤ) (tables : Sequence TableDef) (table : Option ℕ)
        (answer : Answer) (changes : Changes)
        → FitsRun (store_of numbers tables log.now seats.now false) at (live_of log.now work.now)
        table (Gives answer changes (map place_of places.now)) result }
{
    if is_any_changed(&log[work.mark..], places) {
        return Verdict::Refused(changed_meanwhile());
    }
    if is_taken(seats, at, Wanted::Places(places)) {
        return Verdict::Waits;
    }
    Verdict::Goes
}

/// What becomes of a statement: it is refused with its code, and then for the places that it wants.
fn verdict_on_run(log: &[ChangeSet], seats: &[Seat], at: usize, work: &Work, run: &Run) -> Verdict
    requires { work.now.mark ≤ length log.now }
    ensures { (numbers : ℕ → Option ℤ) (tables : Sequence TableDef)
        → IsGivenIn numbers tables (live_of log.now work.now) run.now
        → FitsRun (store_of numbers tables log.now seats.now false) at (live_of log.now work.now)
        (table_in run.now.statement) (given_in run.now.outcome) result }
{
    match &run.outcome {
        Outcome::Fails(code) => Verdict::Refused(*code),
        Outcome::Gives { places, .. } => {
            verdict_on_places(log, seats, at, work, places.as_slice())
        }
    }
}

/// What becomes of the request of a seat: one that another session holds up is refused where its
/// waiting closes a cycle of waits.
pub(crate) fn decide(log: &[ChangeSet], seats: &[Seat], at: usize) -> Verdict
    requires all_seated { length seats.now ≡ 65 }
    requires below { at < 65 }
    requires pending { IsSome (pending_in (slice_get seats.now at)) }
    requires marked { (o : ℕ) → mark_in (slice_get seats.now o) ≤ length log.now }
    ensures { (numbers : ℕ → Option ℤ) (tables : Sequence TableDef)
        → AreGiven numbers tables log.now seats.now
        → WhereSome (pending_in (slice_get seats.now at))
        (λ p. IsDecided (store_of numbers tables log.now seats.now false) at p.request result) }
{
    match verdict_on(log, seats, at) {
        Verdict::Goes => Verdict::Goes,
        Verdict::Refused(code) => Verdict::Refused(code),
        Verdict::Waits => {
            if is_in_cycle(log, seats, at) {
                return Verdict::Refused(deadlock());
            }
            Verdict::Waits
        }
    }
}

/// What becomes of the request of a seat for its own sake: where another session holds what it
/// wants, it waits.
fn verdict_on(log: &[ChangeSet], seats: &[Seat], at: usize) -> Verdict
    requires below { at < length seats.now }
    requires pending { IsSome (pending_in (slice_get seats.now at)) }
    requires marked { mark_in (slice_get seats.now at) ≤ length log.now }
    ensures { (numbers : ℕ → Option ℤ) (tables : Sequence TableDef)
        → AreGiven numbers tables log.now seats.now
        → WhereSome (pending_in (slice_get seats.now at))
        (λ p. Fits (store_of numbers tables log.now seats.now false) at p.request result) }
{
    let seat = &seats[at];
    let Some(waiting) = &seat.waiting else {
        unreachable!()
    };
    match waiting {
        Waiting::Run(run) => match &seat.phase {
            Phase::Open(work) => verdict_on_run(log, seats, at, work, run),
            Phase::Absent | Phase::Dead => unreachable!(),
        },
        Waiting::Lock(table) => verdict_on_lock(seats, at, *table),
        Waiting::Snapshot => Verdict::Goes,
        Waiting::Commit => Verdict::Goes,
        Waiting::Rollback => Verdict::Goes,
        Waiting::ReadSerial(_) => Verdict::Goes,
        Waiting::SetSerial(..) => Verdict::Goes,
    }
}

/// What becomes of a lock: it is waited for where another holds what conflicts.
fn verdict_on_lock(seats: &[Seat], at: usize, table: u8) -> Verdict
    ensures { (numbers : ℕ → Option ℤ) (tables : Sequence TableDef) (log : Sequence ChangeSet)
        → FitsLock (store_of numbers tables log seats.now false) at table result }
{
    if is_taken(seats, at, Wanted::Table(table)) {
        Verdict::Waits
    } else {
        Verdict::Goes
    }
}
