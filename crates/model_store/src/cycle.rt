//! Whether the request of a seat waits in a cycle of waits.
ghost use Rattle.std.specs.Prelude.{◌≡◌, ◌≢◌, ◌⊎◌, ◌<◌, ◌≤◌, ◌↔◌, ℕ, ℤ, List as Sequence, Option, true, false, None, IfSome, IsTrue, length, map, slice_get, slice_index_or};
ghost use Rattle.backend_trait.specs.declared.answer.Answer.{Answer};
ghost use Rattle.backend_trait.specs.Effect.{Wants, Conflicts, Gives};
ghost use Rattle.backend_trait.specs.Rows.{Changes};
ghost use Rattle.backend_trait.specs.Acts.{WhereSome, WaitsIn, WaitsInRun, WaitsFor, IsInCycle};
ghost use Rattle.schema.specs.declared.catalogue.TableDef.{TableDef};
ghost use Rattle.model_store.specs.Phases.{live_of};
ghost use Rattle.outcomes.specs.Given.{given_in};
ghost use Rattle.outcomes.specs.Spots.{place_of};
ghost use Rattle.model_store.specs.Seats.{store_of, pending_in, mark_in, AreGiven};
ghost use Rattle.model_store.specs.Conflicts.{wants_of, held_in};

use crate::conflict::{Wanted, holds_other};
use crate::phase::{Phase, Waiting, Work};
use crate::seat::Seat;
use crate::waiting::SEATS;
use outcomes::{ChangeSet, Outcome, Spot, is_any_changed};

/// What a statement that wants these places waits for where another holds it: the places, unless it
/// is refused.
fn wanted_places<'a>(log: &[ChangeSet], work: &Work, places: &'a [Spot]) -> Option<Wanted<'a>>
    requires { work.now.mark ≤ length log.now }
    ensures { (held : Wants) (answer : Answer) (changes : Changes)
        → WhereSome result (λ wanted. Conflicts (wants_of wanted) held)
        ↔ WaitsInRun held (live_of log.now work.now)
        (Gives answer changes (map place_of places.now)) }
{
    if is_any_changed(&log[work.mark..], places) {
        return None;
    }
    Some(Wanted::Places(places))
}

/// What a statement waits for where another holds it.
fn wanted_run<'a>(log: &[ChangeSet], work: &Work, outcome: &'a Outcome) -> Option<Wanted<'a>>
    requires { work.now.mark ≤ length log.now }
    ensures { (held : Wants) → WhereSome result (λ wanted. Conflicts (wants_of wanted) held)
        ↔ WaitsInRun held (live_of log.now work.now) (given_in outcome.now) }
{
    match outcome {
        Outcome::Fails(_) => None,
        Outcome::Gives { places, .. } => wanted_places(log, work, places.as_slice()),
    }
}

/// What the request of a seat waits for where another session holds it.
fn wanted_by<'a>(log: &[ChangeSet], seats: &'a [Seat], s: usize) -> Option<Wanted<'a>>
    requires below { s < length seats.now }
    requires marked { (o : ℕ) → mark_in (slice_get seats.now o) ≤ length log.now }
    ensures { (numbers : ℕ → Option ℤ) (tables : Sequence TableDef)
        → AreGiven numbers tables log.now seats.now
        → (held : Wants) → WhereSome result (λ wanted. Conflicts (wants_of wanted) held)
        ↔ WhereSome (pending_in (slice_get seats.now s))
        (λ p. WaitsIn (store_of numbers tables log.now seats.now false) s held p.request) }
{
    let seat = &seats[s];
    let Some(waiting) = &seat.waiting else {
        return None;
    };
    match waiting {
        Waiting::Run(run) => match &seat.phase {
            Phase::Open(work) => wanted_run(log, work, &run.outcome),
            Phase::Absent | Phase::Dead => unreachable!(),
        },
        Waiting::Lock(table) => Some(Wanted::Table(*table)),
        Waiting::Snapshot => None,
        Waiting::Commit => None,
        Waiting::Rollback => None,
        Waiting::ReadSerial(_) => None,
        Waiting::SetSerial(..) => None,
    }
}

/// Marks the other sessions that hold what conflicts.
fn mark_holders(seats: &[Seat], s: usize, wanted: Wanted<'_>, found: &mut [bool; SEATS])
    requires { length seats.now ≡ 65 }
    ensures kept { (o : ℕ) → slice_index_or found.old o false ≡ true
        → slice_index_or found.new o false ≡ true }
    ensures holders { (o : ℕ) → o ≢ s → Conflicts (wants_of wanted.entry)
        (held_in (slice_get seats.now o)) → slice_index_or found.new o false ≡ true }
    ensures only { (o : ℕ) → slice_index_or found.new o false ≡ true
        → (slice_index_or found.old o false ≡ true)
        ⊎ ((o ≢ s) × Conflicts (wants_of wanted.entry) (held_in (slice_get seats.now o))) }
{
    for other in 0..SEATS {
        if holds_other(seats, s, other, wanted) {
            found[other] = true;
        }
    }
}

/// Marks the sessions for which the request of a seat waits.
fn mark_next(log: &[ChangeSet], seats: &[Seat], s: usize, found: &mut [bool; SEATS])
    requires all_seated { length seats.now ≡ 65 }
    requires below { s < 65 }
    requires marked { (o : ℕ) → mark_in (slice_get seats.now o) ≤ length log.now }
    ensures kept { (o : ℕ) → slice_index_or found.old o false ≡ true
        → slice_index_or found.new o false ≡ true }
    ensures next { (numbers : ℕ → Option ℤ) (tables : Sequence TableDef)
        → AreGiven numbers tables log.now seats.now
        → (o : ℕ) → WaitsFor (store_of numbers tables log.now seats.now false) s o
        → slice_index_or found.new o false ≡ true }
    ensures only { (numbers : ℕ → Option ℤ) (tables : Sequence TableDef)
        → AreGiven numbers tables log.now seats.now
        → (o : ℕ) → slice_index_or found.new o false ≡ true
        → (slice_index_or found.old o false ≡ true)
        ⊎ WaitsFor (store_of numbers tables log.now seats.now false) s o }
{
    match wanted_by(log, seats, s) {
        Some(wanted) => mark_holders(seats, s, wanted, found),
        None => (),
    }
}

/// No session is marked.
fn nobody() -> [bool; SEATS]
    ensures none { (o : ℕ) → slice_index_or result o false ≡ false }
    ensures len { length result ≡ 65 }
{
    [false; SEATS]
}

/// A session that is found, and whose waits were not followed yet.
fn first_open(found: &[bool; SEATS], followed: &[bool; SEATS]) -> Option<usize>
    ensures some { IfSome result (λ s. (s < 65) × (slice_index_or found.now s false ≡ true)
        × (slice_index_or followed.now s false ≡ false)) }
    ensures none { result ≡ None → (s : ℕ) → slice_index_or found.now s false ≡ true
        → slice_index_or followed.now s false ≡ true }
{
    for s in 0..SEATS {
        if found[s] && !followed[s] {
            return Some(s);
        }
    }
    None
}

/// Whether the waiting of a session closes a cycle of waits. Each session on the way is followed
/// once.
pub(crate) fn is_in_cycle(log: &[ChangeSet], seats: &[Seat], at: usize) -> bool
    requires all_seated { length seats.now ≡ 65 }
    requires below { at < 65 }
    requires marked { (o : ℕ) → mark_in (slice_get seats.now o) ≤ length log.now }
    ensures { (numbers : ℕ → Option ℤ) (tables : Sequence TableDef)
        → AreGiven numbers tables log.now seats.now
        → (IsTrue result ↔ IsInCycle (store_of numbers tables log.now seats.now false) at) }
{
    let mut found = nobody();
    let mut followed = nobody();
    mark_next(log, seats, at, &mut found);
    'walk: while let Some(next) = first_open(&found, &followed) {
        followed[next] = true;
        mark_next(log, seats, next, &mut found);
    }
    found[at]
}
