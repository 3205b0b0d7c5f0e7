//! Which requests wait on, for whom, and whether in a cycle.
ghost use Rattle.std.specs.Prelude.{◌≡◌, ◌⊎◌, ◌<◌, ◌↔◌, ℕ, true, false, None, IfOk, IfSome, IsTrue, length, option_map, slice_index_or};
ghost use Rattle.backend_trait.specs.Acts.{IsInCycle};
ghost use Rattle.outcomes.specs.Given.{given_in};
ghost use Rattle.plain_store.specs.Phases.{claim_of};
ghost use Rattle.plain_store.specs.Meaning.{store_of};
ghost use Rattle.backend_trait.specs.Acting.{IsHeldUp};
ghost use Rattle.plain_store.specs.States.{AreAll, states_of};
ghost use Rattle.plain_store.specs.Deciding.{LeadsBack, wish_fresh, wish_run, wish_lock, wish_of, wish_at, taken_wish, holds_wish, waits_for};

use crate::data::{Database, Phase, Wanted, Work};
use crate::given::all_given;
use crate::holding::{holds_phase, taken_from};
use crate::sessions::Sessions;
use backend_trait::Request;
use outcomes::{Outcome, is_any_changed};
use pool_base::{NoMemory, SessionId};

/// The places that the statement of a live transaction is kept from where another holds them: none
/// of them is stale.
fn wish_fresh<'a>(work: &Work, given: &'a Option<Outcome>) -> Option<Wanted<'a>>
    ensures { option_map claim_of result
        ≡ wish_fresh work.now (option_map given_in given.now) }
{
    match given {
        Some(Outcome::Gives { places, .. }) => {
            if is_any_changed(work.stale.as_slice(), places.as_slice()) {
                None
            } else {
                Some(Wanted::Places(places.as_slice()))
            }
        }
        Some(Outcome::Fails(_)) | None => None,
    }
}

fn wish_run<'a>(phase: &Phase, given: &'a Option<Outcome>) -> Option<Wanted<'a>>
    ensures { option_map claim_of result
        ≡ wish_run phase.now (option_map given_in given.now) }
{
    match phase {
        Phase::Alive(work) => wish_fresh(work, given),
        Phase::Absent | Phase::Dead => None,
    }
}

fn wish_lock(table: u8, phase: &Phase) -> Option<Wanted<'static>>
    ensures { option_map claim_of result ≡ wish_lock table phase.now }
{
    match phase {
        Phase::Alive(_) => Some(Wanted::Table(table)),
        Phase::Absent | Phase::Dead => None,
    }
}

/// What a request that waits is kept from where another holds it.
fn wish_of<'a>(
    phase: &Phase,
    given: &'a Option<Outcome>,
    waits: &Option<Request>,
) -> Option<Wanted<'a>>
    ensures { option_map claim_of result
        ≡ wish_of phase.now (option_map given_in given.now) waits.now }
{
    match waits {
        Some(Request::Run(_)) => wish_run(phase, given),
        Some(Request::Lock(table)) => wish_lock(*table, phase),
        Some(
            Request::TakeSnapshot
            | Request::Commit
            | Request::Rollback
            | Request::ReadSerial(_)
            | Request::SetSerial(_, _),
        )
        | None => None,
    }
}

/// What the request of a session is kept from where another holds it.
fn wish_at<'a>(all: Sessions<'a>, s: usize) -> Option<Wanted<'a>>
    requires all { AreAll all }
    requires s { s < 65 }
    ensures { option_map claim_of result ≡ wish_at (states_of all.entry) s }
{
    wish_of(all.phase(s), all.given(s), all.asked(s))
}

/// Whether another session than `s` holds it.
fn taken_wish(all: Sessions<'_>, s: usize, wish: Option<Wanted<'_>>) -> bool
    requires { AreAll all }
    ensures { result ≡ taken_wish (states_of all.entry) s (option_map claim_of wish.entry) }
{
    match wish {
        Some(wanted) => taken_from(0, s, wanted, all.phases),
        None => false,
    }
}

/// Whether the request of a session has to wait on: another holds what it wants.
pub fn is_held_up(store: &Database, s: SessionId) -> Result<bool, NoMemory>
    ensures { IfOk result (λ is. IsTrue is ↔ IsHeldUp (store_of store.now) s.number) }
{
    let given = all_given(store)?;
    let all = Sessions::of(store, given.as_slice());
    let at = s.number as usize;
    Ok(taken_wish(all, at, wish_at(all, at)))
}

fn holds_wish(wish: Option<Wanted<'_>>, phase: &Phase) -> bool
    ensures { result ≡ holds_wish (option_map claim_of wish.entry) phase.now }
{
    match wish {
        Some(wanted) => holds_phase(wanted, phase),
        None => false,
    }
}

/// Whether the request of one session waits for another session.
fn waits_for(all: Sessions<'_>, s: usize, o: usize) -> bool
    requires all { AreAll all }
    requires s { s < 65 }
    requires o { o < 65 }
    ensures { result ≡ waits_for (states_of all.entry) s o }
{
    !(o == s) && holds_wish(wish_at(all, s), all.phase(o))
}

/// Marks the sessions for which the request of a session waits.
fn mark_next(all: Sessions<'_>, s: usize, found: &mut [bool; 65])
    requires all { AreAll all }
    requires s { s < 65 }
    ensures kept { (o : ℕ) → slice_index_or found.old o false ≡ true
        → slice_index_or found.new o false ≡ true }
    ensures next { (o : ℕ) → waits_for (states_of all.entry) s o ≡ true
        → slice_index_or found.new o false ≡ true }
    ensures only { (o : ℕ) → slice_index_or found.new o false ≡ true
        → (slice_index_or found.old o false ≡ true) ⊎ (waits_for (states_of all.entry) s o ≡ true) }
{
    for o in 0..65 {
        if waits_for(all, s, o) {
            found[o] = true;
        }
    }
}

/// No session is marked.
fn nobody() -> [bool; 65]
    ensures none { (o : ℕ) → slice_index_or result o false ≡ false }
    ensures len { length result ≡ 65 }
{
    [false; 65]
}

/// A session that is found, and whose waits were not followed yet.
fn first_open(found: &[bool; 65], followed: &[bool; 65]) -> Option<usize>
    ensures some { IfSome result (λ s. (s < 65) × (slice_index_or found.now s false ≡ true)
        × (slice_index_or followed.now s false ≡ false)) }
    ensures none { result ≡ None → (s : ℕ) → slice_index_or found.now s false ≡ true
        → slice_index_or followed.now s false ≡ true }
{
    for s in 0..65 {
        if found[s] && !followed[s] {
            return Some(s);
        }
    }
    None
}

/// Whether waits lead from a session back to it.
fn leads_back(all: Sessions<'_>, at: usize) -> bool
    requires all { AreAll all }
    requires at { at < 65 }
    ensures { IsTrue result ↔ LeadsBack (waits_for (states_of all.entry)) at }
{
    let mut found = nobody();
    let mut followed = nobody();
    mark_next(all, at, &mut found);
    'walk: while let Some(next) = first_open(&found, &followed) {
        followed[next] = true;
        mark_next(all, next, &mut found);
    }
    found[at]
}

/// Whether the waiting of a session closes a cycle of waits.
pub fn is_in_cycle(store: &Database, s: SessionId) -> Result<bool, NoMemory>
    ensures { IfOk result (λ is. IsTrue is ↔ IsInCycle (store_of store.now) s.number) }
{
    let given = all_given(store)?;
    let all = Sessions::of(store, given.as_slice());
    Ok(leads_back(all, s.number as usize))
}
