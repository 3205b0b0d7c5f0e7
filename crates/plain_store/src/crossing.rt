//! Which requests are crossed.
ghost use Rattle.std.specs.Prelude.{◌≡◌, ◌<◌, ◌≤◌, ◌↔◌, IfOk, IsTrue, option_map};
ghost use Rattle.backend_trait.specs.Acts.{may_be_crossed};
ghost use Rattle.outcomes.specs.Given.{given_in};
ghost use Rattle.plain_store.specs.Phases.{claim_of};
ghost use Rattle.plain_store.specs.Meaning.{store_of};
ghost use Rattle.backend_trait.specs.Acting.{IsCrossedNow};
ghost use Rattle.plain_store.specs.States.{AreAll, states_of};
ghost use Rattle.plain_store.specs.Deciding.{wants_given, wants_by, locks_table, has_lock, is_locked, clash_wanted, meets, crossed_by, crosses_by, crosses_at, some_below, crosses, crosses_if, crosses_waiting};

use crate::data::{Database, Phase, Wanted};
use crate::given::all_given;
use crate::holding::{clash, has_table, holds_phase};
use crate::sessions::Sessions;
use backend_trait::Request;
use outcomes::{Outcome, table_in};
use pool_base::{NoMemory, SessionId};

/// What a statement wants.
fn wants_given(given: &Option<Outcome>) -> Option<Wanted<'_>>
    ensures { option_map claim_of result ≡ wants_given (option_map given_in given.now) }
{
    match given {
        Some(Outcome::Gives { places, .. }) => Some(Wanted::Places(places.as_slice())),
        Some(Outcome::Fails(_)) | None => None,
    }
}

/// What a request asks for.
fn wants_by<'a>(given: &'a Option<Outcome>, request: &Request) -> Option<Wanted<'a>>
    ensures { option_map claim_of result
        ≡ wants_by (option_map given_in given.now) request.now }
{
    match request {
        Request::Run(_) => wants_given(given),
        Request::Lock(table) => Some(Wanted::Table(*table)),
        Request::TakeSnapshot
        | Request::Commit
        | Request::Rollback
        | Request::ReadSerial(_)
        | Request::SetSerial(_, _) => None,
    }
}

/// Whether a session has the lock of a table.
pub(crate) fn locks_table(phase: &Phase, table: u8) -> bool
    ensures { result ≡ locks_table phase.now table }
{
    match phase {
        Phase::Alive(work) => has_table(work.tables.as_slice(), table),
        Phase::Absent | Phase::Dead => false,
    }
}

/// Whether a session has the lock of a statement's table.
pub(crate) fn has_lock(phase: &Phase, table: Option<u8>) -> bool
    ensures { result ≡ has_lock phase.now table }
{
    match table {
        None => false,
        Some(table) => locks_table(phase, table),
    }
}

/// Whether a session has the lock of the table that its request is for.
fn is_locked(phase: &Phase, request: &Request) -> bool
    ensures { result ≡ is_locked phase.now request.now }
{
    match request {
        Request::Run(statement) => has_lock(phase, table_in(statement)),
        Request::Lock(table) => locks_table(phase, *table),
        Request::TakeSnapshot
        | Request::Commit
        | Request::Rollback
        | Request::ReadSerial(_)
        | Request::SetSerial(_, _) => false,
    }
}

fn clash_wanted(wanted: Wanted<'_>, other: Option<Wanted<'_>>) -> bool
    ensures { result ≡ clash_wanted (claim_of wanted.entry) (option_map claim_of other.entry) }
{
    match other {
        Some(other) => clash(wanted, other),
        None => false,
    }
}

/// Whether what one wants conflicts with what another wants or holds.
fn meets(wanted: Option<Wanted<'_>>, wants: Option<Wanted<'_>>, phase: &Phase) -> bool
    ensures { result ≡ meets (option_map claim_of wanted.entry) (option_map claim_of wants.entry)
        phase.now }
{
    match wanted {
        Some(wanted) => clash_wanted(wanted, wants) || holds_phase(wanted, phase),
        None => false,
    }
}

/// Whether session `o`, whose request that waits is that, crosses a request of session `s`.
fn crossed_by(
    all: Sessions<'_>,
    s: usize,
    request: &Request,
    o: usize,
    waits: &Option<Request>,
) -> bool
    requires all { AreAll all }
    requires s { s < 65 }
    requires o { o < 65 }
    ensures { result ≡ crossed_by (states_of all.entry) s request.now o waits.now }
{
    match waits {
        Some(its) => {
            let wanted = wants_by(all.given(o), its);
            let wants = wants_by(all.given(s), request);
            !is_locked(all.phase(o), its) && meets(wanted, wants, all.phase(s))
        }
        None => false,
    }
}

/// Whether session `o` crosses a request of session `s` by its own.
fn crosses_by(all: Sessions<'_>, s: usize, request: &Request, o: usize) -> bool
    requires all { AreAll all }
    requires s { s < 65 }
    requires o { o < 65 }
    ensures { result ≡ crosses_by (states_of all.entry) s request.now o }
{
    crossed_by(all, s, request, o, all.asked(o))
}

/// Whether session `o` crosses a request of session `s`.
fn crosses_at(all: Sessions<'_>, s: usize, request: &Request, o: usize) -> bool
    requires all { AreAll all }
    requires s { s < 65 }
    requires o { o < 65 }
    ensures { result ≡ crosses_at (states_of all.entry) s request.now o }
{
    !(o == s) && crosses_by(all, s, request, o)
}

fn some_below(all: Sessions<'_>, s: usize, request: &Request, n: usize) -> bool
    requires all { AreAll all }
    requires s { s < 65 }
    requires n { n ≤ 65 }
    ensures { result ≡ some_below (crosses_at (states_of all.entry) s request.now) n }
{
    if n == 0 {
        return false;
    }
    crosses_at(all, s, request, n - 1) || some_below(all, s, request, n - 1)
}

/// A run or a lock alone can be crossed.
fn may_be_crossed(request: &Request) -> bool
    ensures { result ≡ may_be_crossed request.now }
{
    match request {
        Request::Run(_) | Request::Lock(_) => true,
        Request::TakeSnapshot
        | Request::Commit
        | Request::Rollback
        | Request::ReadSerial(_)
        | Request::SetSerial(_, _) => false,
    }
}

/// Whether another session crosses a request of session `s`.
#[tactic(auto, unfolding(crate::specs::Deciding::crosses))]
pub(crate) fn crosses(all: Sessions<'_>, s: usize, request: &Request) -> bool
    requires all { AreAll all }
    requires s { s < 65 }
    ensures { result ≡ crosses (states_of all.entry) s request.now }
{
    may_be_crossed(request) && some_below(all, s, request, 65)
}

fn crosses_if(all: Sessions<'_>, s: usize, waits: &Option<Request>) -> bool
    requires all { AreAll all }
    requires s { s < 65 }
    ensures { result ≡ crosses_if (states_of all.entry) s waits.now }
{
    match waits {
        Some(request) => crosses(all, s, request),
        None => false,
    }
}

pub(crate) fn crosses_waiting(all: Sessions<'_>, s: usize) -> bool
    requires all { AreAll all }
    requires s { s < 65 }
    ensures { result ≡ crosses_waiting (states_of all.entry) s }
{
    crosses_if(all, s, all.asked(s))
}

/// Whether another session crosses the request of a session, now.
pub fn is_crossed(store: &Database, s: SessionId) -> Result<bool, NoMemory>
    ensures { IfOk result (λ is. IsTrue is ↔ IsCrossedNow (store_of store.now) s.number) }
{
    let given = all_given(store)?;
    let all = Sessions::of(store, given.as_slice());
    Ok(crosses_waiting(all, s.number as usize))
}
