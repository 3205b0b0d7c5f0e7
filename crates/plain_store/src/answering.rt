//! Whether a store may give an answer.
ghost use Rattle.std.specs.Prelude.{◌≡◌, ◌<◌, ◌↔◌, IfOk, IsTrue, codes, option_map};
ghost use Rattle.outcomes.specs.Given.{given_in};
ghost use Rattle.plain_store.specs.Meaning.{store_of};
ghost use Rattle.backend_trait.specs.Acting.{MayAct};
ghost use Rattle.plain_store.specs.States.{AreAll, states_of};
ghost use Rattle.plain_store.specs.Deciding.{is_code, refuses, may_give, may_fail, may_work, ran_given, ran, may_run, may_snapshot, is_live, may_lock, is_done, tells, may_answer, may_asked, may_pending};

use crate::crossing::{crosses, has_lock};
use crate::data::{Database, Phase, Wanted, Work};
use crate::given::all_given;
use crate::holding::taken_from;
use crate::sessions::Sessions;
use backend_trait::{Answer, Request};
use outcomes::{Outcome, is_any_changed, table_in};
use pool_base::{Code, NoMemory, SessionId};

fn is_stale_code(code: Code) -> bool
    ensures { result ≡ is_code (codes "40001") code }
{
    code.bytes == *b"40001"
}

fn is_deadlock(code: Code) -> bool
    ensures { result ≡ is_code (codes "40P01") code }
{
    code.bytes == *b"40P01"
}

fn is_out_of_memory(code: Code) -> bool
    ensures { result ≡ is_code (codes "53200") code }
{
    code.bytes == *b"53200"
}

/// Whether a statement that has a result may be refused with that code.
fn refuses(stale: bool, deadlock: bool, code: Code) -> bool
    ensures { result ≡ refuses stale deadlock code }
{
    (is_stale_code(code) && stale) || ((is_deadlock(code) && deadlock) || is_out_of_memory(code))
}

/// Whether it may be answered so, where it gives that answer.
fn may_give(given: &Answer, stale: bool, taken: bool, deadlock: bool, answer: &Answer) -> bool
    ensures { result ≡ may_give given.now stale taken deadlock answer.now }
{
    match answer {
        Answer::Refused(code) => refuses(stale, deadlock, *code),
        Answer::Rows(_) | Answer::Count(_) => *given == *answer && !stale && !taken,
        Answer::Began | Answer::Locked | Answer::Done | Answer::Serial(_) => false,
    }
}

/// Whether it may be answered so, where it has that code.
fn may_fail(code: Code, answer: &Answer) -> bool
    ensures { result ≡ may_fail code.bytes answer.now }
{
    match answer {
        Answer::Refused(told) => told.bytes == code.bytes || is_out_of_memory(*told),
        Answer::Began
        | Answer::Rows(_)
        | Answer::Count(_)
        | Answer::Locked
        | Answer::Done
        | Answer::Serial(_) => false,
    }
}

fn may_work(
    all: Sessions<'_>,
    s: usize,
    deadlock: bool,
    work: &Work,
    outcome: &Outcome,
    answer: &Answer,
) -> bool
    requires { AreAll all }
    ensures { result ≡ may_work (states_of all.entry) s deadlock work.now (given_in outcome.now)
        answer.now }
{
    match outcome {
        Outcome::Fails(code) => may_fail(*code, answer),
        Outcome::Gives {
            answer: given,
            places,
            ..
        } => {
            let stale = is_any_changed(work.stale.as_slice(), places.as_slice());
            let taken = taken_from(0, s, Wanted::Places(places.as_slice()), all.phases);
            may_give(given, stale, taken, deadlock, answer)
        }
    }
}

/// Whether a live transaction may be answered so, whose statement gives that.
fn ran_given(
    all: Sessions<'_>,
    s: usize,
    deadlock: bool,
    work: &Work,
    given: &Option<Outcome>,
    answer: &Answer,
) -> bool
    requires { AreAll all }
    ensures { result ≡ ran_given (states_of all.entry) s deadlock work.now
        (option_map given_in given.now) answer.now }
{
    match given {
        Some(outcome) => may_work(all, s, deadlock, work, outcome, answer),
        None => false,
    }
}

/// Whether a session may be answered so, whose statement gives that.
fn ran(
    all: Sessions<'_>,
    s: usize,
    deadlock: bool,
    phase: &Phase,
    given: &Option<Outcome>,
    answer: &Answer,
) -> bool
    requires { AreAll all }
    ensures { result ≡ ran (states_of all.entry) s deadlock phase.now
        (option_map given_in given.now) answer.now }
{
    match phase {
        Phase::Alive(work) => ran_given(all, s, deadlock, work, given, answer),
        Phase::Absent | Phase::Dead => false,
    }
}

/// Whether the statement of a session may be answered so.
fn may_run(all: Sessions<'_>, s: usize, crossed: bool, table: Option<u8>, answer: &Answer) -> bool
    requires all { AreAll all }
    requires s { s < 65 }
    ensures { result ≡ may_run (states_of all.entry) s crossed table answer.now }
{
    let deadlock = crossed && !has_lock(all.phase(s), table);
    ran(all, s, deadlock, all.phase(s), all.given(s), answer)
}

fn may_snapshot(answer: &Answer) -> bool
    ensures { result ≡ may_snapshot answer.now }
{
    match answer {
        Answer::Began => true,
        Answer::Refused(code) => is_out_of_memory(*code),
        Answer::Rows(_) | Answer::Count(_) | Answer::Locked | Answer::Done | Answer::Serial(_) =>
            false,
    }
}

pub(crate) fn is_live(phase: &Phase) -> bool
    ensures { result ≡ is_live phase.now }
{
    match phase {
        Phase::Alive(_) => true,
        Phase::Absent | Phase::Dead => false,
    }
}

fn may_lock(live: bool, taken: bool, crossed: bool, answer: &Answer) -> bool
    ensures { result ≡ may_lock live taken crossed answer.now }
{
    match answer {
        Answer::Locked => live && !taken,
        Answer::Refused(code) => is_deadlock(*code) && crossed,
        Answer::Began | Answer::Rows(_) | Answer::Count(_) | Answer::Done | Answer::Serial(_) =>
            false,
    }
}

fn is_done(answer: &Answer) -> bool
    ensures { result ≡ is_done answer.now }
{
    match answer {
        Answer::Done => true,
        Answer::Began
        | Answer::Rows(_)
        | Answer::Count(_)
        | Answer::Locked
        | Answer::Serial(_)
        | Answer::Refused(_) => false,
    }
}

/// Whether the next number is told, where there is one.
fn tells(next: Option<i64>, answer: &Answer) -> bool
    ensures { result ≡ tells next answer.now }
{
    match next {
        Some(next) => *answer == Answer::Serial(next),
        None => false,
    }
}

fn may_answer(
    all: Sessions<'_>,
    s: usize,
    crossed: bool,
    request: &Request,
    answer: &Answer,
) -> bool
    requires all { AreAll all }
    requires s { s < 65 }
    ensures { result ≡ may_answer (states_of all.entry) s crossed request.now answer.now }
{
    match request {
        Request::TakeSnapshot => may_snapshot(answer),
        Request::Run(statement) => may_run(all, s, crossed, table_in(statement), answer),
        Request::Lock(table) => {
            let taken = taken_from(0, s, Wanted::Table(*table), all.phases);
            may_lock(is_live(all.phase(s)), taken, crossed, answer)
        }
        Request::Commit => is_live(all.phase(s)) && is_done(answer),
        Request::Rollback | Request::SetSerial(_, _) => is_done(answer),
        Request::ReadSerial(table) => tells(all.numbers.at(*table), answer),
    }
}

/// Whether a session may be answered so, whose request that waits is that.
fn may_asked(
    all: Sessions<'_>,
    s: usize,
    mark: bool,
    waits: &Option<Request>,
    answer: &Answer,
) -> bool
    requires all { AreAll all }
    requires s { s < 65 }
    ensures { result ≡ may_asked (states_of all.entry) s mark waits.now answer.now }
{
    match waits {
        Some(request) => {
            let crossed = mark || crosses(all, s, request);
            may_answer(all, s, crossed, request, answer)
        }
        None => false,
    }
}

fn may_pending(all: Sessions<'_>, s: usize, mark: bool, answer: &Answer) -> bool
    requires all { AreAll all }
    requires s { s < 65 }
    ensures { result ≡ may_pending (states_of all.entry) s mark answer.now }
{
    may_asked(all, s, mark, all.asked(s), answer)
}

/// Whether the store may give a session that answer: it is not lost, a request waits, and the table
/// of answers allows it.
pub fn may_act(store: &Database, s: SessionId, answer: &Answer) -> Result<bool, NoMemory>
    ensures { IfOk result (λ may. IsTrue may ↔ MayAct (store_of store.now) s.number answer.now) }
{
    if store.is_lost {
        return Ok(false);
    }
    let given = all_given(store)?;
    let all = Sessions::of(store, given.as_slice());
    let at = s.number as usize;
    let mark = store.crossed[at];
    Ok(may_pending(all, at, mark, answer))
}
