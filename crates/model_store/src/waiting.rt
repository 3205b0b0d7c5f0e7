//! Requests that are posted.
ghost use Rattle.std.specs.Prelude.{◌≡◌, ◌≤◌, ◌+◌, List as Sequence, None, Some, true, length, vec_len, vec_capacity, IfOk, IsTrue, OnOk};
ghost use Rattle.backend_trait.specs.Effect.{effect_of, table_in};
ghost use Rattle.backend_trait.specs.Runnable.{IsRunnable};
ghost use Rattle.backend_trait.specs.Store.{next_for, view_of};
ghost use Rattle.backend_trait.specs.declared.request.Request.TheVariants as requests;
ghost use Rattle.backend_trait.specs.declared.request.Posted.TheVariants as posts;
ghost use Rattle.outcomes.specs.declared.change.ChangeSet.{ChangeSet};
ghost use Rattle.model_store.specs.Phases.{live_of, transaction_of, mark_of, is_open, fits, run_of, has_room_for, has_room_in, IsGivenAt};
ghost use Rattle.model_store.specs.Acting.{admits, takes_none, WaitsFor, MayRunAt};
ghost use Rattle.catalogue.specs.declared.checked.Checked.{Checked as CheckedStatement};
ghost use Rattle.outcomes.specs.Given.{given_in};
ghost use Rattle.outcomes.specs.Indexed.{IsIndexOf};
ghost use Rattle.outcomes.specs.Next.{next_of};
ghost use Rattle.outcomes.specs.Stored.{AreAllStored, IsSetStored};
ghost use Rattle.model_store.specs.Stored.{AreStoredIn};

use crate::phase::{Phase, Run, Waiting, Work};
use crate::seat::Seat;
use backend_trait::{Catalogue, Checked, Posted, Request};
use outcomes::{ChangeSet, Index, NextNumbers, Outcome, outcome_at, table_in};
use pool_base::NoMemory;
use std::alloc::Global;

/// How many seats there are: one at each number of a session, and one that none has.
pub(crate) const SEATS: usize = 65;

/// Makes ready for a request: room for the sets of all sessions where it begins a transaction, and
/// all sets in the index where it is a statement.
pub(crate) fn has_room(
    alloc: Global,
    log: &mut Vec<ChangeSet>,
    index: &mut Index,
    request: &Request,
) -> bool
    requires { IsIndexOf index.old log.old.items }
    ensures items { log.new.items ≡ log.old.items }
    ensures len { vec_len log.new ≡ vec_len log.old }
    ensures capacity { vec_capacity log.old ≤ vec_capacity log.new }
    ensures room { IsTrue result → request.now ≡ requests.TakeSnapshot
        → vec_len log.new + 65 ≤ vec_capacity log.new }
    ensures indexed { IsIndexOf index.new log.old.items }
    ensures whole { (statement : CheckedStatement) → IsTrue result
        → request.now ≡ requests.Run statement → index.new.sets ≡ length log.old.items }
    ensures sure { takes_none request.now ≡ true → IsTrue result }
{
    match request {
        Request::TakeSnapshot => log.reserve(SEATS).is_ok(),
        Request::Run(_) => index.follow(alloc, log.as_slice()).is_ok(),
        Request::Lock(_) => true,
        Request::Commit => true,
        Request::Rollback => true,
        Request::ReadSerial(_) => true,
        Request::SetSerial(..) => true,
    }
}

/// Makes room behind the items for so many more. Where there is none yet, no more is taken: most
/// transactions have one statement.
fn make_space<T>(items: &mut Vec<T>, additional: usize) -> Result<(), NoMemory>
    ensures items { items.new.items ≡ items.old.items }
    ensures room { OnOk result (vec_len items.new + additional ≤ vec_capacity items.new) }
{
    if items.is_empty() {
        items.reserve_exact(additional)?;
    } else {
        items.reserve(additional)?;
    }
    Ok(())
}

/// Makes room in a transaction for so many changes and places more.
fn make_room(work: &mut Work, changes: usize, places: usize) -> Result<(), NoMemory>
    ensures live { (log : Sequence ChangeSet) → live_of log work.new ≡ live_of log work.old }
    ensures mark { work.new.mark ≡ work.old.mark }
    ensures room { OnOk result ((vec_len work.new.own.changes + changes
        ≤ vec_capacity work.new.own.changes)
        × (vec_len work.new.held + places ≤ vec_capacity work.new.held)) }
{
    make_space(&mut work.own.changes, changes)?;
    make_space(&mut work.held, places)?;
    Ok(())
}

/// Makes room in a transaction for what a statement gives it.
fn make_place(work: &mut Work, outcome: &Outcome) -> Result<(), NoMemory>
    ensures live { (log : Sequence ChangeSet) → live_of log work.new ≡ live_of log work.old }
    ensures mark { work.new.mark ≡ work.old.mark }
    ensures room { OnOk result (has_room_for work.new outcome.now) }
{
    match outcome {
        Outcome::Fails(_) => Ok(()),
        Outcome::Gives {
            changes,
            places,
            ..
        } => make_room(work, changes.len(), places.len()),
    }
}

/// What a statement gives a transaction.
fn outcome_in(
    alloc: Global,
    catalogue: &Catalogue,
    numbers: &NextNumbers,
    index: &Index,
    log: &[ChangeSet],
    work: &Work,
    statement: &Checked,
) -> Result<Outcome, NoMemory>
    requires runnable { IsRunnable catalogue.now statement.now }
    requires indexed { IsIndexOf index.now log.now }
    requires whole { index.now.sets ≡ length log.now }
    requires marked { work.now.mark ≤ length log.now }
    requires committed { AreAllStored catalogue.now log.now }
    requires stored { IsSetStored catalogue.now work.now.own }
    ensures { IfOk result (λ outcome. given_in outcome ≡ (effect_of catalogue.now statement.now
        (view_of (live_of log.now work.now))
        (next_for (next_of numbers.now) (table_in statement.now))).given) }
{
    let own = work.own.changes.as_slice();
    let next = numbers.next_for(table_in(statement));
    outcome_at(alloc, catalogue, index, work.mark, own, next, statement)
}

/// What a statement gives a transaction, which has room for it then.
fn prepared(
    alloc: Global,
    catalogue: &Catalogue,
    numbers: &NextNumbers,
    index: &Index,
    log: &[ChangeSet],
    work: &mut Work,
    statement: &Checked,
) -> Result<Outcome, NoMemory>
    requires runnable { IsRunnable catalogue.now statement.now }
    requires indexed { IsIndexOf index.now log.now }
    requires whole { index.now.sets ≡ length log.now }
    requires marked { work.old.mark ≤ length log.now }
    requires committed { AreAllStored catalogue.now log.now }
    requires stored { IsSetStored catalogue.now work.old.own }
    ensures live { (log : Sequence ChangeSet) → live_of log work.new ≡ live_of log work.old }
    ensures mark { work.new.mark ≡ work.old.mark }
    ensures given { IfOk result (λ outcome. given_in outcome ≡ (effect_of catalogue.now
        statement.now (view_of (live_of log.now work.old))
        (next_for (next_of numbers.now) (table_in statement.now))).given) }
    ensures room { IfOk result (λ outcome. has_room_for work.new outcome) }
{
    let outcome = outcome_in(alloc, catalogue, numbers, index, log, work, statement)?;
    make_place(work, &outcome)?;
    Ok(outcome)
}

/// What a statement gives a session's transaction, which has room for it then.
fn prepared_run(
    alloc: Global,
    catalogue: &Catalogue,
    numbers: &NextNumbers,
    index: &Index,
    log: &[ChangeSet],
    phase: &mut Phase,
    statement: &Checked,
) -> Result<Outcome, NoMemory>
    requires may { MayRunAt catalogue.now phase.old statement.now }
    requires indexed { IsIndexOf index.now log.now }
    requires whole { index.now.sets ≡ length log.now }
    requires marked { mark_of phase.old ≤ length log.now }
    requires committed { AreAllStored catalogue.now log.now }
    requires stored { AreStoredIn catalogue.now phase.old }
    ensures transaction { (log : Sequence ChangeSet)
        → transaction_of log phase.new ≡ transaction_of log phase.old }
    ensures mark { mark_of phase.new ≡ mark_of phase.old }
    ensures live { is_open phase.new ≡ true }
    ensures was_live { is_open phase.old ≡ true }
    ensures given { IfOk result (λ outcome. IsGivenAt (next_of numbers.now) catalogue.now log.now
        phase.new (run_of statement.now outcome)) }
    ensures room { IfOk result (λ outcome. has_room_in phase.new
        (run_of statement.now outcome)) }
{
    match phase {
        Phase::Open(work) => prepared(alloc, catalogue, numbers, index, log, work, statement),
        Phase::Absent | Phase::Dead => unreachable!(),
    }
}

/// The request waits from now on.
fn accept(seat: &mut Seat, waiting: Waiting) -> Posted
    requires fitting { fits seat.old.phase (Some waiting) ≡ true }
    requires roomy { has_room_in seat.old.phase (Some waiting) }
    ensures phase { seat.new.phase ≡ seat.old.phase }
    ensures waiting { seat.new.waiting ≡ Some waiting }
    ensures accepted { result ≡ posts.Accepted }
{
    seat.waiting = Some(waiting);
    Posted::Accepted
}

/// Puts a statement into a seat, with what it gives and the room that this needs.
fn wait_to_run(
    seat: &mut Seat,
    alloc: Global,
    catalogue: &Catalogue,
    numbers: &NextNumbers,
    index: &Index,
    log: &[ChangeSet],
    statement: Checked,
) -> Posted
    requires idle { seat.old.waiting ≡ None }
    requires may { MayRunAt catalogue.now seat.old.phase statement }
    requires indexed { IsIndexOf index.now log.now }
    requires whole { index.now.sets ≡ length log.now }
    requires marked { mark_of seat.old.phase ≤ length log.now }
    requires committed { AreAllStored catalogue.now log.now }
    requires stored { AreStoredIn catalogue.now seat.old.phase }
    ensures transaction { (log : Sequence ChangeSet)
        → transaction_of log seat.new.phase ≡ transaction_of log seat.old.phase }
    ensures mark { mark_of seat.new.phase ≡ mark_of seat.old.phase }
    ensures open_too { is_open seat.new.phase ≡ is_open seat.old.phase }
    ensures posted { WaitsFor (requests.Run statement) result seat.new.waiting }
    ensures given { IsGivenAt (next_of numbers.now) catalogue.now log.now seat.new.phase
        seat.new.waiting }
{
    match prepared_run(
        alloc,
        catalogue,
        numbers,
        index,
        log,
        &mut seat.phase,
        &statement,
    ) {
        Err(NoMemory) => Posted::NoMemory(Request::Run(statement)),
        Ok(outcome) => accept(seat, Waiting::Run(Run { statement, outcome })),
    }
}

/// Puts a request into a seat, with the room that its answer needs.
pub(crate) fn wait(
    seat: &mut Seat,
    alloc: Global,
    catalogue: &Catalogue,
    numbers: &NextNumbers,
    index: &Index,
    log: &[ChangeSet],
    request: Request,
) -> Posted
    requires idle { seat.old.waiting ≡ None }
    requires may { admits (next_of numbers.now) catalogue.now seat.old.phase request }
    requires indexed { IsIndexOf index.now log.now }
    requires whole { (statement : CheckedStatement) → request ≡ requests.Run statement
        → index.now.sets ≡ length log.now }
    requires marked { mark_of seat.old.phase ≤ length log.now }
    requires committed { AreAllStored catalogue.now log.now }
    requires stored { AreStoredIn catalogue.now seat.old.phase }
    ensures transaction { (log : Sequence ChangeSet)
        → transaction_of log seat.new.phase ≡ transaction_of log seat.old.phase }
    ensures mark { mark_of seat.new.phase ≡ mark_of seat.old.phase }
    ensures open_too { is_open seat.new.phase ≡ is_open seat.old.phase }
    ensures posted { WaitsFor request result seat.new.waiting }
    ensures given { IsGivenAt (next_of numbers.now) catalogue.now log.now seat.new.phase
        seat.new.waiting }
    ensures sure { takes_none request ≡ true → result ≡ posts.Accepted }
{
    match request {
        Request::TakeSnapshot => accept(seat, Waiting::Snapshot),
        Request::Run(statement) => wait_to_run(
            seat, alloc, catalogue, numbers, index, log, statement,
        ),
        Request::Lock(table) => accept(seat, Waiting::Lock(table)),
        Request::Commit => accept(seat, Waiting::Commit),
        Request::Rollback => accept(seat, Waiting::Rollback),
        Request::ReadSerial(table) => accept(seat, Waiting::ReadSerial(table)),
        Request::SetSerial(table, next) => accept(seat, Waiting::SetSerial(table, next)),
    }
}
