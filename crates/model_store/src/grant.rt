//! Requests that are granted.
ghost use Rattle.std.specs.Prelude.{◌≡◌, ◌≤◌, ◌+◌, List as Sequence, None, Some, true, IsSome, length, vec_len, vec_capacity};
ghost use Rattle.sql_eval.specs.Effects.{DrawsFew};
ghost use Rattle.backend_trait.specs.Store.{drawn, given_to};
ghost use Rattle.outcomes.specs.declared.change.ChangeSet.{ChangeSet};
ghost use Rattle.outcomes.specs.Given.{given_in};
ghost use Rattle.outcomes.specs.Next.{next_of};
ghost use Rattle.model_store.specs.Phases.{live_of, transaction_of, fits, has_room_for, has_room_in, mark_of, owed, granted, logged, numbered, number_told, answer_of, answer_to, gives, is_result, request_of, IsGivenAt, IsGranted};
ghost use Rattle.model_store.specs.declared.phase.Run.{Run};
ghost use Rattle.model_store.specs.declared.phase.Waiting.{Waiting};
ghost use Rattle.model_store.specs.declared.phase.Waiting.TheVariants as waits;

use crate::phase::{Phase, Run, Waiting, Work};
use crate::room::put;
use crate::seat::Seat;
use crate::transaction::{begun, take_changes, take_lock};
use backend_trait::{Answer, Catalogue};
use outcomes::{ChangeSet, NextNumbers, Outcome};
use std::alloc::Global;
use std::mem;

/// Grants a transaction its statement: the answer.
fn grant_run(work: &mut Work, run: Run) -> Answer
    requires gives { is_result run.outcome ≡ true }
    requires roomy { has_room_for work.old run.outcome }
    ensures live { (log : Sequence ChangeSet)
        → live_of log work.new ≡ given_to (given_in run.outcome) (live_of log work.old) }
    ensures mark { work.new.mark ≡ work.old.mark }
    ensures answer { result ≡ answer_of run.outcome }
{
    let Run { statement, outcome } = run;
    drop(statement);
    match outcome {
        Outcome::Gives {
            answer,
            changes,
            places,
        } => {
            take_changes(work, changes, places);
            answer
        }
        Outcome::Fails(_) => unreachable!(),
    }
}

/// The next number of a table is told.
fn number_told(next: Option<i64>) -> Answer
    ensures { result ≡ number_told next }
{
    match next {
        Some(next) => Answer::Serial(next),
        None => Answer::Done,
    }
}

/// The set of a transaction that ends.
fn taken_set(alloc: Global, work: &mut Work) -> ChangeSet
    ensures { result ≡ work.old.own }
{
    let none = ChangeSet {
        changes: Vec::new(alloc),
    };
    mem::replace(&mut work.own, none)
}

/// Grants a request to a session's transaction: the answer. A statement draws its numbers.
pub(crate) fn grant(
    alloc: Global,
    catalogue: &Catalogue,
    log: &mut Vec<ChangeSet>,
    numbers: &mut NextNumbers,
    phase: &mut Phase,
    waiting: Waiting,
) -> Answer
    requires fitting { fits phase.old (Some waiting) ≡ true }
    requires roomy { has_room_in phase.old (Some waiting) }
    requires gives { gives waiting ≡ true }
    requires given { IsGivenAt (next_of numbers.old) catalogue.now log.old.items phase.old
        (Some waiting) }
    requires marked { mark_of phase.old ≤ length log.old.items }
    requires room { vec_len log.old + owed phase.old (Some waiting) ≤ vec_capacity log.old }
    ensures log { log.new.items ≡ logged log.old.items phase.old waiting }
    ensures phase { transaction_of log.old.items phase.new
        ≡ granted log.old.items phase.old waiting }
    ensures answer { result ≡ answer_to (next_of numbers.old) waiting }
    ensures numbers { next_of numbers.new
        ≡ numbered catalogue.now (next_of numbers.old) waiting }
    ensures marked { mark_of phase.new ≤ length log.old.items }
    ensures room { vec_len log.new + owed phase.new None
        ≤ vec_len log.old + owed phase.old (Some waiting) }
    ensures capacity { vec_capacity log.old ≤ vec_capacity log.new }
{
    match waiting {
        Waiting::Snapshot => {
            *phase = Phase::Open(begun(alloc, log.as_slice()));
            Answer::Began
        }
        Waiting::Run(run) => match phase {
            Phase::Open(work) => {
                numbers.draw(catalogue, &run.statement);
                grant_run(work, run)
            }
            Phase::Absent | Phase::Dead => unreachable!(),
        },
        Waiting::Lock(table) => match phase {
            Phase::Open(work) => {
                take_lock(work, table);
                Answer::Locked
            }
            Phase::Absent | Phase::Dead => unreachable!(),
        },
        Waiting::Commit => match phase {
            Phase::Open(work) => {
                put(log, taken_set(alloc, work));
                *phase = Phase::Absent;
                Answer::Done
            }
            Phase::Absent | Phase::Dead => unreachable!(),
        },
        Waiting::Rollback => {
            *phase = Phase::Absent;
            Answer::Done
        }
        Waiting::ReadSerial(table) => number_told(numbers.at(table)),
        Waiting::SetSerial(table, next) => {
            numbers.set(table, Some(next));
            Answer::Done
        }
    }
}

/// Grants the request that waits in a seat.
pub(crate) fn grant_at(
    alloc: Global,
    catalogue: &Catalogue,
    log: &mut Vec<ChangeSet>,
    numbers: &mut NextNumbers,
    seat: &mut Seat,
) -> Answer
    requires waits { IsSome seat.old.waiting }
    requires gives { (waiting : Waiting) → seat.old.waiting ≡ Some waiting
        → gives waiting ≡ true }
    requires given { IsGivenAt (next_of numbers.old) catalogue.now log.old.items seat.old.phase
        seat.old.waiting }
    requires marked { mark_of seat.old.phase ≤ length log.old.items }
    requires room { vec_len log.old + owed seat.old.phase seat.old.waiting
        ≤ vec_capacity log.old }
    ensures granted { (waiting : Waiting) → seat.old.waiting ≡ Some waiting
        → IsGranted (next_of numbers.old) log.old.items seat.old.phase waiting result log.new.items
        seat.new.phase }
    ensures numbers { (waiting : Waiting) → seat.old.waiting ≡ Some waiting
        → next_of numbers.new ≡ numbered catalogue.now (next_of numbers.old) waiting }
    ensures none { seat.new.waiting ≡ None }
    ensures marked { mark_of seat.new.phase ≤ length log.old.items }
    ensures room { vec_len log.new + owed seat.new.phase seat.new.waiting
        ≤ vec_len log.old + owed seat.old.phase seat.old.waiting }
    ensures capacity { vec_capacity log.old ≤ vec_capacity log.new }
{
    let Some(waiting) = mem::replace(&mut seat.waiting, None) else {
        unreachable!()
    };
    grant(alloc, catalogue, log, numbers, &mut seat.phase, waiting)
}

/// A request that is refused draws its numbers, where it is a statement.
pub(crate) fn draw(catalogue: &Catalogue, numbers: &mut NextNumbers, waiting: &Option<Waiting>)
    requires { (run : Run) → waiting.now ≡ Some (waits.Run run) → DrawsFew run.statement.body }
    ensures { (w : Waiting) → waiting.now ≡ Some w
        → next_of numbers.new ≡ drawn catalogue.now (next_of numbers.old) (request_of w) }
{
    match waiting {
        Some(Waiting::Run(run)) => numbers.draw(catalogue, &run.statement),
        Some(
            Waiting::Snapshot
            | Waiting::Lock(_)
            | Waiting::Commit
            | Waiting::Rollback
            | Waiting::ReadSerial(_)
            | Waiting::SetSerial(..),
        )
        | None => (),
    }
}
