//! Next numbers that differ at the servers that are kept are set to the greatest.

use crate::answer::Answer;
use crate::asking::{next_numbers, serial_of};
use crate::numbers::{greatest, told_number};
use crate::run::{Seat, ask_all, kept_seats};
use crate::server::Server;
use crate::session::Session;
use crate::sql::{sequence, set_sql};
use crate::start::server_at;
use pool_base::{BackendId, BackendSet, List, NoMemory};
use postgres_link::Word;
use schema::Catalogue;
use serve_base::tell;
use std::alloc::Global;
use std::rt::Clock;

/// Whether the answer is as it is to be.
fn is_done(answer: Option<Answer>) -> bool {
    match answer {
        Some(answer) => {
            let is_told = matches!(&answer, Answer::Told(_));
            drop(answer);
            is_told
        }
        None => false,
    }
}

/// The numbers that the servers have told in answer to a question.
fn told_numbers(alloc: Global, servers: &[Server], question: usize) -> Result<List<u64>, NoMemory> {
    let mut numbers = List::new(alloc);
    for server in servers {
        if let Some(number) = told_number(server, question) {
            numbers.push(number)?;
        }
    }
    Ok(numbers)
}

/// Sets the next number of a column at a server that has told another one, and tells so. False: it
/// is not set.
fn even<R: Clock + Eprint + Copy>(
    rt: &R,
    alloc: Global,
    seat: &mut Seat<Session>,
    place: (&str, &str),
    told: Option<u64>,
    most: u64,
) -> Result<bool, NoMemory> {
    if told == Some(most) {
        return Ok(true);
    }
    let (table, column) = place;
    let sequence = sequence(alloc, table, column)?;
    let sql = set_sql(alloc, sequence.as_str(), most)?;
    if !is_done(seat.tell(sql.as_str(), None)?) {
        return Ok(false);
    }
    let (b, told) = (seat.server.number.number, told.unwrap_or(0));
    let line = format_args!(
        "backend {b}: {table}: the next number of {column} was {told} and is set to {most}"
    );
    tell(rt, alloc, line);
    Ok(true)
}

/// The number that the server of that backend has told in answer to a question.
fn told_at(servers: &[Server], b: BackendId, question: usize) -> Option<u64> {
    match server_at(servers, b) {
        Some(server) => told_number(server, question),
        None => None,
    }
}

/// Sets the next numbers of a serial column. Answers the backends where it is not set.
fn even_all<R: Clock + Eprint + Copy>(
    rt: &R,
    alloc: Global,
    place: (&str, &str),
    servers: &[Server],
    question: usize,
    seats: &mut [Seat<Session>],
) -> Result<BackendSet, NoMemory> {
    let mut unset = BackendSet::EMPTY;
    let numbers = told_numbers(alloc, servers, question)?;
    let Some(most) = greatest(numbers.as_slice()) else {
        return Ok(all_of(seats));
    };
    for seat in seats.iter_mut() {
        let b = seat.server.number;
        let told = told_at(servers, b, question);
        if !even(rt, alloc, seat, place, told, most)? {
            unset = unset.with(b);
        }
    }
    Ok(unset)
}

/// The backends of these seats.
fn all_of(seats: &[Seat<Session>]) -> BackendSet {
    let mut all = BackendSet::EMPTY;
    for seat in seats {
        all = all.with(seat.server.number);
    }
    all
}

/// Ends the blocks. Answers the backends where one does not end.
fn commit(seats: &mut [Seat<Session>]) -> Result<BackendSet, NoMemory> {
    let mut failed = BackendSet::EMPTY;
    for seat in seats.iter_mut() {
        if !is_done(seat.tell("COMMIT", Some(Word::Commit))?) {
            failed = failed.with(seat.server.number);
        }
    }
    Ok(failed)
}

/// What is in one of two sets.
pub(crate) fn either(one: BackendSet, other: BackendSet) -> BackendSet {
    BackendSet {
        bits: one.bits | other.bits,
    }
}

/// Sets the next numbers of all serial columns at the servers that are kept to the greatest of
/// each, and ends the blocks. Answers the backends where that failed.
pub(crate) fn settle<R: Clock + Eprint + Copy>(
    rt: &R,
    alloc: Global,
    tables: &Catalogue,
    seats: Vec<Seat<Session>>,
    kept: BackendSet,
) -> Result<BackendSet, NoMemory> {
    let questions = next_numbers(alloc, tables)?;
    let seats = kept_seats(alloc, seats, kept)?;
    let mut asked = ask_all(alloc, seats, questions.as_slice())?;
    let mut unset = asked.lost;
    let mut question = 0_usize;
    for table in tables.tables() {
        if let Some(column) = serial_of(table) {
            let servers = asked.servers.as_slice();
            let seats = asked.seats.as_mut_slice();
            let place = (table.name.as_str(), column.name.as_str());
            let failed = even_all(rt, alloc, place, servers, question, seats)?;
            unset = either(unset, failed);
            question = question.saturating_add(1);
        }
    }
    let failed = commit(asked.seats.as_mut_slice())?;
    drop(asked);
    Ok(either(unset, failed))
}
