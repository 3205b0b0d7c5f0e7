//! How long parts of the pool take: `bench WHAT NUMBER ..`, one behind another.
//!
//! `messages N` reads and writes N batches of a thousand messages. `sql N` reads short texts of SQL
//! N times and two long ones. `names N` looks for each name of six lists N times. `wire N` has a
//! client send N simple queries, N extended ones, and pipelines of N / 2 and N. `store N R` fills a
//! store in memory by N transactions of R rows each (one row where R is not there), and has 1, 8
//! and 64 sessions go through transactions. What was done goes to standard output, and the times
//! go to standard error.
#![tactic(auto)]

mod messages;
mod names;
mod sql;
mod store;
mod wire;

use std::process::ExitCode;
use std::{env, io};

/// What is measured, and how often.
#[derive(Clone, Copy)]
enum Measured {
    Messages(u32),
    Sql(u32),
    Names(u32),
    Wire(u32),
    Store { transactions: u32, rows: u32 },
}

/// How a measurement went.
#[derive(Clone, Copy)]
enum Went {
    Well,
    NotRead,
    NotGranted,
    NotAnswered,
}

fn number_of(word: Option<&String>) -> Option<u32> {
    word?.as_str().parse::<u32>().ok()
}

/// What the first words ask for, and how many words that are.
fn asked_of(words: &[String]) -> Option<(Measured, usize)> {
    let first = number_of(words.get(1))?;
    match words.first()?.as_str() {
        "messages" => Some((Measured::Messages(first), 2)),
        "sql" => Some((Measured::Sql(first), 2)),
        "names" => Some((Measured::Names(first), 2)),
        "wire" => Some((Measured::Wire(first), 2)),
        "store" => Some(store_asked(first, number_of(words.get(2)))),
        _ => None,
    }
}

fn store_asked(transactions: u32, rows: Option<u32>) -> (Measured, usize) {
    match rows {
        Some(rows) => (Measured::Store { transactions, rows }, 3),
        None => {
            let rows = 1;
            (Measured::Store { transactions, rows }, 2)
        }
    }
}

fn measure(rt: HostRuntime, asked: Measured) -> io::Result<Went> {
    match asked {
        Measured::Messages(batches) => {
            messages::run(rt, batches)?;
            Ok(Went::Well)
        }
        Measured::Sql(times) => Ok(if sql::run(rt, times)? {
            Went::Well
        } else {
            Went::NotRead
        }),
        Measured::Names(times) => {
            names::run(rt, times)?;
            Ok(Went::Well)
        }
        Measured::Wire(times) => Ok(if wire::run(rt, times)? {
            Went::Well
        } else {
            Went::NotAnswered
        }),
        Measured::Store { transactions, rows } => Ok(if store::run(rt, transactions, rows)? {
            Went::Well
        } else {
            Went::NotGranted
        }),
    }
}

/// Says how a measurement went, where it did not go well.
fn told(rt: HostRuntime, went: Went) -> io::Result<bool> {
    match went {
        Went::Well => return Ok(true),
        Went::NotRead => eprintln!(rt; "bench: a text was not read")?,
        Went::NotGranted => eprintln!(rt; "bench: a request was not granted")?,
        Went::NotAnswered => eprintln!(rt; "bench: a client was not answered")?,
    }
    Ok(false)
}

/// Measures what the words ask for, one behind another. Whether all went well.
fn run_all(rt: HostRuntime, words: &[String]) -> io::Result<bool> {
    let mut at: usize = 0;
    for _ in 0..words.len() {
        let Some((asked, taken)) = asked_of(words.get(at..).unwrap_or(&[])) else {
            break;
        };
        let went = measure(rt, asked)?;
        if !told(rt, went)? {
            return Ok(false);
        }
        at = at.saturating_add(taken);
    }
    if at == words.len() && at > 0 {
        return Ok(true);
    }
    eprintln!(rt;
        "usage: bench (messages | sql | names | wire) NUMBER .. | store TRANSACTIONS [ROWS] .."
    )?;
    Ok(false)
}

fn main(rt: HostRuntime) -> io::Result<ExitCode> {
    let mut words = Vec::new(rt.alloc());
    for word in env::args(&rt)?.skip(1) {
        words.push(word)?;
    }
    let well = run_all(rt, words.as_slice())?;
    Ok(ExitCode::from(if well { 0 } else { 1 }))
}
