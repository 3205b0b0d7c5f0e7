//! Servers are asked, and what is found of them is told.
ghost use Rattle.std.specs.Prelude.{◌≡◌, IfOk};
ghost use Rattle.server_check.specs.Starts.{IsStart};

use crate::asking::{next_numbers, questions};
use crate::question::Question;
use crate::run::{Asked, Seat, ask_all};
use crate::session::{Reason, Seats, Session, take_seats};
use crate::settling::{either, settle};
use crate::start::{Findings, attached_by};
use crate::twin_seats::tell_apart;
use pool_base::{BackendId, BackendSet, List, NoMemory};
use pool_config::Config;
use schema::Catalogue;
use std::alloc::Global;
use std::net::{Net, TcpStream};
use std::random::RandomSource;
use std::rt::Clock;
use tcp_link::Asker;

/// What was found, why some were not asked, and the sessions at the others.
#[derive(Drop)]
struct Found {
    findings: Findings,
    reasons: List<Reason>,
    seats: Vec<Seat<Session>>,
}

/// Asks those of the backends that are not absent.
fn find_out<R: Net<Stream = TcpStream> + RandomSource>(
    rt: &R,
    alloc: Global,
    config: &Config,
    tables: &Catalogue,
    up: BackendSet,
    absent: BackendSet,
    asker: &Asker,
    locks: bool,
) -> Result<Found, NoMemory>
    ensures { IfOk result (λ found. found.findings.up ≡ up) }
{
    let among = BackendSet {
        bits: up.bits & !absent.bits,
    };
    let mut questions = questions(alloc, tables, locks)?;
    if !locks {
        questions.append(next_numbers(alloc, tables)?)?;
    }
    let seats = take_seats(rt, alloc, config, among, asker)?;
    let seats = tell_apart(rt, alloc, seats)?;
    compared(alloc, up, absent, questions, seats)
}

/// Asks all of them all questions.
fn compared(
    alloc: Global,
    up: BackendSet,
    absent: BackendSet,
    questions: List<Question>,
    found: Seats,
) -> Result<Found, NoMemory>
    ensures { IfOk result (λ found. found.findings.up ≡ up) }
{
    let Seats {
        seats,
        identities,
        absent: more,
        reasons,
    } = found;
    let asked = ask_all(alloc, seats, questions.as_slice())?;
    let Asked { servers, seats, .. } = asked;
    Ok(Found {
        findings: Findings {
            up,
            absent: either(absent, more),
            identities,
            questions,
            servers,
            unset: BackendSet::EMPTY,
        },
        reasons,
        seats,
    })
}

/// What is found of servers, and which are attached.
#[derive(Drop)]
pub struct Start {
    pub findings: Findings,
    pub attached: BackendSet,
    /// Why those are not asked that let no session begin.
    pub reasons: List<Reason>,
}

/// What is attached by these findings.
fn started(findings: Findings, reasons: List<Reason>) -> Start
    ensures { IsStart findings.up.bits result }
{
    let attached = attached_by(&findings);
    Start {
        findings,
        attached,
        reasons,
    }
}

/// Compares the servers of the backends that are up and not absent, with their tables locked
/// against those who write, sets the next numbers of those that are kept to the greatest, and says
/// what is attached.
pub fn start_by<R: Net<Stream = TcpStream> + RandomSource + Clock + Eprint + Copy>(
    rt: &R,
    alloc: Global,
    config: &Config,
    tables: &Catalogue,
    up: BackendSet,
    absent: BackendSet,
    asker: &Asker,
) -> Result<Start, NoMemory>
    ensures { IfOk result (IsStart up.bits) }
{
    let found = find_out(rt, alloc, config, tables, up, absent, asker, true)?;
    let Found {
        mut findings,
        reasons,
        seats,
    } = found;
    let kept = attached_by(&findings);
    match settle(rt, alloc, tables, seats, kept) {
        Ok(unset) => {
            findings.unset = unset;
            Ok(started(findings, reasons))
        }
        Err(NoMemory) => {
            drop(findings);
            drop(reasons);
            Err(NoMemory)
        }
    }
}

/// The backends of a configuration.
fn all_of(config: &Config) -> BackendSet {
    let mut all = BackendSet::EMPTY;
    for number in 0..8_u8 {
        if config.nodes.get(usize::from(number)).is_some() {
            all = all.with(BackendId { number });
        }
    }
    all
}

/// Compares all servers of a configuration, and changes nothing.
pub fn compare<R: Net<Stream = TcpStream> + RandomSource>(
    rt: &R,
    alloc: Global,
    config: &Config,
    tables: &Catalogue,
    asker: &Asker,
) -> Result<Start, NoMemory> {
    let (up, absent) = (all_of(config), BackendSet::EMPTY);
    let found = find_out(rt, alloc, config, tables, up, absent, asker, false)?;
    let Found {
        findings,
        reasons,
        seats,
    } = found;
    drop(seats);
    Ok(started(findings, reasons))
}
