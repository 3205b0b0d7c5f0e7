//! The runs that are timed, and what is told of them.
ghost use Rattle.std.specs.Prelude.{◌≡◌, Ok, IfOk, IfSome};
ghost use Rattle.schema.specs.Grammar.{IsWithin};

use crate::wire::client::{Client, Tally};
use crate::wire::sending::{Kind, Sending};
use crate::wire::world::{Stop, World, config, tables};
use std::io;
use std::time::{Duration, Instant};

/// Want of memory as an error of the system; None where something else stopped it.
fn given<T: Drop>(answer: Result<T, Stop>) -> io::Result<Option<T>>
    ensures { IfOk result (λ found. IfSome found (λ value. answer ≡ Ok value)) }
{
    match answer {
        Ok(value) => Ok(Some(value)),
        Err(Stop::NoMemory) => Err(io::ErrorKind::OutOfMemory.into()),
        Err(Stop::Otherwise) => Ok(None),
    }
}

/// A client sends simple queries, extended ones, and two pipelines. Whether all was answered.
pub fn run(rt: HostRuntime, times: u32) -> io::Result<bool> {
    let alloc = rt.alloc();
    let Some(tables) = given(tables(alloc))? else {
        return Ok(false);
    };
    let Some(config) = given(config(alloc))? else {
        return Ok(false);
    };
    let world = World {
        alloc,
        tables: &tables,
        config: &config,
    };
    all_timed(rt, world, times)
}

fn all_timed(rt: HostRuntime, world: World, times: u32) -> io::Result<bool>
    requires within { IsWithin world.tables.now }
{
    for kind in [Kind::Query, Kind::Whole] {
        if timed(rt, world, kind, times)?.is_none() {
            return Ok(false);
        }
    }
    let Some(half) = timed(rt, world, Kind::Pipeline, times / 2)? else {
        return Ok(false);
    };
    let Some(all) = timed(rt, world, Kind::Pipeline, times)? else {
        return Ok(false);
    };
    let share = all.as_nanos().saturating_mul(100) / half.as_nanos().max(1);
    eprintln!(rt; "the last took {share} % of the time of the one before")?;
    Ok(true)
}

/// Times a client that sends so many times. None where it was not answered.
fn timed(rt: HostRuntime, world: World, kind: Kind, times: u32) -> io::Result<Option<Duration>>
    requires within { IsWithin world.tables.now }
{
    let Some(sending) = given(Sending::new(world.alloc, kind, times))? else {
        return Ok(None);
    };
    match given(Client::let_in(world))? {
        Some(client) => {
            let mut client = client;
            let time = timed_at(rt, world, &sending, &mut client);
            drop(client);
            time
        }
        None => Ok(None),
    }
}

/// Times a client that was let in.
fn timed_at(
    rt: HostRuntime,
    world: World,
    sending: &Sending,
    client: &mut Client,
) -> io::Result<Option<Duration>>
    requires within { IsWithin world.tables.now }
{
    let start = Instant::now(&rt)?;
    if given(sending.send(world, client))?.is_none() {
        return Ok(None);
    }
    let time = start.elapsed(&rt)?;
    tell(rt, sending.name(), client.tally(), time)?;
    Ok(Some(time))
}

/// Tells what was done, and the nanoseconds of a message.
fn tell(rt: HostRuntime, what: &str, tally: Tally, time: Duration) -> io::Result<()> {
    let Tally {
        messages,
        fed,
        orders,
        written,
    } = tally;
    println!(rt;
        "{what}: {messages} messages of {fed} bytes, {orders} orders, {written} bytes written"
    )?;
    let all = u128::from(messages.max(1));
    let each = time.as_nanos() / all;
    let rate = all.saturating_mul(1_000_000_000) / time.as_nanos().max(1);
    eprintln!(rt; "{what}: {each} ns a message, {rate} messages a second")
}
