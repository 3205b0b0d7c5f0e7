//! The lines of a dialogue, and what is told of one of them.
ghost use Rattle.std.specs.Prelude.{IfSome};
ghost use Rattle.schema.specs.Grammar.{IsWithin};

use crate::behind::{Behind, put_given};
use crate::cutting::put_cuts;
use crate::playing::{World, feed, go_on};
use crate::sending::put_sent;
use case_lines::{Around, Told};
use catalogue::{Catalogue, read_schema};
use pool_base::{List, SessionId};
use pool_config::{Config, parse_config};
use session_wire::Wire;
use std::alloc::Global;

/// The most bytes of a schema or a configuration.
const MOST_BYTES: usize = 60_000;

fn tables_of(alloc: Global, around: &Around) -> Option<Catalogue>
    ensures { IfSome result (λ tables. IsWithin tables) }
{
    let mut schema = Told::new(alloc);
    around.put_texts("schema", &mut schema);
    let schema = schema.as_str();
    if schema.len() > MOST_BYTES {
        return None;
    }
    read_schema(alloc, schema.as_bytes()).ok()
}

fn config_of(alloc: Global, around: &Around) -> Option<Config> {
    let mut text = Told::new(alloc);
    around.put_texts("config", &mut text);
    let text = text.as_str();
    if text.len() > MOST_BYTES {
        return None;
    }
    parse_config(alloc, text.as_bytes()).ok()
}

/// Whether a dialogue begins with a line.
fn is_first(line: &str) -> bool {
    line == "session 1" || line == "connect"
}

/// The lines of the last dialogue that stands round a case.
fn put_lines_of(alloc: Global, around: &Around, onto: &mut Told) {
    let mut all = Told::new(alloc);
    around.put_texts("client", &mut all);
    let mut begin = 0;
    for (at, line) in all.as_str().lines().enumerate() {
        if is_first(line) {
            begin = at;
        }
    }
    for line in all.as_str().lines().skip(begin) {
        onto.put(line);
        onto.put("\n");
    }
}

/// What a line sends, without the outcomes that it gives.
pub(crate) fn sent_of(line: &str) -> &str {
    match line.split_once(" <- ") {
        Some((sent, _)) => sent,
        None => line,
    }
}

fn play_line(
    alloc: Global,
    world: World,
    wire: &mut Wire,
    behind: &mut Behind,
    line: &str,
    told: &mut Told,
)
    requires within { IsWithin world.tables.now }
{
    let sent = sent_of(line);
    if sent == "end" {
        wire.end_input();
        return go_on(alloc, world, wire, behind, told);
    }
    let mut bytes = List::new(alloc);
    put_sent(alloc, sent, &mut bytes, told);
    feed(alloc, world, wire, behind, bytes.as_slice(), told);
}

/// What is told of the line with that number, from 1; with 0, of all lines.
pub(crate) fn put_played(alloc: Global, world: World, lines: &str, number: usize, told: &mut Told)
    requires within { IsWithin world.tables.now }
{
    let Some(first) = SessionId::from_number(1) else {
        return;
    };
    let Ok(wire) = Wire::new(alloc, first) else {
        return;
    };
    let mut wire = wire;
    let mut behind = Behind::new();
    let mut aside = Told::new(alloc);
    for (at, line) in lines.lines().enumerate() {
        if number == 0 || at.saturating_add(1) == number {
            play_line(alloc, world, &mut wire, &mut behind, line, told);
        } else {
            play_line(alloc, world, &mut wire, &mut behind, line, &mut aside);
        }
    }
}

/// What a case asks: `cuts` and a number, the number of a line, or a line behind the others.
fn put_asked(alloc: Global, world: World, lines: &mut Told, asked: &str, told: &mut Told)
    requires within { IsWithin world.tables.now }
{
    if let Some(count) = asked.strip_prefix("cuts ") {
        return put_cuts(
            alloc,
            world,
            lines.as_str(),
            count.parse::<u32>().unwrap_or(0),
            told,
        );
    }
    match asked.parse::<usize>() {
        Ok(number) => put_played(alloc, world, lines.as_str(), number, told),
        Err(_) => {
            lines.put(asked);
            lines.put("\n");
            let number = lines.as_str().lines().count();
            put_played(alloc, world, lines.as_str(), number, told);
        }
    }
}

fn put_over(alloc: Global, world: World, around: &Around, asked: &str, told: &mut Told)
    requires within { IsWithin world.tables.now }
{
    let mut lines = Told::new(alloc);
    put_lines_of(alloc, around, &mut lines);
    let mut given = Told::new(alloc);
    put_given(lines.as_str(), &mut given);
    put_given(asked, &mut given);
    let world = World {
        tables: world.tables,
        config: world.config,
        given: given.as_str(),
    };
    put_asked(alloc, world, &mut lines, asked, told);
}

/// What is ordered and replied in a dialogue.
pub(crate) fn put_dialogue(alloc: Global, around: &Around, asked: &str, told: &mut Told) {
    let Some(tables) = tables_of(alloc, around) else {
        return told.put("the schema is not read");
    };
    let Some(config) = config_of(alloc, around) else {
        return told.put("the configuration is not read");
    };
    let world = World {
        tables: &tables,
        config: &config,
        given: "",
    };
    put_over(alloc, world, around, asked, told);
}
