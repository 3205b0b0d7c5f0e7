//! Small histories drawn from a seed.
ghost use Rattle.std.specs.Prelude.{◌≤◌};

use crate::both::Both;
use case_lines::Told;
use std::alloc::Global;

/// How many steps a history has.
const STEPS: u8 = 16;

/// Numbers drawn from a seed, and how many steps told of a deadlock, of a wait, of a change
/// meanwhile, and of an end.
#[derive(Drop)]
struct Draws {
    state: u64,
    deadlocks: u64,
    waits: u64,
    changes: u64,
    ends: u64,
}

impl Draws {
    /// The next number, below 256.
    fn next(&mut self) -> u8 {
        self.state = self
            .state
            .wrapping_mul(6_364_136_223_846_793_005)
            .wrapping_add(1_442_695_040_888_963_407);
        self.state.to_be_bytes()[0]
    }

    /// Counts what a step was told.
    fn count(&mut self, said: &str) {
        match said {
            "40P01" => self.deadlocks = self.deadlocks.wrapping_add(1),
            "waits" => self.waits = self.waits.wrapping_add(1),
            "40001" => self.changes = self.changes.wrapping_add(1),
            "done" => self.ends = self.ends.wrapping_add(1),
            _ => {}
        }
    }
}

/// What is asked: insertions more than any other. Each number of 0 to 15 has its verb.
fn verb_of(number: u8) -> &'static str {
    match number {
        0..=5 => "insert",
        6 | 7 => "update",
        8 => "delete",
        9 => "hold",
        10 => "select",
        11 | 12 => "commit",
        13 => "rollback",
        14 => "lock",
        _ => "begin",
    }
}

/// Puts the words of a request, with a key and a value, whether or not it has a use for them.
fn put_ask(draws: &mut Draws, keys: u8, step: &mut Told)
    requires { 1 ≤ keys }
{
    step.put(verb_of(draws.next() % 16));
    step.put(" ");
    step.put_number(u64::from(draws.next() % keys));
    step.put(" ");
    step.put_number(u64::from(draws.next()));
}

/// Puts the words of a step: a session that has asked looks again.
fn put_deed(draws: &mut Draws, keys: u8, step: &mut Told)
    requires { 1 ≤ keys }
{
    match draws.next() {
        0..=40 => {
            step.put("leave ");
            put_ask(draws, keys, step);
        }
        41..=100 => step.put("look"),
        _ => put_ask(draws, keys, step),
    }
}

/// Puts a step: first each session begins a transaction. Seldom the store is lost.
fn put_turn(draws: &mut Draws, sessions: u8, keys: u8, number: u8, step: &mut Told)
    requires some_sessions { 1 ≤ sessions }
    requires some_keys { 1 ≤ keys }
{
    if number < sessions {
        step.put_number(u64::from(number).saturating_add(1));
        return step.put(" begin");
    }
    if draws.next() == 0 {
        return step.put("lose");
    }
    step.put_number(u64::from(draws.next() % sessions).saturating_add(1));
    step.put(" ");
    put_deed(draws, keys, step);
}

/// Does a step. Puts the first one that is wrong.
fn tell(alloc: Global, both: &mut Both, step: &str, draws: &mut Draws, told: &mut Told) {
    let mut said = Told::new(alloc);
    both.put_step(step, &mut said);
    draws.count(said.as_str());
    if told.is("") && said.as_str().contains('(') {
        told.put(step);
        told.put(": ");
        told.put(said.as_str());
    }
}

/// At the end a session that did nothing before reads each key.
fn read_all(alloc: Global, both: &mut Both, draws: &mut Draws, told: &mut Told) {
    for step in ["64 begin", "64 select 0", "64 select 1", "64 select 2"] {
        tell(alloc, both, step, draws, told);
    }
}

/// Plays a history.
fn play_one(alloc: Global, draws: &mut Draws, told: &mut Told) {
    let sessions = 2 + draws.next() % 3;
    let keys = 2 + draws.next() % 2;
    let Ok(mut both) = Both::new(alloc) else {
        return told.put("no memory");
    };
    for number in 0..STEPS {
        let mut step = Told::new(alloc);
        put_turn(draws, sessions, keys, number, &mut step);
        tell(alloc, &mut both, step.as_str(), draws, told);
    }
    read_all(alloc, &mut both, draws, told);
    drop(both);
}

/// The number of a word; 0 where it is none.
fn number_of(word: &str) -> u64 {
    match word.parse::<u64>() {
        Ok(number) => number,
        Err(_) => 0,
    }
}

/// Puts a word that was told more than ten times.
fn put_often(count: u64, word: &str, told: &mut Told) {
    if count > 10 {
        told.put_word(word);
    }
}

/// Plays `COUNT from SEED` histories. Puts the first step that is wrong, or what was told often.
pub(crate) fn put_drawn(alloc: Global, asked: &str, told: &mut Told) {
    let (count, seed) = asked.split_once(" from ").unwrap_or((asked, ""));
    let mut draws = Draws {
        state: number_of(seed),
        deadlocks: 0,
        waits: 0,
        changes: 0,
        ends: 0,
    };
    for _ in 0..number_of(count) {
        play_one(alloc, &mut draws, told);
    }
    put_often(draws.deadlocks, "40P01", told);
    put_often(draws.waits, "waits", told);
    put_often(draws.changes, "40001", told);
    put_often(draws.ends, "done", told);
}
