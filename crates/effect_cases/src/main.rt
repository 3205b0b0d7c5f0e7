//! Cases of what statements do: `effect_cases TABLE..` reads tables that lie where it runs, and
//! prints for each how many cases it has and which are answered otherwise.
#![tactic(auto)]

mod allowed;
mod asked;
mod bound;
mod classes;
mod effects;
mod given;
mod printed;
mod shelf;
mod shown;
mod times;

use case_lines::{Around, Kinds, Told, put_spelled, run_tables};
use std::alloc::Global;
use std::io;

/// The kinds of tables that this program knows.
#[derive(Clone, Copy)]
enum Kind {
    Effects,
    Bound,
    Printed,
    Again,
    Times,
    Literals,
    Classes,
}

impl Kind {
    /// The kind of that word.
    fn of(word: &str) -> Option<Kind> {
        match word {
            "effects" => Some(Kind::Effects),
            "bound" => Some(Kind::Bound),
            "printed" => Some(Kind::Printed),
            "again" => Some(Kind::Again),
            "times" => Some(Kind::Times),
            "literals" => Some(Kind::Literals),
            "classes" => Some(Kind::Classes),
            _ => None,
        }
    }
}

/// Puts what is told of a text in a table of that kind.
fn put_of(alloc: Global, kind: Kind, around: &Around, text: &str, told: &mut Told) {
    match kind {
        Kind::Effects => effects::put_effect(alloc, around, text, told),
        Kind::Bound => bound::put_bound(alloc, around, text, told),
        Kind::Printed => printed::put_printed(alloc, around, text, false, told),
        Kind::Again => printed::put_printed(alloc, around, text, true, told),
        Kind::Times => times::put_time(alloc, around, text, told),
        Kind::Literals => times::put_literal(alloc, text, told),
        Kind::Classes => classes::put_class(alloc, around, text, told),
    }
}

/// What answers the tables of this program.
struct Tables;

impl Kinds for Tables {
    fn put_answer(alloc: Global, kind: &str, around: &Around, asked: &str, told: &mut Told) {
        let mut text = Told::new(alloc);
        put_spelled(alloc, asked, &mut text);
        match Kind::of(kind) {
            Some(kind) => put_of(alloc, kind, around, text.as_str(), told),
            None => told.put("no such kind"),
        }
        drop(text);
    }
}

fn main(rt: HostRuntime) -> io::Result<()> {
    run_tables::<Tables>(&rt)
}
