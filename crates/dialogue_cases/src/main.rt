//! Dialogues of clients: `dialogue_cases TABLE..` reads tables that lie where it runs, and prints
//! for each how many cases it has and which are answered otherwise.
#![tactic(auto)]

mod behind;
mod cutting;
mod given;
mod lines;
mod playing;
mod sending;
mod shown;

use case_lines::{Around, Kinds, Told, run_tables};
use std::alloc::Global;
use std::io;

/// The one kind of tables that this program knows.
struct Dialogues;

impl Kinds for Dialogues {
    fn put_answer(alloc: Global, kind: &str, around: &Around, asked: &str, told: &mut Told) {
        match kind {
            "dialogues" => lines::put_dialogue(alloc, around, asked, told),
            _ => told.put("no such kind"),
        }
    }
}

fn main(rt: HostRuntime) -> io::Result<()> {
    run_tables::<Dialogues>(&rt)
}
