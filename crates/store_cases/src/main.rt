//! Cases of what a store tells at a poll: `store_cases TABLE..` reads tables that lie where it
//! runs, and prints for each how many cases it has and which are answered otherwise.
#![tactic(auto)]

mod asking;
mod both;
mod drawn;
mod histories;
mod judge;
mod plain;
mod shown;

use case_lines::{Around, Kinds, Told, run_tables};
use std::alloc::Global;
use std::io;

/// What answers the tables of this program.
struct Stores;

impl Kinds for Stores {
    fn put_answer(alloc: Global, kind: &str, around: &Around, asked: &str, told: &mut Told) {
        match kind {
            "histories" => histories::put_history(alloc, around, asked, told),
            "drawn" => drawn::put_drawn(alloc, asked, told),
            "plain" => plain::put_plain(alloc, around, asked, told),
            _ => told.put("no such kind"),
        }
    }
}

fn main(rt: HostRuntime) -> io::Result<()> {
    run_tables::<Stores>(&rt)
}
