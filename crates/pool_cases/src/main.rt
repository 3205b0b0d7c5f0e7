//! Cases of whole runs of `pool`: `pool_cases TABLE..` reads tables that lie where it runs, and
//! prints for each how many cases it has and which are answered otherwise.
#![tactic(auto)]

mod boxes;
mod failures;
mod runs;

use case_lines::{Around, Kinds, Told, run_tables};
use std::alloc::Global;
use std::io;

/// The kinds of tables that this program knows.
struct Pool;

impl Kinds for Pool {
    fn put_answer(alloc: Global, kind: &str, around: &Around, asked: &str, told: &mut Told) {
        match kind {
            "runs" => runs::put_run(alloc, around, asked, told),
            "failures" => failures::put_failure(alloc, around, asked, told),
            "boxes" => boxes::put_boxes(alloc, around, asked, told),
            _ => told.put("no such kind"),
        }
    }
}

fn main(rt: HostRuntime) -> io::Result<()> {
    run_tables::<Pool>(&rt)
}
