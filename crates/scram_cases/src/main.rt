//! Cases of SCRAM-SHA-256: `scram_cases TABLE..` reads tables that lie where it runs, and prints
//! for each how many cases it has and which are answered otherwise.
#![tactic(auto)]

mod clients;
mod given;
mod servers;
mod verifiers;

use case_lines::{Around, Kinds, Told, run_tables};
use std::alloc::Global;
use std::io;

/// The kinds of tables that this program knows.
struct Scram;

impl Kinds for Scram {
    fn put_answer(alloc: Global, kind: &str, around: &Around, asked: &str, told: &mut Told) {
        match kind {
            "verifiers" => verifiers::put_verifier(alloc, asked, told),
            "made" => verifiers::put_made(alloc, asked, told),
            "servers" => servers::put_server(alloc, around, asked, told),
            "clients" => clients::put_client(alloc, around, asked, told),
            _ => told.put("no such kind"),
        }
    }
}

fn main(rt: HostRuntime) -> io::Result<()> {
    run_tables::<Scram>(&rt)
}
