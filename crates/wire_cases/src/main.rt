//! Cases of the words that every crate speaks and of what goes over a wire: `wire_cases TABLE..`
//! reads tables that lie where it runs, and prints for each how many cases it has and which are
//! answered otherwise.
#![tactic(auto)]

mod commands;
mod configurations;
mod messages;
mod scripts;
mod starts;
mod streams;
mod system;
mod values;

use case_lines::{Around, Kinds, Told, run_tables};
use std::alloc::Global;
use std::io;

/// The kinds of tables that this program knows.
struct Wire;

impl Kinds for Wire {
    fn put_answer(alloc: Global, kind: &str, around: &Around, asked: &str, told: &mut Told) {
        match kind {
            "commands" => commands::put_command(alloc, asked, told),
            "configurations" => configurations::put_configuration(alloc, around, asked, told),
            "texts" => values::put_text(alloc, asked, told),
            "forms" => values::put_form(alloc, asked, told),
            "bytes" => values::put_bytes(alloc, asked, told),
            "types" => values::put_type(asked, told),
            "messages" => messages::put_message(alloc, asked, told),
            "streams" => streams::put_stream(alloc, asked, told),
            "scripts" => scripts::put_script(alloc, asked, told),
            "echoes" => scripts::put_echoes(alloc, asked, told),
            _ => told.put("no such kind"),
        }
    }
}

fn main(rt: HostRuntime) -> io::Result<()> {
    run_tables::<Wire>(&rt)?;
    system::print_adapters(&rt)
}
