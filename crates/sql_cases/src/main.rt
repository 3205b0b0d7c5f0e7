//! Cases of SQL: `sql_cases TABLE..` reads tables that lie where it runs, and prints for each how
//! many cases it has and which are answered otherwise.
#![tactic(auto)]

mod bodies;
mod checks;
mod schemas;
mod statements;
mod tokens;
mod words;

use case_lines::{Around, Kinds, Told, put_spelled, run_tables};
use std::alloc::Global;
use std::io;

/// The kinds of tables that this program knows.
struct Sql;

/// What is told of a text, in a table of that kind.
fn put_text(alloc: Global, kind: &str, text: &str, told: &mut Told) {
    match kind {
        "tokens" => tokens::put_tokens(alloc, text, told),
        "spelled" => tokens::put_spelling(alloc, text, told),
        "statements" => statements::put_statements(alloc, text, told),
        "again" => statements::put_again(alloc, text, told),
        _ => told.put("no such kind"),
    }
}

impl Kinds for Sql {
    fn put_answer(alloc: Global, kind: &str, around: &Around, asked: &str, told: &mut Told) {
        match kind {
            "schemas" => schemas::put_schema(alloc, asked, told),
            "lines" => schemas::put_line(alloc, asked, told),
            "checks" => checks::put_check(alloc, around, asked, false, told),
            "bodies" => checks::put_check(alloc, around, asked, true, told),
            _ => {
                let mut text = Told::new(alloc);
                put_spelled(alloc, asked, &mut text);
                put_text(alloc, kind, text.as_str(), told);
            }
        }
    }
}

fn main(rt: HostRuntime) -> io::Result<()> {
    run_tables::<Sql>(&rt)
}
