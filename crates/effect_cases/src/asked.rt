//! The tables of a schema, and what a text of one statement is over them.
ghost use Rattle.std.specs.Prelude.{IfSome};
ghost use Rattle.schema.specs.Grammar.{IsWithin};

use case_lines::{Around, Told};
use catalogue::{Catalogue, CheckFault, Checked, check, is_checked, read_schema};
use sql_profile::{Statement, read_statements};
use std::alloc::Global;

/// The most bytes that a text of a case has.
const MOST_BYTES: usize = 2_000_000;

fn read_tables(alloc: Global, schema: &str) -> Option<Catalogue>
    ensures { IfSome result (λ tables. IsWithin tables) }
{
    if schema.len() > MOST_BYTES {
        return None;
    }
    read_schema(alloc, schema.as_bytes()).ok()
}

/// The tables of the lines that have that word before them.
pub(crate) fn tables_of(alloc: Global, around: &Around, word: &str) -> Option<Catalogue>
    ensures { IfSome result (λ tables. IsWithin tables) }
{
    let mut schema = Told::new(alloc);
    around.put_texts(word, &mut schema);
    read_tables(alloc, schema.as_str())
}

/// The last text of a word, or of none the empty one.
pub(crate) fn number_of(alloc: Global, around: &Around, word: &str) -> i64 {
    let mut texts = Told::new(alloc);
    around.put_texts(word, &mut texts);
    match texts.as_str().lines().last() {
        Some(number) => number.parse::<i64>().unwrap_or(0),
        None => 0,
    }
}

fn checked_of(
    alloc: Global,
    tables: &Catalogue,
    statement: &Statement,
    kinds: Option<&[u32]>,
) -> Result<Checked, CheckFault>
    requires within { IsWithin tables.now }
{
    if !is_checked(statement) {
        return Err(CheckFault::NoMemory);
    }
    check(alloc, tables, statement, kinds)
}

/// What the one statement of a text is over the tables, with these types of parameters; without
/// them none stands.
pub(crate) fn checked_with(
    alloc: Global,
    tables: &Catalogue,
    text: &str,
    kinds: Option<&[u32]>,
) -> Result<Checked, CheckFault>
    requires within { IsWithin tables.now }
{
    if text.len() > MOST_BYTES {
        return Err(CheckFault::NoMemory);
    }
    let Ok(statements) = read_statements(alloc, text) else {
        return Err(CheckFault::NoMemory);
    };
    match statements.as_slice() {
        [statement] => checked_of(alloc, tables, statement, kinds),
        _ => Err(CheckFault::NoMemory),
    }
}
