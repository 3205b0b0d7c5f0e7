//! Checked statements as texts of SQL.
ghost use Rattle.schema.specs.Grammar.{IsWithin};

use crate::asked::{checked_with, tables_of};
use case_lines::{Around, Told};
use catalogue::{Catalogue, CheckFault, Checked};
use checked_print::print_checked;
use pool_base::List;
use sql_profile::SqlFault;
use statement_laws::{AgainFault, checked_again};
use std::alloc::Global;

/// The text of a checked statement.
pub(crate) fn put_checked(alloc: Global, tables: &Catalogue, checked: &Checked, told: &mut Told) {
    match print_checked(alloc, tables, checked) {
        Ok(text) => told.put_one_line(text.as_str()),
        Err(_) => told.put("no memory"),
    }
}

fn put_answer(
    alloc: Global,
    tables: &Catalogue,
    answer: &Result<Checked, AgainFault>,
    told: &mut Told,
) {
    match answer {
        Ok(checked) => put_checked(alloc, tables, checked, told),
        Err(AgainFault::Text(SqlFault::TooLong)) => told.put("too long"),
        Err(_) => told.put("refused"),
    }
}

fn put_made(
    alloc: Global,
    tables: &Catalogue,
    made: &Result<Checked, CheckFault>,
    is_again: bool,
    told: &mut Told,
)
    requires within { IsWithin tables.now }
{
    match made {
        Ok(checked) if is_again => {
            let again = checked_again(alloc, tables, checked);
            put_answer(alloc, tables, &again, told);
            drop(again);
        }
        Ok(checked) => put_checked(alloc, tables, checked, told),
        Err(_) => told.put("no statement"),
    }
}

/// Numbers with spaces between them.
fn numbers_of(alloc: Global, words: &str) -> List<u32> {
    let mut numbers = List::new(alloc);
    for word in words.split_whitespace() {
        if let Ok(number) = word.parse::<u32>() {
            let _ = numbers.push(number);
        }
    }
    numbers
}

fn put_with(
    alloc: Global,
    tables: &Catalogue,
    kinds: Option<&[u32]>,
    text: &str,
    is_again: bool,
    told: &mut Told,
)
    requires within { IsWithin tables.now }
{
    let made = checked_with(alloc, tables, text, kinds);
    put_made(alloc, tables, &made, is_again, told);
    drop(made);
}

fn put_over(alloc: Global, tables: &Catalogue, text: &str, is_again: bool, told: &mut Told)
    requires within { IsWithin tables.now }
{
    match text.split_once("] ") {
        Some((list, text)) => {
            let kinds = numbers_of(alloc, list.trim_start_matches('['));
            put_with(alloc, tables, Some(kinds.as_slice()), text, is_again, told);
        }
        None => put_with(alloc, tables, None, text, is_again, told),
    }
}

/// The text of what a statement is checked as, or the text of what that is read and checked as
/// again.
pub(crate) fn put_printed(
    alloc: Global,
    around: &Around,
    text: &str,
    is_again: bool,
    told: &mut Told,
) {
    let tables = tables_of(alloc, around, "schema");
    match &tables {
        Some(tables) => put_over(alloc, tables, text, is_again, told),
        None => told.put("the schema is not read"),
    }
    drop(tables);
}
