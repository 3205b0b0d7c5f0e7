//! Statements with values in place of their parameters.
ghost use Rattle.schema.specs.Grammar.{IsWithin};

use crate::asked::{checked_with, tables_of};
use crate::given::values_of;
use crate::printed::put_checked;
use case_lines::{Around, Told};
use catalogue::{Catalogue, CheckFault, Checked};
use checked_sql::{bind, is_of};
use pg_values::Value;
use std::alloc::Global;

/// `same` where a statement has the text of what another text is checked as, and else its text.
pub(crate) fn put_same(
    alloc: Global,
    tables: &Catalogue,
    made: &Checked,
    other: &str,
    told: &mut Told,
)
    requires within { IsWithin tables.now }
{
    let mut text = Told::new(alloc);
    put_checked(alloc, tables, made, &mut text);
    let mut wanted = Told::new(alloc);
    let other = checked_with(alloc, tables, other, Some(&[]));
    if let Ok(checked) = &other {
        put_checked(alloc, tables, checked, &mut wanted);
    }
    drop(other);
    told.put(if text.is(wanted.as_str()) {
        "same"
    } else {
        text.as_str()
    });
}

/// Of which tables a statement is.
fn put_tables(tables: &Catalogue, others: &Catalogue, checked: &Checked, told: &mut Told) {
    told.put(match (is_of(tables, checked), is_of(others, checked)) {
        (true, true) => "of both",
        (true, false) => "of these",
        (false, true) => "of others",
        (false, false) => "of none",
    });
}

/// What is told of a statement with values.
fn put_answer(
    alloc: Global,
    tables: &Catalogue,
    others: &Catalogue,
    answer: &Result<Checked, CheckFault>,
    other: &str,
    told: &mut Told,
)
    requires within { IsWithin tables.now }
{
    match answer {
        Ok(made) => {
            told.put(", ");
            put_tables(tables, others, made, told);
            if !other.is_empty() {
                told.put(", ");
                put_same(alloc, tables, made, other, told);
            }
        }
        Err(_) => told.put("no memory"),
    }
}

/// What is told of a statement, and of it with values.
fn put_both(
    alloc: Global,
    tables: &Catalogue,
    others: &Catalogue,
    checked: &Checked,
    values: &[Value],
    other: &str,
    told: &mut Told,
)
    requires within { IsWithin tables.now }
{
    put_tables(tables, others, checked, told);
    let answer = bind(checked, values);
    put_answer(alloc, tables, others, &answer, other, told);
    drop(answer);
}

fn put_asked(alloc: Global, tables: &Catalogue, others: &Catalogue, asked: &str, told: &mut Told)
    requires within { IsWithin tables.now }
{
    let (text, rest) = asked.split_once(" ; ").unwrap_or((asked, ""));
    let (words, other) = rest.split_once(" ; ").unwrap_or((rest, ""));
    let values = values_of(alloc, words, told);
    let made = checked_with(alloc, tables, text, Some(&[]));
    match &made {
        Ok(checked) => {
            put_both(
                alloc,
                tables,
                others,
                checked,
                values.as_slice(),
                other,
                told,
            );
        }
        Err(_) => told.put("no statement"),
    }
    drop(made);
}

/// `TEXT ; VALUES ; OTHER`: of which tables the statement of the text is, of which it is with the
/// values, and whether it is then the statement of the other text.
pub(crate) fn put_bound(alloc: Global, around: &Around, asked: &str, told: &mut Told) {
    let tables = tables_of(alloc, around, "schema");
    let others = tables_of(alloc, around, "other");
    match (&tables, &others) {
        (Some(tables), Some(others)) => put_asked(alloc, tables, others, asked, told),
        _ => told.put("the schema is not read"),
    }
    drop(tables);
    drop(others);
}
