//! Statements at a moment, and moments as literals.
ghost use Rattle.schema.specs.Grammar.{IsWithin};

use crate::asked::{checked_with, number_of, tables_of};
use crate::bound::put_same;
use case_lines::{Around, Told};
use catalogue::{Catalogue, Checked};
use std::alloc::Global;
use time_rewrite::{RewriteFault, literal_of, rewrite};

fn put_fault(fault: &RewriteFault, told: &mut Told) {
    told.put(match fault {
        RewriteFault::MomentOutOfRange => "out of range",
        RewriteFault::NoMemory => "no memory",
    });
}

/// What is told of a statement at a moment, beside the one of another text.
fn put_at(
    alloc: Global,
    tables: &Catalogue,
    answer: &Result<Checked, RewriteFault>,
    other: &str,
    told: &mut Told,
)
    requires within { IsWithin tables.now }
{
    match answer {
        Ok(made) => put_same(alloc, tables, made, other, told),
        Err(fault) => put_fault(fault, told),
    }
}

fn put_made(
    alloc: Global,
    tables: &Catalogue,
    checked: &Checked,
    moment: i64,
    other: &str,
    told: &mut Told,
)
    requires within { IsWithin tables.now }
{
    let answer = rewrite(checked, moment);
    put_at(alloc, tables, &answer, other, told);
    drop(answer);
}

fn put_over(alloc: Global, tables: &Catalogue, moment: i64, asked: &str, told: &mut Told)
    requires within { IsWithin tables.now }
{
    let (text, other) = asked.split_once(" ; ").unwrap_or((asked, asked));
    let made = checked_with(alloc, tables, text, Some(&[]));
    match &made {
        Ok(checked) => put_made(alloc, tables, checked, moment, other, told),
        Err(_) => told.put("no statement"),
    }
    drop(made);
}

/// `TEXT ; OTHER`: whether the statement of the text, at the moment of the line `@ moment`, is that
/// of the other.
pub(crate) fn put_time(alloc: Global, around: &Around, asked: &str, told: &mut Told) {
    let moment = number_of(alloc, around, "moment");
    let tables = tables_of(alloc, around, "schema");
    match &tables {
        Some(tables) => put_over(alloc, tables, moment, asked, told),
        None => told.put("the schema is not read"),
    }
    drop(tables);
}

/// The literal of a moment in microseconds.
pub(crate) fn put_literal(alloc: Global, asked: &str, told: &mut Told) {
    match literal_of(alloc, asked.parse::<i64>().unwrap_or(0)) {
        Ok(literal) => told.put(literal.as_str()),
        Err(fault) => put_fault(&fault, told),
    }
}
