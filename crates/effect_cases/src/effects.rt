//! What a statement does on the rows of the first table.
ghost use Rattle.schema.specs.Grammar.{IsWithin};

use crate::allowed::{draws_few, has_table};
use crate::asked::{checked_with, number_of, tables_of};
use crate::given::row_of;
use crate::shelf::{Shelf, is_of, shelf_of};
use crate::shown::{put_code, put_fault, put_read, put_write};
use case_lines::{Around, Told};
use catalogue::{Catalogue, CheckFault, Checked, CheckedBody, TableDef};
use pool_base::List;
use sql_eval::{EvalFault, ReadEffect, Row, WriteEffect, eval_read, eval_write};
use std::alloc::Global;

/// The rows of the lines `@ row`.
fn rows_of(alloc: Global, around: &Around, table: &TableDef) -> List<Row> {
    let mut lines = Told::new(alloc);
    around.put_texts("row", &mut lines);
    let mut rows = List::new(alloc);
    for line in lines.as_str().lines() {
        let _ = rows.push(row_of(alloc, table, line));
    }
    rows
}

fn put_read_or_fault(answer: &Result<ReadEffect, EvalFault>, told: &mut Told) {
    match answer {
        Ok(effect) => put_read(effect, told),
        Err(fault) => put_fault(fault, false, told),
    }
}

fn put_write_or_fault(answer: &Result<WriteEffect, EvalFault>, told: &mut Told) {
    match answer {
        Ok(effect) => put_write(effect, told),
        Err(fault) => put_fault(fault, true, told),
    }
}

/// What a statement does that may be evaluated.
fn put_done(
    alloc: Global,
    tables: &Catalogue,
    checked: &Checked,
    shelf: &Shelf,
    next: i64,
    told: &mut Told,
) {
    if !is_of(shelf, tables) || !has_table(tables, &checked.body) {
        return told.put("no table");
    }
    if !draws_few(&checked.body) || next < 1 {
        return told.put("no numbers");
    }
    match &checked.body {
        CheckedBody::Read(_) => {
            let answer = eval_read(alloc, tables, checked, shelf);
            put_read_or_fault(&answer, told);
            drop(answer);
        }
        CheckedBody::Insert(_) | CheckedBody::Change(_) | CheckedBody::Remove(_) => {
            let answer = eval_write(alloc, tables, checked, shelf, next);
            put_write_or_fault(&answer, told);
            drop(answer);
        }
    }
}

fn put_answer(
    alloc: Global,
    tables: &Catalogue,
    answer: &Result<Checked, CheckFault>,
    shelf: &Shelf,
    next: i64,
    told: &mut Told,
) {
    match answer {
        Ok(checked) => put_done(alloc, tables, checked, shelf, next, told),
        Err(CheckFault::Refused { code, .. }) => {
            told.put("refused ");
            put_code(code, told);
        }
        Err(CheckFault::NoMemory) => told.put("no statement"),
    }
}

/// What the statement of a text does on rows.
fn put_over(
    alloc: Global,
    tables: &Catalogue,
    shelf: &Shelf,
    next: i64,
    text: &str,
    told: &mut Told,
)
    requires within { IsWithin tables.now }
{
    let answer = checked_with(alloc, tables, text, None);
    put_answer(alloc, tables, &answer, shelf, next, told);
    drop(answer);
}

fn put_on(alloc: Global, tables: &Catalogue, around: &Around, text: &str, told: &mut Told)
    requires within { IsWithin tables.now }
{
    let Some(table) = tables.table(0) else {
        return told.put("no table");
    };
    let next = number_of(alloc, around, "next");
    let shelf = shelf_of(rows_of(alloc, around, table));
    match &shelf {
        Some(shelf) => put_over(alloc, tables, shelf, next, text, told),
        None => told.put("no rows"),
    }
    drop(shelf);
}

/// What the statement of a text does on the rows of the lines `@ row`, where `@ next` is the next
/// serial number.
pub(crate) fn put_effect(alloc: Global, around: &Around, text: &str, told: &mut Told) {
    let tables = tables_of(alloc, around, "schema");
    match &tables {
        Some(tables) => put_on(alloc, tables, around, text, told),
        None => told.put("the schema is not read"),
    }
    drop(tables);
}
