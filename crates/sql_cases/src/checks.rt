//! Statements over the tables of a schema, and what a check answers.
ghost use Rattle.std.specs.Prelude.{IfSome};
ghost use Rattle.schema.specs.Grammar.{IsWithin};

use crate::bodies::put_body;
use crate::statements::one_of;
use crate::words::word_of;
use case_lines::{Around, Told};
use catalogue::{Catalogue, CheckFault, Checked, ColumnDesc, check, is_checked, read_schema};
use pg_values::ColType;
use pool_base::{Code, List, Text};
use sql_profile::Statement;
use std::alloc::Global;

/// The columns of a result, each by its name and its type.
fn put_columns(columns: &[ColumnDesc], told: &mut Told) {
    for column in columns {
        if !told.is("") {
            told.put(", ");
        }
        told.put_one_line(column.name.as_str());
        told.put(" ");
        told.put(word_of(column.kind));
    }
}

fn put_kinds(kinds: &[ColType], told: &mut Told) {
    told.put_word("|");
    for kind in kinds {
        told.put_word(word_of(*kind));
    }
}

fn put_checked(checked: &Checked, has_list: bool, has_body: bool, told: &mut Told) {
    put_columns(checked.columns.as_slice(), told);
    if has_list {
        put_kinds(checked.kinds.as_slice(), told);
    }
    if has_body {
        told.put_word(":");
        put_body(&checked.body, told);
    }
}

fn put_fault(code: &Code, name: &Text, told: &mut Told) {
    told.put_escaped(code.bytes.as_slice());
    if !name.is_empty() {
        told.put_word(name.as_str());
    }
}

fn put_answer(
    answer: &Result<Checked, CheckFault>,
    has_list: bool,
    has_body: bool,
    told: &mut Told,
) {
    match answer {
        Ok(checked) => put_checked(checked, has_list, has_body, told),
        Err(CheckFault::Refused { code, name }) => put_fault(code, name, told),
        Err(CheckFault::NoMemory) => told.put("no memory"),
    }
}

/// Numbers with spaces between them.
fn numbers_of(alloc: Global, words: &str) -> List<u32> {
    let mut numbers = List::new(alloc);
    for word in words.split_whitespace() {
        if let Ok(number) = word.parse::<u32>() {
            let _ = numbers.push(number);
        }
    }
    numbers
}

fn put_of(
    alloc: Global,
    tables: &Catalogue,
    statement: &Statement,
    kinds: Option<&[u32]>,
    has_body: bool,
    told: &mut Told,
)
    requires within { IsWithin tables.now }
{
    if !is_checked(statement) {
        return told.put("not checked");
    }
    let answer = check(alloc, tables, statement, kinds);
    put_answer(&answer, kinds.is_some(), has_body, told);
    drop(answer);
}

fn put_one(
    alloc: Global,
    tables: &Catalogue,
    kinds: Option<&[u32]>,
    text: &str,
    has_body: bool,
    told: &mut Told,
)
    requires within { IsWithin tables.now }
{
    let mut read = List::new(alloc);
    match one_of(alloc, text, &mut read) {
        Some(statement) => put_of(alloc, tables, statement, kinds, has_body, told),
        None => told.put("not one statement"),
    }
}

/// What is told of a text, behind a list of types or without one.
fn put_asked(alloc: Global, tables: &Catalogue, asked: &str, has_body: bool, told: &mut Told)
    requires within { IsWithin tables.now }
{
    match asked.split_once("] ") {
        Some((list, text)) => {
            let kinds = numbers_of(alloc, list.trim_start_matches('['));
            put_one(alloc, tables, Some(kinds.as_slice()), text, has_body, told);
        }
        None => put_one(alloc, tables, None, asked, has_body, told),
    }
}

/// The tables of a schema.
fn tables_of(alloc: Global, schema: &str) -> Option<Catalogue>
    ensures { IfSome result (λ tables. IsWithin tables) }
{
    if schema.len() > 100_000 {
        return None;
    }
    read_schema(alloc, schema.as_bytes()).ok()
}

/// What a statement is over the tables of the lines `@ schema`.
pub(crate) fn put_check(
    alloc: Global,
    around: &Around,
    asked: &str,
    has_body: bool,
    told: &mut Told,
) {
    let mut schema = Told::new(alloc);
    around.put_texts("schema", &mut schema);
    match tables_of(alloc, schema.as_str()) {
        Some(tables) => put_asked(alloc, &tables, asked, has_body, told),
        None => told.put("the schema is not read"),
    }
}
