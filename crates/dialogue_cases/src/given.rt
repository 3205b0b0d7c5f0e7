//! Outcomes of statements, as a dialogue gives them.
ghost use Rattle.std.specs.Prelude.{All};
ghost use Rattle.pg_values.specs.Range.{IsInRange};
ghost use Rattle.wire_reply.specs.Rows.{AreInRange};
ghost use Rattle.session_wire.specs.Answers.{MayAnswer};

use catalogue::{Checked, ColumnDesc};
use pg_values::{ColType, Value, from_text};
use pool_base::{BackendId, BackendSet, Code, List, Text};
use session_orders::{Outcome, Tag};
use sql_eval::Row;
use std::alloc::Global;

/// A value by its text, or Null for `null`, and where the text is none of the type.
fn value_of(alloc: Global, kind: ColType, text: &str) -> Value
    ensures { IsInRange result }
{
    if text == "null" {
        return Value::Null;
    }
    match from_text(alloc, kind, text.as_bytes()) {
        Ok(value) => value,
        Err(_) => Value::Null,
    }
}

fn add(cells: &mut List<Value>, value: Value)
    requires range { IsInRange value }
    requires cells { All IsInRange cells.old }
    ensures { All IsInRange cells.new }
{
    let _ = cells.push(value);
}

/// A row by its words, one a column.
fn row_of(alloc: Global, columns: &[ColumnDesc], line: &str) -> Row
    ensures { All IsInRange result.cells }
{
    let mut cells = List::new(alloc);
    let mut words = line.trim().split(' ');
    for column in columns {
        let word = words.next().unwrap_or("null");
        add(&mut cells, value_of(alloc, column.kind, word));
    }
    Row { cells }
}

/// Rows, with `|` between them.
fn rows_of(alloc: Global, columns: &[ColumnDesc], text: &str) -> List<Row>
    ensures { AreInRange result }
{
    let mut rows = List::new(alloc);
    for line in text.split('|') {
        if !line.is_empty() {
            let _ = rows.push(row_of(alloc, columns, line));
        }
    }
    rows
}

fn select_of(alloc: Global, columns: &[ColumnDesc], text: &str) -> Outcome
    ensures { MayAnswer result }
{
    let rows = rows_of(alloc, columns, text);
    let count = rows.len() as u64;
    Outcome::Rows {
        rows,
        tag: Tag::Select(count),
    }
}

fn done(tag: Tag) -> Outcome
    ensures { MayAnswer result }
{
    Outcome::Done { tag, warning: None }
}

/// The code of a text.
pub(crate) fn code_of(text: &str) -> Option<Code> {
    match text.as_bytes() {
        [a, b, c, d, e] => Code::from_bytes([*a, *b, *c, *d, *e]),
        _ => None,
    }
}

/// An error with that code and no name; where the text is no code, nothing is told of it.
pub(crate) fn error_of(alloc: Global, text: &str) -> Outcome
    ensures { MayAnswer result }
{
    let Some(code) = code_of(text) else {
        return Outcome::Settled;
    };
    match Text::from_str(alloc, "") {
        Ok(name) => Outcome::Error { code, name },
        Err(_) => Outcome::Settled,
    }
}

/// The attached backends, as `0 2`.
pub(crate) fn nodes_of(text: &str) -> BackendSet {
    let mut attached = BackendSet { bits: 0 };
    for word in text.split(' ') {
        if let Ok(number) = word.parse::<u8>()
            && let Some(b) = BackendId::from_number(number)
        {
            attached = attached.with(b);
        }
    }
    attached
}

fn count_of(text: &str) -> u64 {
    match text.split(' ').last() {
        Some(word) => word.parse::<u64>().unwrap_or(0),
        None => 0,
    }
}

/// The outcome of a statement: `rows` and their cells, a tag as a client gets it, or `error` with a
/// code.
pub(crate) fn outcome_of(alloc: Global, checked: &Checked, given: &str) -> Outcome
    ensures { MayAnswer result }
{
    let (word, rest) = given.split_once(' ').unwrap_or((given, ""));
    match word {
        "rows" => select_of(alloc, checked.columns.as_slice(), rest),
        "INSERT" => done(Tag::Insert(count_of(rest))),
        "UPDATE" => done(Tag::Update(count_of(rest))),
        "DELETE" => done(Tag::Delete(count_of(rest))),
        _ => error_of(alloc, rest),
    }
}
