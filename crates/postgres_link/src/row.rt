//! The values of a row.
ghost use Rattle.std.specs.Prelude.{ℕ, List, IfOk};
ghost use Rattle.pg_values.specs.Answers.{RefusesText};
ghost use Rattle.postgres_link.specs.Asked.{IsRefusedAs};
ghost use Rattle.postgres_link.specs.Readings.{IsCellReading, IsRowReading};

use crate::codes::DATETIME_FIELD_OVERFLOW;
use pg_values::{ColType, Value, ValueFault, from_text};
use pool_base::{Code, List, NoMemory};
use std::alloc::Global;

/// What a text is by its type.
#[derive(Drop)]
pub(crate) enum Cell {
    Value(Value),
    /// No value of the type: it is refused with this code.
    Unread(Code),
}

/// What the texts of a row are by the types of its columns.
#[derive(Drop)]
pub(crate) enum Cells {
    Values(List<Value>),
    /// One is no value of its type: the row is refused with this code.
    Unread(Code),
    /// They are more or fewer than the columns.
    Miscounted,
}

/// The code with which a text is refused that is no value of the type.
fn refusal(kind: ColType, code: Code) -> Code
    ensures { (text : List ℕ) → RefusesText kind text code.bytes
        → IsRefusedAs kind text result.bytes }
{
    if let ColType::Moment = kind {
        return DATETIME_FIELD_OVERFLOW;
    }
    code
}

fn cell_of(alloc: Global, kind: ColType, text: &Option<List<u8>>) -> Result<Cell, NoMemory>
    ensures { IfOk result (IsCellReading kind text.now) }
{
    let Some(text) = text else {
        return Ok(Cell::Value(Value::Null));
    };
    match from_text(alloc, kind, text.as_slice()) {
        Ok(value) => Ok(Cell::Value(value)),
        Err(ValueFault::Bad(code)) => Ok(Cell::Unread(refusal(kind, code))),
        Err(ValueFault::NoMemory) => Err(NoMemory),
    }
}

/// The values of a row by the types of its columns.
pub(crate) fn cells_of(
    alloc: Global,
    kinds: &[ColType],
    texts: &[Option<List<u8>>],
) -> Result<Cells, NoMemory>
    ensures { IfOk result (IsRowReading kinds.now texts.now) }
{
    let mut cells = List::new(alloc);
    let mut kinds_left = kinds;
    let mut texts_left = texts;
    'columns: loop {
        if texts_left.len() == 0 {
            if kinds_left.len() == 0 {
                return Ok(Cells::Values(cells));
            }
            drop(cells);
            return Ok(Cells::Miscounted);
        }
        let ([kind, kinds_after @ ..], [text, texts_after @ ..]) = (kinds_left, texts_left) else {
            drop(cells);
            return Ok(Cells::Miscounted);
        };
        match cell_of(alloc, *kind, text)? {
            Cell::Value(cell) => cells.push(cell)?,
            Cell::Unread(code) => {
                drop(cells);
                return Ok(Cells::Unread(code));
            }
        }
        kinds_left = kinds_after;
        texts_left = texts_after;
    }
}
