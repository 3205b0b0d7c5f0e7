//! An INSERT of many rows.
use catalogue::{Checked, CheckedBody, CheckedInsert, TypedCell, TypedExpr, TypedForm};
use pg_values::{ColType, Value};
use pool_base::{List, NoMemory};
use std::alloc::Global;

/// The number of the table for trials.
const TABLE: u8 = 0;

/// A cell of a value that is given.
fn given(kind: ColType, value: Value) -> TypedCell {
    TypedCell::Given(TypedExpr {
        kind,
        form: TypedForm::Literal(value),
    })
}

/// The cells of a row: its key, and the same number.
fn cells_of(alloc: Global, key: i32) -> Result<List<TypedCell>, NoMemory> {
    let mut cells = List::new(alloc);
    cells.push(given(ColType::Int4, Value::Int4(key)))?;
    cells.push(given(ColType::Int8, Value::Int8(i64::from(key))))?;
    Ok(cells)
}

/// `INSERT INTO t (id, v) VALUES (key, key), (key + 1, key + 1) ..`, of so many rows.
pub fn insert_of_rows(alloc: Global, first_key: i32, count: u32) -> Result<Checked, NoMemory> {
    let mut rows = List::new(alloc);
    let mut key = first_key;
    for done in 0..count {
        rows.push(cells_of(alloc, key)?)?;
        key = key.wrapping_add(1);
    }
    Ok(Checked {
        body: CheckedBody::Insert(CheckedInsert { table: TABLE, rows }),
        columns: List::new(alloc),
        kinds: List::new(alloc),
    })
}
