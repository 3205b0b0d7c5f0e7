//! What a run leaves in each of eight boxes.
use crate::runs::files_of;
use backend_trait::{Backend, Row};
use case_lines::{Around, Told};
use model_store::MemoryStore;
use pg_values::Value;
use pool_base::{List, MemorySink, NoMemory};
use pool_run::{pool_run, put};
use std::alloc::Global;

fn put_value(value: &Value, told: &mut Told) {
    match value {
        Value::Null => told.put("null"),
        Value::Bool(_) | Value::Text(_) => told.put("text"),
        Value::Int4(number) => told.put_signed(i64::from(*number)),
        Value::Int8(number) | Value::Moment(number) => told.put_signed(*number),
    }
}

fn put_row(row: &Row, told: &mut Told) {
    let mut gap = "";
    for value in row.cells.as_slice() {
        told.put(gap);
        put_value(value, told);
        gap = " ";
    }
}

fn put_rows(rows: &[Row], told: &mut Told) {
    let mut gap = "";
    for row in rows {
        told.put(gap);
        put_row(row, told);
        gap = ", ";
    }
}

/// Puts the rows of the first table of each box, with `|` between the boxes.
fn put_each<B: Backend>(boxes: &[B], told: &mut Told) {
    let mut gap = "";
    for one in boxes {
        told.put(gap);
        match one.rows_of(0) {
            Ok(rows) => put_rows(rows.as_slice(), told),
            Err(_) => told.put("no memory"),
        }
        gap = "|";
    }
}

/// Plays the script over eight boxes, and puts what is left in them.
fn put_left(alloc: Global, around: &Around, script: &str, told: &mut Told) -> Result<(), NoMemory> {
    let mut shelf: Vec<Box<dyn Backend>> = Vec::new(alloc);
    put(&mut shelf, Box::new(alloc, MemoryStore::new(alloc)?)?)?;
    put(&mut shelf, Box::new(alloc, MemoryStore::new(alloc)?)?)?;
    put(&mut shelf, Box::new(alloc, MemoryStore::new(alloc)?)?)?;
    put(&mut shelf, Box::new(alloc, MemoryStore::new(alloc)?)?)?;
    put(&mut shelf, Box::new(alloc, MemoryStore::new(alloc)?)?)?;
    put(&mut shelf, Box::new(alloc, MemoryStore::new(alloc)?)?)?;
    put(&mut shelf, Box::new(alloc, MemoryStore::new(alloc)?)?)?;
    put(&mut shelf, Box::new(alloc, MemoryStore::new(alloc)?)?)?;
    let words = ["play", "config", "schema", "script"];
    let mut files = files_of(alloc, around, script, List::new(alloc))?;
    let mut out = MemorySink::new(alloc, List::new(alloc));
    told.put_number(u64::from(pool_run(alloc, &words, &mut files, &mut out, &mut shelf)));
    told.put(" ");
    put_each(shelf.as_slice(), told);
    Ok(())
}

/// What a script leaves: the status, and the rows of each box.
pub(crate) fn put_boxes(alloc: Global, around: &Around, script: &str, told: &mut Told) {
    if put_left(alloc, around, script, told).is_err() {
        told.put("no memory");
    }
}
