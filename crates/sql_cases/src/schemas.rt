//! Schemas, and the lines in which texts are none.
use case_lines::{Told, bytes_of};
use catalogue::{SchemaFault, read_schema};
use pool_base::Text;
use sql_profile::schema_again;
use std::alloc::Global;

/// The most bytes that a schema has.
const MOST_BYTES: usize = 262_144;

fn put_fault(fault: SchemaFault, told: &mut Told) {
    match fault {
        SchemaFault::BadLine(line) => {
            told.put("line ");
            told.put_number(u64::from(line));
        }
        SchemaFault::NoMemory => told.put("no memory"),
    }
}

fn put_written(written: &Result<Text, SchemaFault>, told: &mut Told) {
    match written {
        Ok(text) if text.is_empty() => told.put("nothing"),
        Ok(text) => told.put_one_line(text.as_str()),
        Err(fault) => put_fault(*fault, told),
    }
}

fn put_again(alloc: Global, text: &[u8], told: &mut Told) {
    if text.len() > MOST_BYTES {
        return told.put("longer than a case may be");
    }
    put_written(&schema_again(alloc, text), told);
}

fn put_first_fault(alloc: Global, text: &[u8], told: &mut Told) {
    if text.len() > MOST_BYTES {
        return told.put("longer than a case may be");
    }
    match read_schema(alloc, text) {
        Ok(_) => told.put("good"),
        Err(fault) => put_fault(fault, told),
    }
}

/// What is written of the schema that a text is, or the line of its first fault.
pub(crate) fn put_schema(alloc: Global, asked: &str, told: &mut Told) {
    match bytes_of(alloc, asked) {
        Ok(text) => put_again(alloc, text.as_slice(), told),
        Err(_) => told.put("no memory"),
    }
}

/// The line of the first fault of a text, or `good`.
pub(crate) fn put_line(alloc: Global, asked: &str, told: &mut Told) {
    match bytes_of(alloc, asked) {
        Ok(text) => put_first_fault(alloc, text.as_slice(), told),
        Err(_) => told.put("no memory"),
    }
}
