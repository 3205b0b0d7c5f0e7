//! Whether a checked statement is of a catalogue.
ghost use Rattle.std.specs.Prelude.{◌≡◌, ◌&&◌, slice_get};
ghost use Rattle.checked_sql.specs.OfCatalogue.{is_change, is_empty, is_insert, is_of, is_remove, of_table};

use crate::read::is_read;
use crate::write::{is_change, is_insert, is_remove};
use catalogue::{Catalogue, Checked, CheckedBody, CheckedChange, CheckedInsert, CheckedRemove};
use pg_values::ColType;

/// An INSERT of the table of its number.
fn is_insert_at(tables: &Catalogue, kinds: &[ColType], insert: &CheckedInsert) -> bool
    ensures { result
        ≡ of_table (is_insert kinds.now) (slice_get tables.now insert.now.table) insert.now }
{
    match tables.table(insert.table) {
        Some(table) => is_insert(kinds, table, insert),
        None => false,
    }
}

/// An UPDATE of the table of its number.
fn is_change_at(tables: &Catalogue, kinds: &[ColType], change: &CheckedChange) -> bool
    ensures { result
        ≡ of_table (is_change kinds.now) (slice_get tables.now change.now.table) change.now }
{
    match tables.table(change.table) {
        Some(table) => is_change(kinds, table, change),
        None => false,
    }
}

/// A DELETE from the table of its number.
fn is_remove_at(tables: &Catalogue, kinds: &[ColType], remove: &CheckedRemove) -> bool
    ensures { result
        ≡ of_table (is_remove kinds.now) (slice_get tables.now remove.now.table) remove.now }
{
    match tables.table(remove.table) {
        Some(table) => is_remove(kinds, table, remove),
        None => false,
    }
}

/// Whether a checked statement is of a catalogue: its numbers are there, each node has the type
/// that the rules give it and as many parts as its form has, and its parts stand where they may.
pub fn is_of(tables: &Catalogue, checked: &Checked) -> bool
    ensures { result ≡ is_of tables.now checked.now }
{
    let kinds = checked.kinds.as_slice();
    let columns = checked.columns.as_slice();
    match &checked.body {
        CheckedBody::Read(read) => is_read(tables, kinds, read, columns),
        CheckedBody::Insert(insert) => columns.is_empty() && is_insert_at(tables, kinds, insert),
        CheckedBody::Change(change) => columns.is_empty() && is_change_at(tables, kinds, change),
        CheckedBody::Remove(remove) => columns.is_empty() && is_remove_at(tables, kinds, remove),
    }
}
