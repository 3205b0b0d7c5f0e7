//! The class of a statement.
ghost use Rattle.std.specs.Prelude.{◌≡◌};
ghost use Rattle.std.specs.List.{list_any};
ghost use Rattle.classifier.specs.Classes.{is_serial, has_serial, class_of, lock_of, table_written, tables_mask, WritesOneOf64};

use catalogue::{Checked, CheckedBody, TypedCell};
use pool_base::List;

/// How a statement goes to the backends.
#[derive(Clone, Copy, Debug, PartialEq, Eq)]
pub enum Class {
    /// A SELECT without FOR UPDATE.
    Read,
    /// A SELECT with FOR UPDATE.
    LockingRead,
    /// An UPDATE, a DELETE, and an INSERT that takes no serial number.
    Write,
    /// An INSERT that takes a serial number.
    SerialInsert,
}

/// The class of a statement.
///
/// House rule: an INSERT that takes a serial number is a class of its own, since it takes the lock
/// of its table first, so that all backends draw the same numbers.
pub fn class_of(checked: &Checked) -> Class
    ensures { result ≡ class_of checked.now.body }
{
    match &checked.body {
        CheckedBody::Read(read) => {
            if read.for_update {
                Class::LockingRead
            } else {
                Class::Read
            }
        }
        CheckedBody::Insert(insert) => {
            if has_serial(insert.rows.as_slice()) {
                Class::SerialInsert
            } else {
                Class::Write
            }
        }
        CheckedBody::Change(_) | CheckedBody::Remove(_) => Class::Write,
    }
}

/// The number of the table whose lock a statement takes first, if it takes one.
pub fn lock_of(checked: &Checked) -> Option<u8>
    ensures { result ≡ lock_of checked.now.body }
{
    match class_of(checked) {
        Class::Read | Class::LockingRead | Class::Write => None,
        Class::SerialInsert => table_written(checked),
    }
}

/// The tables that a statement writes, each by the bit of its number: one, or none for a SELECT.
pub fn tables_mask(checked: &Checked) -> u64
    requires few { WritesOneOf64 checked.now.body }
    ensures { result ≡ tables_mask checked.now.body }
{
    match table_written(checked) {
        None => 0,
        Some(table) => 1 << table,
    }
}

fn has_serial(rows: &[List<TypedCell>]) -> bool
    ensures { result ≡ has_serial rows.now }
{
    for row in rows {
        if row_has_serial(row.as_slice()) {
            return true;
        }
    }
    false
}

fn row_has_serial(row: &[TypedCell]) -> bool
    ensures { result ≡ list_any is_serial row.now }
{
    for cell in row {
        if is_serial(cell) {
            return true;
        }
    }
    false
}

fn is_serial(cell: &TypedCell) -> bool
    ensures { result ≡ is_serial cell.now }
{
    matches!(cell, TypedCell::Serial)
}

fn table_written(checked: &Checked) -> Option<u8>
    ensures { result ≡ table_written checked.now.body }
{
    match &checked.body {
        CheckedBody::Read(_) => None,
        CheckedBody::Insert(insert) => Some(insert.table),
        CheckedBody::Change(change) => Some(change.table),
        CheckedBody::Remove(remove) => Some(remove.table),
    }
}
