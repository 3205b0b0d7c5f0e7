//! What statements need of the backends.
ghost use Rattle.std.specs.Prelude.{◌≡◌, true};
ghost use Rattle.schema.specs.Grammar.{IsWithin};
ghost use Rattle.classifier.specs.Classes.{WritesOneOf64};

use crate::asked::{checked_with, tables_of};
use case_lines::{Around, Told};
use catalogue::{Catalogue, Checked, CheckedBody};
use classifier::{Class, class_of, lock_of, tables_mask};
use std::alloc::Global;

/// Whether the table that a statement writes is one of the 64 that there may be.
fn writes_one_of_64(body: &CheckedBody) -> bool
    ensures { (result ≡ true) → WritesOneOf64 body.now }
{
    match body {
        CheckedBody::Read(_) => true,
        CheckedBody::Insert(insert) => insert.table < 64,
        CheckedBody::Change(change) => change.table < 64,
        CheckedBody::Remove(remove) => remove.table < 64,
    }
}

fn word_of(class: Class) -> &'static str {
    match class {
        Class::Read => "read",
        Class::LockingRead => "locking-read",
        Class::Write => "write",
        Class::SerialInsert => "serial-insert",
    }
}

fn put_needs(checked: &Checked, told: &mut Told) {
    told.put(word_of(class_of(checked)));
    if let Some(table) = lock_of(checked) {
        told.put(" lock ");
        told.put_number(u64::from(table));
    }
    if !writes_one_of_64(&checked.body) {
        return told.put(" beyond");
    }
    let mask = tables_mask(checked);
    if mask != 0 {
        told.put(" mask ");
        told.put_number(mask);
    }
}

fn put_over(alloc: Global, tables: &Catalogue, text: &str, told: &mut Told)
    requires within { IsWithin tables.now }
{
    let made = checked_with(alloc, tables, text, None);
    match &made {
        Ok(checked) => put_needs(checked, told),
        Err(_) => told.put("no statement"),
    }
    drop(made);
}

/// The class of a statement, the table whose lock it takes first, and the mask of the tables that
/// it changes.
pub(crate) fn put_class(alloc: Global, around: &Around, text: &str, told: &mut Told) {
    let tables = tables_of(alloc, around, "schema");
    match &tables {
        Some(tables) => put_over(alloc, tables, text, told),
        None => told.put("the schema is not read"),
    }
    drop(tables);
}
