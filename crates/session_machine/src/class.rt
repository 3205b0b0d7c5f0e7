//! The class and the tables of a statement.
ghost use Rattle.std.specs.Prelude.{◌≡◌, ◌↔◌, IsTrue};
ghost use Rattle.classifier.specs.Classes.{WritesOneOf64};
ghost use Rattle.session_machine.specs.Classes.{class_in, work_in};

use crate::work::{Class, Verb, Work};
use backend_trait::Checked;
use catalogue::CheckedBody;
use classifier::{class_of, tables_mask};
use pool_base::Boxed;

/// The class of a statement.
fn class_in(statement: &Checked) -> Class
    ensures { result ≡ class_in statement.now.body }
{
    match &statement.body {
        CheckedBody::Read(_) => match class_of(statement) {
            classifier::Class::LockingRead => Class::LockingRead,
            _ => Class::Read,
        },
        CheckedBody::Insert(insert) => match class_of(statement) {
            classifier::Class::SerialInsert => Class::SerialInsert(insert.table),
            _ => Class::Write(Verb::Insert),
        },
        CheckedBody::Change(_) => Class::Write(Verb::Update),
        CheckedBody::Remove(_) => Class::Write(Verb::Delete),
    }
}

/// Whether the table that a statement writes is one of the 64 that a catalogue may have.
pub(crate) fn has_bit(statement: &Checked) -> bool
    ensures { IsTrue result ↔ WritesOneOf64 statement.now.body }
{
    match &statement.body {
        CheckedBody::Read(_) => true,
        CheckedBody::Insert(insert) => insert.table < 64,
        CheckedBody::Change(change) => change.table < 64,
        CheckedBody::Remove(remove) => remove.table < 64,
    }
}

/// A statement with its class and its tables.
pub fn work_of(statement: Boxed<Checked>) -> Work
    requires few { WritesOneOf64 statement.body }
    ensures { result ≡ work_in statement }
{
    let class = class_in(statement.get());
    let tables = tables_mask(statement.get());
    Work {
        statement,
        class,
        tables,
    }
}
