//! The text of a checked statement.
ghost use Rattle.std.specs.Prelude.{◌≡◌, IfOk, true};
ghost use Rattle.sql_print.specs.Printed.{statement_text};
ghost use Rattle.checked_print.specs.Ranges.{is_held_statement};
ghost use Rattle.checked_print.specs.Statements.{spelled_statement};

use crate::select::spelled_read;
use crate::write::{spelled_change, spelled_insert, spelled_remove};
use catalogue::{Catalogue, Checked, CheckedBody};
use pool_base::{NoMemory, Text};
use sql_print::print_statement;
use sql_tree::Statement;
use std::alloc::Global;

/// The statement that a checked statement is spelled as: the names are those of its table and its
/// columns, each key of its order is written, and an INSERT names all columns.
pub fn spelled_statement(
    alloc: Global,
    tables: &Catalogue,
    checked: &Checked,
) -> Result<Statement, NoMemory>
    ensures made { IfOk result (λ made. made ≡ spelled_statement tables.now checked.now) }

    // Each of its numbers was read: it is in the range of its type.
    ensures held { IfOk result (λ made. is_held_statement checked.now ≡ true) }
{
    let columns = checked.columns.as_slice();
    Ok(match &checked.body {
        CheckedBody::Read(read) => {
            Statement::Select(spelled_read(alloc, tables, read, columns)?)
        }
        CheckedBody::Insert(insert) => Statement::Insert(spelled_insert(alloc, tables, insert)?),
        CheckedBody::Change(change) => Statement::Update(spelled_change(alloc, tables, change)?),
        CheckedBody::Remove(remove) => Statement::Delete(spelled_remove(alloc, tables, remove)?),
    })
}

/// The one text of a checked statement over the tables of its catalogue.
///
/// Shape: docs/SQL.md, "How a checked statement is written".
pub fn print_checked(alloc: Global, tables: &Catalogue, checked: &Checked) -> Result<Text, NoMemory>
    ensures { IfOk result (λ text. text
        ≡ statement_text (spelled_statement tables.now checked.now)) }
{
    let statement = spelled_statement(alloc, tables, checked)?;
    let text = print_statement(alloc, &statement);
    drop(statement);
    text
}
