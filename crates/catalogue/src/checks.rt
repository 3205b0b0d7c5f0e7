//! A statement against a catalogue.
ghost use Rattle.std.specs.Prelude.{◌≡◌, ◌↔◌, true};
ghost use Rattle.std.specs.Option.{option_map};
ghost use Rattle.schema.specs.Grammar.{IsWithin};
ghost use Rattle.typed_sql.specs.Steps.{Answers};
ghost use Rattle.catalogue.specs.Statements.{BodyOf};
ghost use Rattle.catalogue.specs.Checking.{AnswersCheck, IsChecked};

use crate::change::{change_of, remove_of};
use crate::checked::{Checked, CheckedBody, ColumnDesc};
use crate::insert::insert_of;
use crate::parameters::{all_kinds, known_first};
use crate::select::select_of;
use crate::tables::table_named;
use pool_base::{List, NoMemory};
use schema::Catalogue;
use sql_tree::Statement;
use std::alloc::Global;
use typed_sql::{CheckFault, Known};

/// Whether a statement is one that is checked: a SELECT, INSERT, UPDATE or DELETE.
pub fn is_checked(statement: &Statement) -> bool
    ensures { (result ≡ true) ↔ IsChecked statement.now }
{
    match statement {
        Statement::Select(_) | Statement::Insert(_) | Statement::Update(_) | Statement::Delete(_) =>
            true,
        Statement::Begin
        | Statement::Commit
        | Statement::Rollback
        | Statement::ShowNodes
        | Statement::Recover(_) => false,
    }
}

/// What a statement is over the tables.
fn body_of(
    alloc: Global,
    tables: &Catalogue,
    parameters: bool,
    statement: &Statement,
    known: &mut Known,
) -> Result<(CheckedBody, List<ColumnDesc>), CheckFault>
    requires within { IsWithin tables.now }
    requires one { IsChecked statement.now }
    ensures { Answers (λ b. b) result known.new.items
        (BodyOf tables.now parameters statement.now known.old.items) }
{
    match statement {
        Statement::Select(select) => select_of(alloc, tables, parameters, select, known),
        Statement::Insert(insert) => {
            let table = table_named(tables, &insert.table)?;
            insert_of(alloc, parameters, insert, table, known)
        }
        Statement::Update(update) => {
            let table = table_named(tables, &update.table)?;
            change_of(alloc, parameters, update, table, known)
        }
        Statement::Delete(delete) => {
            let table = table_named(tables, &delete.table)?;
            remove_of(alloc, parameters, delete, table, known)
        }
        Statement::Begin
        | Statement::Commit
        | Statement::Rollback
        | Statement::ShowNodes
        | Statement::Recover(_) => unreachable!(),
    }
}

/// Checks a SELECT, INSERT, UPDATE or DELETE against the tables of a catalogue. `kinds` are the
/// numbers of the parameters' types, 0 where one is not given; without it no parameter may stand.
///
/// Source: the numbers are those of PostgreSQL, "pg_type".
pub fn check(
    alloc: Global,
    tables: &Catalogue,
    statement: &Statement,
    kinds: Option<&[u32]>,
) -> Result<Checked, CheckFault>
    requires within { IsWithin tables.now }
    requires one { IsChecked statement.now }
    ensures { AnswersCheck tables.now statement.now (option_map (λ k. k.now) kinds.entry) result }
{
    let mut known = known_first(alloc, kinds)?;
    let parameters = kinds.is_some();
    let (body, columns) = body_of(alloc, tables, parameters, statement, &mut known)?;
    match all_kinds(alloc, &known) {
        Ok(kinds) => Ok(Checked {
            body,
            columns,
            kinds,
        }),
        Err(NoMemory) => {
            drop(body);
            Err(CheckFault::NoMemory)
        }
    }
}
