//! UPDATE and DELETE.
ghost use Rattle.std.specs.Prelude.{◌≡◌, ◌≤◌, [], ◌∷◌, ◌++◌, length};
ghost use Rattle.typed_sql.specs.Meaning.{scope_of};
ghost use Rattle.typed_sql.specs.Steps.{Answers, Walk};
ghost use Rattle.catalogue.specs.Statements.{Change, Remove, SetOf};

use crate::checked::{CheckedBody, CheckedChange, CheckedRemove, ColumnDesc, TypedSet};
use crate::tables::filter_of;
use pool_base::List;
use schema::TableDef;
use sql_tree::{Delete, SetItem, Update};
use std::alloc::Global;
use typed_sql::{
    Check, CheckFault, Known, Scope, asks_column, column_set_twice, not_in_profile, typed_at,
};

/// A column and its new value, behind others with these columns.
fn set_of(
    check: &Check<'_>,
    key: u8,
    before: &[u8],
    item: &SetItem,
    known: &mut Known,
) -> Result<TypedSet, CheckFault>
    ensures { Answers (λ s. s) result known.new.items
        (SetOf (scope_of check.now.scope) key before.now item.now known.old.items) }
{
    let (column, definition) = check.scope.column_meant(&None, &item.column)?;
    if column == key {
        return Err(not_in_profile(check.alloc, "update of a key column"));
    }
    if before.contains(&column) {
        return Err(column_set_twice(&item.column));
    }
    let expr = typed_at(check, asks_column(definition.kind), &item.expr, known)?;
    Ok(TypedSet { column, expr })
}

/// The columns and their new values, up to the first fault.
fn sets_of(
    check: &Check<'_>,
    key: u8,
    items: &[SetItem],
    known: &mut Known,
) -> Result<List<TypedSet>, CheckFault>
    ensures { Answers (λ sets. sets) result known.new.items
        (Walk (SetOf (scope_of check.now.scope) key) (λ before s. before ++ s.column ∷ []) []
        items.now known.old.items) }
{
    let mut before = List::new(check.alloc);
    let mut sets = List::new(check.alloc);
    for item in items {
        let set = set_of(check, key, before.as_slice(), item, known)?;
        let column = set.column;
        sets.push(set)?;
        before.push(column)?;
    }
    Ok(sets)
}

/// What an UPDATE of a table is.
pub(crate) fn change_of(
    alloc: Global,
    parameters: bool,
    update: &Update,
    table: (u8, &TableDef),
    known: &mut Known,
) -> Result<(CheckedBody, List<ColumnDesc>), CheckFault>
    requires { length table.1.now.columns ≤ 32 }
    ensures { Answers (λ b. b) result known.new.items
        (Change parameters update.now (table.entry.0, table.entry.1.now) known.old.items) }
{
    let (number, table) = table;
    let check = Check {
        alloc,
        scope: Scope::over(table, parameters),
    };
    let items = update.sets.as_slice();
    let sets = sets_of(&check, table.key, items, known)?;
    let filter = filter_of(&check, &update.filter, known)?;
    let change = CheckedChange {
        table: number,
        sets,
        filter,
    };
    Ok((CheckedBody::Change(change), List::new(alloc)))
}

/// What a DELETE from a table is.
pub(crate) fn remove_of(
    alloc: Global,
    parameters: bool,
    delete: &Delete,
    table: (u8, &TableDef),
    known: &mut Known,
) -> Result<(CheckedBody, List<ColumnDesc>), CheckFault>
    requires { length table.1.now.columns ≤ 32 }
    ensures { Answers (λ b. b) result known.new.items
        (Remove parameters delete.now (table.entry.0, table.entry.1.now) known.old.items) }
{
    let (number, table) = table;
    let check = Check {
        alloc,
        scope: Scope::over(table, parameters),
    };
    let filter = filter_of(&check, &delete.filter, known)?;
    let remove = CheckedRemove {
        table: number,
        filter,
    };
    Ok((CheckedBody::Remove(remove), List::new(alloc)))
}
