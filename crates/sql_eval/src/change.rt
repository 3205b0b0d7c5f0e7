//! UPDATE and DELETE.
ghost use Rattle.std.specs.Prelude.{◌≡◌, ◌++◌, [], OnOk, set};
ghost use Rattle.sql_eval.specs.Views.{entry_of};
ghost use Rattle.sql_values.specs.Outcome.{Gives};
ghost use Rattle.sql_eval.specs.Walks.{GivesAs, walked, with_some};
ghost use Rattle.sql_eval.specs.Reads.{alone};
ghost use Rattle.sql_eval.specs.Stored.{cells_set, change_of, removal_of, set_value, updated_row};

use crate::effect::Change;
use crate::row::Row;
use crate::rows::{is_kept, key_of, value_at};
use crate::size::fitting;
use crate::stored::{as_column, not_lacking};
use catalogue::{CheckedChange, CheckedRemove, TypedSet};
use pg_values::Value;
use pool_base::{List, NoMemory};
use schema::ColumnDef;
use sql_values::ExprFault;
use std::alloc::Global;

/// Puts a value into a column, if it is there.
fn put(cells: &mut Vec<Value>, column: u8, value: Value)
    ensures { cells.new.items ≡ set cells.old.items column value }
{
    if (column as usize) < cells.len() {
        cells[column as usize] = value;
    }
}

/// The value of a SET, from the old row.
fn set_value(columns: &[ColumnDef], old: &Row, set: &TypedSet) -> Result<Value, ExprFault>
    ensures { Gives result (set_value alone columns.now old.now set.now) }
{
    let given = value_at(old, &set.expr)?;
    as_column(columns, set.column, given)
}

/// The cells of a row with the values of SETs, all of which are computed from the old row.
fn cells_set(columns: &[ColumnDef], sets: &[TypedSet], old: &Row) -> Result<List<Value>, ExprFault>
    ensures { GivesAs (λ cells. cells) result (cells_set alone columns.now sets.now old.now) }
{
    let mut cells = old.cells.clone()?.into_vec();
    for set in sets {
        let value = set_value(columns, old, set)?;
        put(&mut cells, set.column, value);
    }
    Ok(List::from_vec(cells))
}

/// A row with the values of SETs.
fn updated_row(columns: &[ColumnDef], sets: &[TypedSet], old: &Row) -> Result<Row, ExprFault>
    ensures { GivesAs (λ r. r) result (updated_row alone columns.now sets.now old.now) }
{
    let cells = cells_set(columns, sets, old)?;
    let row = not_lacking(columns, Row { cells })?;
    fitting(row)
}

/// Puts what a step changes, if it changes something, behind other changes.
fn keep(made: &mut List<Change>, step: Option<Change>) -> Result<(), NoMemory>
    ensures { OnOk result (made.new ≡ made.old ++ with_some step []) }
{
    match step {
        None => Ok(()),
        Some(change) => made.push(change),
    }
}

/// What an UPDATE changes at a row.
fn change_of(
    columns: &[ColumnDef],
    key: u8,
    change: &CheckedChange,
    row: &Row,
) -> Result<Option<Change>, ExprFault>
    ensures { GivesAs (λ made. made) result
        (change_of alone columns.now change.now (entry_of key row.now)) }
{
    let stays = is_kept(&change.filter, row)?;
    if !stays {
        return Ok(None);
    }
    let new = updated_row(columns, change.sets.as_slice(), row)?;
    let key = key_of(key, row)?;
    Ok(Some(Change {
        table: change.table,
        key,
        row: Some(new),
    }))
}

/// What an UPDATE changes of the rows of its table: filter and SETs at each, in turn.
pub(crate) fn changes(
    alloc: Global,
    columns: &[ColumnDef],
    key: u8,
    change: &CheckedChange,
    rows: &[&Row],
) -> Result<List<Change>, ExprFault>
    ensures { GivesAs (λ made. made) result
        (walked (λ r. change_of alone columns.now change.now (entry_of key r.now)) rows.now) }
{
    let mut made = List::new(alloc);
    for row in rows {
        let step = change_of(columns, key, change, row)?;
        keep(&mut made, step)?;
    }
    Ok(made)
}

/// What a DELETE removes at a row.
fn removal_of(key: u8, remove: &CheckedRemove, row: &Row) -> Result<Option<Change>, ExprFault>
    ensures { GivesAs (λ made. made) result (removal_of alone remove.now (entry_of key row.now)) }
{
    let stays = is_kept(&remove.filter, row)?;
    if !stays {
        return Ok(None);
    }
    let key = key_of(key, row)?;
    Ok(Some(Change {
        table: remove.table,
        key,
        row: None,
    }))
}

/// What a DELETE removes of the rows of its table.
pub(crate) fn removals(
    alloc: Global,
    key: u8,
    remove: &CheckedRemove,
    rows: &[&Row],
) -> Result<List<Change>, ExprFault>
    ensures { GivesAs (λ made. made) result
        (walked (λ r. removal_of alone remove.now (entry_of key r.now)) rows.now) }
{
    let mut made = List::new(alloc);
    for row in rows {
        let step = removal_of(key, remove, row)?;
        keep(&mut made, step)?;
    }
    Ok(made)
}
