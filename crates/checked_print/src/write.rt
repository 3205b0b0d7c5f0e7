//! An INSERT, UPDATE or DELETE as it is written.
ghost use Rattle.std.specs.Prelude.{◌≡◌, IfOk, Some, map, true};
ghost use Rattle.std.specs.List.{list_all};
ghost use Rattle.checked_print.specs.Ranges.{is_held_cell, is_held_change, is_held_expr, is_held_insert, is_held_remove};
ghost use Rattle.checked_print.specs.Statements.{spelled_cell, spelled_change, spelled_insert, spelled_remove, spelled_set};

use crate::expression::{some_spelled, spelled_whole};
use crate::speller::{Speller, column_names, name_at, table_columns, table_name};
use catalogue::{Catalogue, CheckedChange, CheckedInsert, CheckedRemove, TypedCell, TypedSet};
use pool_base::{List, NoMemory};
use sql_tree::{Cell, Delete, Insert, SetItem, Update};
use std::alloc::Global;

/// A cell: DEFAULT where the table fills it.
fn cell(alloc: Global, cell: &TypedCell) -> Result<Cell, NoMemory>
    ensures made { IfOk result (λ made. made ≡ spelled_cell cell.now) }
    ensures held { IfOk result (λ made. is_held_cell cell.now ≡ true) }
{
    match cell {
        TypedCell::Serial | TypedCell::Now => Ok(Cell::Fill),
        TypedCell::Given(expr) => {
            let speller = Speller {
                alloc,
                columns: &[],
            };
            Ok(Cell::Given(spelled_whole(&speller, expr)?))
        }
    }
}

fn row(alloc: Global, cells: &List<TypedCell>) -> Result<List<Cell>, NoMemory>
    ensures made { IfOk result (λ made. made ≡ map spelled_cell cells.now) }
    ensures held { IfOk result (λ made. list_all is_held_cell cells.now ≡ true) }
{
    let mut made = List::new(alloc);
    for given in cells.as_slice() {
        made.push(cell(alloc, given)?)?;
    }
    Ok(made)
}

fn rows(alloc: Global, rows: &List<List<TypedCell>>) -> Result<List<List<Cell>>, NoMemory>
    ensures made { IfOk result (λ made. made ≡ map (map spelled_cell) rows.now) }
    ensures held { IfOk result (λ made. list_all (list_all is_held_cell) rows.now ≡ true) }
{
    let mut made = List::new(alloc);
    for cells in rows.as_slice() {
        made.push(row(alloc, cells)?)?;
    }
    Ok(made)
}

/// An INSERT of all columns of its table, in their order.
pub(crate) fn spelled_insert(
    alloc: Global,
    tables: &Catalogue,
    insert: &CheckedInsert,
) -> Result<Insert, NoMemory>
    ensures made { IfOk result (λ made. made ≡ spelled_insert tables.now insert.now) }
    ensures held { IfOk result (λ made. is_held_insert insert.now ≡ true) }
{
    let speller = Speller {
        alloc,
        columns: table_columns(tables, insert.table),
    };
    let table = table_name(alloc, tables, insert.table)?;
    let names = column_names(&speller)?;
    Ok(Insert {
        table,
        columns: Some(names),
        rows: rows(alloc, &insert.rows)?,
    })
}

fn set_item(speller: &Speller<'_>, set: &TypedSet) -> Result<SetItem, NoMemory>
    ensures made { IfOk result (λ made. made ≡ spelled_set speller.now.columns.now set.now) }
    ensures held { IfOk result (λ made. is_held_expr set.now.expr ≡ true) }
{
    Ok(SetItem {
        column: name_at(speller, set.column)?,
        expr: spelled_whole(speller, &set.expr)?,
    })
}

fn set_items(speller: &Speller<'_>, sets: &List<TypedSet>) -> Result<List<SetItem>, NoMemory>
    ensures made { IfOk result (λ made. made ≡ map (spelled_set speller.now.columns.now) sets.now) }
    ensures held { IfOk result (λ made. list_all (λ s. is_held_expr s.expr) sets.now ≡ true) }
{
    let mut made = List::new(speller.alloc);
    for set in sets.as_slice() {
        made.push(set_item(speller, set)?)?;
    }
    Ok(made)
}

pub(crate) fn spelled_change(
    alloc: Global,
    tables: &Catalogue,
    change: &CheckedChange,
) -> Result<Update, NoMemory>
    ensures made { IfOk result (λ made. made ≡ spelled_change tables.now change.now) }
    ensures held { IfOk result (λ made. is_held_change change.now ≡ true) }
{
    let speller = Speller {
        alloc,
        columns: table_columns(tables, change.table),
    };
    let table = table_name(alloc, tables, change.table)?;
    Ok(Update {
        table,
        sets: set_items(&speller, &change.sets)?,
        filter: some_spelled(&speller, &change.filter)?,
    })
}

pub(crate) fn spelled_remove(
    alloc: Global,
    tables: &Catalogue,
    remove: &CheckedRemove,
) -> Result<Delete, NoMemory>
    ensures made { IfOk result (λ made. made ≡ spelled_remove tables.now remove.now) }
    ensures held { IfOk result (λ made. is_held_remove remove.now ≡ true) }
{
    let speller = Speller {
        alloc,
        columns: table_columns(tables, remove.table),
    };
    let table = table_name(alloc, tables, remove.table)?;
    Ok(Delete {
        table,
        filter: some_spelled(&speller, &remove.filter)?,
    })
}
