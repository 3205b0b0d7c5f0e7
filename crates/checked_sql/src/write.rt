//! Whether an INSERT, an UPDATE or a DELETE is of a catalogue.
ghost use Rattle.std.specs.Prelude.{◌≡◌, ◌==◌, slice_get};
ghost use Rattle.std.specs.List.{list_all, list_any};
ghost use Rattle.std.specs.Option.{option_map};
ghost use Rattle.checked_sql.specs.Sound.{names_of};
ghost use Rattle.checked_sql.specs.OfCatalogue.{are_apart, are_cells, is_cell, is_change, is_insert, is_now, is_remove, is_serial, is_set, is_value_of};

use crate::names::Names;
use crate::nodes::stands;
use crate::read::is_filter;
use catalogue::{CheckedChange, CheckedInsert, CheckedRemove, TypedCell, TypedSet};
use pg_values::ColType;
use pool_base::List;
use schema::{ColumnDef, Fill, TableDef};
use typed_sql::{Takes, TypedExpr};

/// Below which number of rows an INSERT stays.
const TOO_MANY_ROWS: usize = 4_294_967_296;

fn is_serial(fill: &Fill) -> bool
    ensures { result ≡ is_serial fill.now }
{
    match fill {
        Fill::Serial => true,
        Fill::Nothing | Fill::Now | Fill::Constant(_) => false,
    }
}

fn is_now(fill: &Fill) -> bool
    ensures { result ≡ is_now fill.now }
{
    match fill {
        Fill::Now => true,
        Fill::Nothing | Fill::Serial | Fill::Constant(_) => false,
    }
}

/// A cell of a column.
fn is_cell(kinds: &[ColType], column: &ColumnDef, cell: &TypedCell) -> bool
    ensures { result ≡ is_cell kinds.now column.now cell.now }
{
    let names = Names {
        columns: &[],
        kinds,
    };
    match cell {
        TypedCell::Serial => is_serial(&column.fill),
        TypedCell::Now => is_now(&column.fill),
        TypedCell::Given(expr) => stands(&names, Takes::Like(column.kind), expr),
    }
}

/// One cell for each column.
fn are_cells(kinds: &[ColType], columns: &[ColumnDef], cells: &[TypedCell]) -> bool
    ensures { result ≡ are_cells kinds.now columns.now cells.now }
{
    match columns {
        [] => cells.is_empty(),
        [column, others @ ..] => match cells {
            [] => false,
            [cell, more @ ..] => is_cell(kinds, column, cell) && are_cells(kinds, others, more),
        },
    }
}

fn are_rows(kinds: &[ColType], columns: &[ColumnDef], rows: &[List<TypedCell>]) -> bool
    ensures { result ≡ list_all (are_cells kinds.now columns.now) rows.now }
{
    for row in rows {
        if !are_cells(kinds, columns, row.as_slice()) {
            return false;
        }
    }
    true
}

/// Whether an INSERT is of its table.
pub(crate) fn is_insert(kinds: &[ColType], table: &TableDef, insert: &CheckedInsert) -> bool
    ensures { result ≡ is_insert kinds.now table.now insert.now }
{
    let rows = insert.rows.as_slice();
    !rows.is_empty()
        && rows.len() < TOO_MANY_ROWS
        && are_rows(kinds, table.columns.as_slice(), rows)
}

/// A value of a column, if it is there.
fn is_value_of(names: &Names<'_>, column: Option<&ColumnDef>, expr: &TypedExpr) -> bool
    ensures { result
        ≡ is_value_of (names_of names.now) (option_map (λ c. c.now) column.entry) expr.now }
{
    match column {
        Some(column) => stands(names, Takes::Like(column.kind), expr),
        None => false,
    }
}

/// A column that is no key, and a value of its type.
fn is_set(names: &Names<'_>, table: &TableDef, set: &TypedSet) -> bool
    ensures { result ≡ is_set (names_of names.now) table.now set.now }
{
    set.column != table.key && is_value_of(names, table.columns.get(set.column as usize), &set.expr)
}

fn are_set(names: &Names<'_>, table: &TableDef, sets: &[TypedSet]) -> bool
    ensures { result ≡ list_all (is_set (names_of names.now) table.now) sets.now }
{
    for set in sets {
        if !is_set(names, table, set) {
            return false;
        }
    }
    true
}

/// Whether the column is set.
fn is_among(sets: &[TypedSet], column: u8) -> bool
    ensures { result ≡ list_any (λ s. s.column == column) sets.now }
{
    for set in sets {
        if set.column == column {
            return true;
        }
    }
    false
}

/// No column is set twice. Of 257 columns two are one, so it goes no deeper.
fn are_apart(sets: &[TypedSet]) -> bool
    ensures { result ≡ are_apart sets.now }
{
    match sets {
        [] => true,
        [set, others @ ..] => !is_among(others, set.column) && are_apart(others),
    }
}

/// Whether an UPDATE is of its table.
pub(crate) fn is_change(kinds: &[ColType], table: &TableDef, change: &CheckedChange) -> bool
    ensures { result ≡ is_change kinds.now table.now change.now }
{
    let names = Names {
        columns: table.columns.as_slice(),
        kinds,
    };
    let sets = change.sets.as_slice();
    !sets.is_empty()
        && are_apart(sets)
        && are_set(&names, table, sets)
        && is_filter(&names, &change.filter)
}

/// Whether a DELETE is of its table.
pub(crate) fn is_remove(kinds: &[ColType], table: &TableDef, remove: &CheckedRemove) -> bool
    ensures { result ≡ is_remove kinds.now table.now remove.now }
{
    let names = Names {
        columns: table.columns.as_slice(),
        kinds,
    };
    is_filter(&names, &remove.filter)
}
