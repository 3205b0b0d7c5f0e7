//! INSERT.
ghost use Rattle.std.specs.Prelude.{◌≡◌, ◌<◌, [], map, pos, ◌≤ℤ◌, ◌+ℤ◌, Some, false, option_map, slice_get};
ghost use Rattle.std.specs.List.{list_any};
ghost use Rattle.std.specs.Ordering.{is_eq};
ghost use Rattle.sql_values.specs.Order.{standing};
ghost use Rattle.sql_values.specs.Outcome.{Gives};
ghost use Rattle.sql_eval.specs.Walks.{GivesAs, all_of};
ghost use Rattle.sql_eval.specs.Reads.{alone};
ghost use Rattle.sql_eval.specs.Inserts.{all_draws, row_draws, draws_in, cell_value, cell_values, cells_given, row_put_in, rows_given, is_spent, is_taken, unless_taken, insert_in, insert_draws, last_serial, serial_kind};

use crate::codes::{KEY_REFUSED, SPENT};
use crate::effect::Change;
use crate::row::Row;
use crate::rows::{key_of, value_alone};
use crate::size::fitting;
use crate::stored::{as_kind, not_lacking};
use crate::view::TableView;
use catalogue::{CheckedInsert, TypedCell};
use pg_values::{ColType, Value};
use pool_base::List;
use schema::{ColumnDef, TableDef};
use sql_values::{ExprFault, standing};
use std::alloc::Global;

/// How many numbers a cell takes: one or none.
fn draws_in(cell: &TypedCell) -> u64
    ensures { result ≡ draws_in cell.now }
{
    match cell {
        TypedCell::Serial => 1,
        TypedCell::Now | TypedCell::Given(_) => 0,
    }
}

/// How many numbers a row takes.
fn row_draws(cells: &[TypedCell]) -> u64
    requires { row_draws cells.now < 4294967296 }
    ensures { result ≡ row_draws cells.now }
{
    let mut count: u64 = 0;
    for cell in cells {
        count += draws_in(cell);
    }
    count
}

/// How many numbers rows take.
fn all_draws(rows: &[List<TypedCell>]) -> u64
    requires { all_draws rows.now < 4294967296 }
    ensures { result ≡ all_draws rows.now }
{
    let mut count: u64 = 0;
    for row in rows {
        count += row_draws(row.as_slice());
    }
    count
}

/// The last number of a table's serial column.
fn last_serial(table: &TableDef) -> i64
    ensures last { result ≡ last_serial (serial_kind (Some table.now)) }
    ensures most { result ≤ℤ pos 9223372036854775806 }
{
    let Some(column) = table.serial else {
        return 9_223_372_036_854_775_806;
    };
    match table.columns.get(column as usize) {
        Some(
            ColumnDef {
                kind: ColType::Int4,
                ..
            },
        ) => 2_147_483_647,
        _ => 9_223_372_036_854_775_806,
    }
}

/// Whether fewer numbers than these are left from the next one on.
fn is_spent(table: &TableDef, next: i64, draws: u64) -> bool
    requires next { pos 1 ≤ℤ next }
    requires few { draws < 4294967296 }
    ensures spent { result ≡ is_spent (last_serial (serial_kind (Some table.now))) next draws }
    ensures enough { result ≡ false → (next +ℤ pos draws) ≤ℤ pos 9223372036854775807 }
{
    draws > 0 && (draws as i64) - 1 > last_serial(table) - next
}

/// A cell in the type of its column; `next` is the number that it takes where it takes one.
fn cell_value(kind: ColType, next: i64, cell: &TypedCell) -> Result<Value, ExprFault>
    ensures { Gives result (cell_value alone kind next cell.now) }
{
    match cell {
        TypedCell::Serial => as_kind(kind, Value::Int8(next)),
        TypedCell::Now => Ok(Value::Moment(0)),
        TypedCell::Given(expr) => {
            let given = value_alone(expr)?;
            as_kind(kind, given)
        }
    }
}

/// The next number behind a cell.
fn next_behind(next: i64, cell: &TypedCell) -> i64
    requires { (next +ℤ pos (draws_in cell.now)) ≤ℤ pos 9223372036854775807 }
    ensures { result ≡ next +ℤ pos (draws_in cell.now) }
{
    next + draws_in(cell) as i64
}

fn cell_at(cells: &[TypedCell], at: usize) -> Option<&TypedCell>
    ensures { option_map (λ c. c.now) result ≡ slice_get cells.now at }
{
    cells.get(at)
}

/// The values of cells, of which the first that takes a number takes the next one.
fn values_given(
    alloc: Global,
    columns: &[ColumnDef],
    next: i64,
    cells: &[TypedCell],
) -> Result<List<Value>, ExprFault>
    requires { (next +ℤ pos (row_draws cells.now)) ≤ℤ pos 9223372036854775807 }
    ensures { GivesAs (λ values. values) result
        (all_of (cell_values alone columns.now next cells.now)) }
{
    let mut next = next;
    let mut values = List::new(alloc);
    let mut at: usize = 0;
    for column in columns {
        let Some(cell) = cell_at(cells, at) else {
            return Ok(values);
        };
        let value = cell_value(column.kind, next, cell)?;
        values.push(value)?;
        next = next_behind(next, cell);
        at += 1;
    }
    Ok(values)
}

/// The row of some cells.
fn row_given(
    alloc: Global,
    columns: &[ColumnDef],
    next: i64,
    cells: &[TypedCell],
) -> Result<Row, ExprFault>
    requires { (next +ℤ pos (row_draws cells.now)) ≤ℤ pos 9223372036854775807 }
    ensures { GivesAs (λ row. row.cells) result (cells_given alone columns.now next cells.now) }
{
    let cells = values_given(alloc, columns, next, cells)?;
    not_lacking(columns, Row { cells })
}

/// Whether an earlier row has the key.
fn is_earlier(changes: &[Change], key: &Value) -> bool
    ensures { result ≡ list_any (λ k. is_eq (standing k key.now)) (map (λ c. c.key) changes.now) }
{
    for change in changes {
        if standing(&change.key, key).is_eq() {
            return true;
        }
    }
    false
}

/// Whether a row of the view or an earlier row has the key.
fn is_taken<V: TableView>(view: &V, table: u8, earlier: &[Change], key: &Value) -> bool
    ensures { result ≡ is_taken (V.rows view.now) table (map (λ c. c.key) earlier.now) key.now }
{
    if view.row(table, key).is_some() {
        return true;
    }
    is_earlier(earlier, key)
}

/// A row that is as large as a row may be at most, unless its key is taken.
///
/// Source: PostgreSQL 15, "Unique Constraints".
fn unless_taken(taken: bool, row: Row) -> Result<Row, ExprFault>
    ensures { GivesAs (λ r. r) result (unless_taken taken row) }
{
    if taken {
        return Err(ExprFault::Refused(KEY_REFUSED));
    }
    fitting(row)
}

/// What a row of an INSERT puts in, behind some changes.
fn row_put_in<V: TableView>(
    alloc: Global,
    table: &TableDef,
    view: &V,
    number: u8,
    earlier: &[Change],
    next: i64,
    cells: &[TypedCell],
) -> Result<Change, ExprFault>
    requires { (next +ℤ pos (row_draws cells.now)) ≤ℤ pos 9223372036854775807 }
    ensures { GivesAs (λ made. made) result (row_put_in alone (V.rows view.now) number
        table.now.columns table.now.key (map (λ c. c.key) earlier.now) next cells.now) }
{
    let given = row_given(alloc, table.columns.as_slice(), next, cells)?;
    let key = key_of(table.key, &given)?;
    let taken = is_taken(view, number, earlier, &key);
    let row = unless_taken(taken, given)?;
    Ok(Change {
        table: number,
        key,
        row: Some(row),
    })
}

/// The next number behind the cells of a row.
fn next_row(next: i64, cells: &[TypedCell]) -> i64
    requires few { row_draws cells.now < 4294967296 }
    requires fits { (next +ℤ pos (row_draws cells.now)) ≤ℤ pos 9223372036854775807 }
    ensures { result ≡ next +ℤ pos (row_draws cells.now) }
{
    let draws = row_draws(cells);
    next + draws as i64
}

/// What the rows of an INSERT put in, in their order.
fn insertions<V: TableView>(
    alloc: Global,
    table: &TableDef,
    view: &V,
    number: u8,
    next: i64,
    rows: &[List<TypedCell>],
) -> Result<List<Change>, ExprFault>
    requires few { all_draws rows.now < 4294967296 }
    requires fits { (next +ℤ pos (all_draws rows.now)) ≤ℤ pos 9223372036854775807 }
    ensures { GivesAs (λ made. made) result (rows_given alone (V.rows view.now) number
        table.now.columns table.now.key [] next rows.now) }
{
    let mut next = next;
    let mut made = List::new(alloc);
    for row in rows {
        let cells = row.as_slice();
        let change = row_put_in(alloc, table, view, number, made.as_slice(), next, cells)?;
        next = next_row(next, cells);
        made.push(change)?;
    }
    Ok(made)
}

/// An INSERT, where there are numbers enough.
pub(crate) fn inserted<V: TableView>(
    alloc: Global,
    table: &TableDef,
    view: &V,
    next: i64,
    insert: &CheckedInsert,
) -> (u32, Result<List<Change>, ExprFault>)
    requires next { pos 1 ≤ℤ next }
    requires few { all_draws insert.now.rows < 4294967296 }
    ensures draws { result.0 ≡ insert_draws (Some table.now) next insert.now }
    ensures given { GivesAs (λ made. made) result.1
        (insert_in alone (V.rows view.now) (Some table.now) next insert.now) }
{
    let rows = insert.rows.as_slice();
    let draws = all_draws(rows);
    if is_spent(table, next, draws) {
        return (0, Err(ExprFault::Refused(SPENT)));
    }
    (
        draws as u32,
        insertions(alloc, table, view, insert.table, next, rows),
    )
}
