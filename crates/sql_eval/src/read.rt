//! SELECT.
ghost use Rattle.std.specs.Prelude.{◌≡◌, ◌<◌, ◌∷◌, [], ℕ, IfOk, pos, map, slice_get, Ok, Some, None};
ghost use Rattle.sql_eval.specs.Views.{IsKeyed, View, cell_at, entry_of, key_column};
ghost use Rattle.sql_eval.specs.Walks.{Coded, GivesAs, all_of, behind, made, walked};
ghost use Rattle.sql_eval.specs.Reads.{alone, counted, cut, kept, keys_wanted, listed, read_in, result_row, shown};
ghost use Rattle.sql_eval.specs.Effects.{Reads, effect_of, IsRead, IsReadBody, IsKeyedAt, table_in};

use crate::candidates::candidates;
use crate::effect::{EvalFault, ReadEffect, with_draws};
use crate::order::{limit_in, put_in_order};
use crate::row::Row;
use crate::rows::{kept_rows, key_of, value_at};
use crate::size::fitting;
use crate::view::TableView;
use catalogue::{Catalogue, Checked, CheckedBody, CheckedRead};
use pg_values::Value;
use pool_base::{List, NoMemory};
use sql_values::ExprFault;
use std::alloc::Global;
use typed_sql::TypedExpr;

/// The items of a list at a row.
fn result_row(alloc: Global, list: &[TypedExpr], row: &Row) -> Result<Row, ExprFault>
    ensures { GivesAs (λ r. r) result (result_row alone list.now row.now) }
{
    let mut cells = List::new(alloc);
    for item in list {
        let value = value_at(row, item)?;
        cells.push(value)?;
    }
    fitting(Row { cells })
}

/// The list at each row.
fn result_rows(alloc: Global, list: &[TypedExpr], rows: &[&Row]) -> Result<List<Row>, ExprFault>
    ensures { GivesAs (λ made. made) result
        (all_of (map (λ r. result_row alone list.now r.now) rows.now)) }
{
    let mut made = List::new(alloc);
    for row in rows {
        let given = result_row(alloc, list, row)?;
        made.push(given)?;
    }
    Ok(made)
}

/// The keys of rows, which stand in the column `key`; Null where it is not there.
fn keys_of(alloc: Global, key: u8, rows: &[&Row]) -> Result<List<Value>, ExprFault>
    ensures { GivesAs (λ keys. keys) result (Ok (map (λ r. cell_at key r.now) rows.now)) }
{
    let mut keys = List::new(alloc);
    for row in rows {
        let own = key_of(key, row)?;
        keys.push(own)?;
    }
    Ok(keys)
}

/// The count of rows, as a read gives it.
fn counted(alloc: Global, count: usize) -> Result<ReadEffect, ExprFault>
    requires { count < 9223372036854775808 }
    ensures { GivesAs (λ effect. effect) result (Ok (counted count)) }
{
    let mut cells = List::new(alloc);
    cells.push(Value::Int8(count as i64))?;
    let mut rows = List::new(alloc);
    rows.push(Row { cells })?;
    Ok(ReadEffect {
        rows,
        keys: List::new(alloc),
    })
}

/// The keys that a read wants.
fn keys_wanted(
    alloc: Global,
    for_update: bool,
    key: u8,
    rows: &[&Row],
) -> Result<List<Value>, ExprFault>
    ensures { GivesAs (λ keys. keys) result
        (Ok (keys_wanted for_update (map (λ r. entry_of key r.now) rows.now))) }
{
    if !for_update {
        return Ok(List::new(alloc));
    }
    keys_of(alloc, key, rows)
}

/// Cuts rows behind a limit.
fn cut(limit: Option<u64>, rows: &mut Vec<&Row>)
    ensures { rows.new.items ≡ cut limit rows.old.items }
{
    match limit {
        None => {}
        Some(most) => rows.truncate(most as usize),
    }
}

/// The list at rows, and their keys where FOR UPDATE wants them.
fn listed(
    alloc: Global,
    read: &CheckedRead,
    key: u8,
    rows: &[&Row],
) -> Result<ReadEffect, ExprFault>
    ensures { GivesAs (λ effect. effect) result
        (listed alone read.now (map (λ r. entry_of key r.now) rows.now)) }
{
    let given = result_rows(alloc, read.list.as_slice(), rows)?;
    let keys = keys_wanted(alloc, read.for_update, key, rows)?;
    Ok(ReadEffect { rows: given, keys })
}

/// What a read gives of the rows that its filter keeps: they are put in order and cut, and then the
/// list is evaluated.
pub(crate) fn shown(
    alloc: Global,
    read: &CheckedRead,
    key: u8,
    kept: Vec<&Row>,
) -> Result<ReadEffect, ExprFault>
    ensures { GivesAs (λ effect. effect) result
        (shown alone read.now (map (λ r. entry_of key r.now) kept.entry.items)) }
{
    if read.count {
        return counted(alloc, kept.len());
    }
    let limit = limit_in(&read.limit)?;
    let mut kept = kept;
    put_in_order(read.order.as_slice(), &mut kept)?;
    cut(limit, &mut kept);
    listed(alloc, read, key, kept.as_slice())
}

/// The number of a table's key column.
pub(crate) fn key_column(catalogue: &Catalogue, table: u8) -> u8
    ensures { result ≡ key_column (slice_get catalogue.now table) }
{
    match catalogue.table(table) {
        Some(table) => table.key,
        None => 0,
    }
}

fn one_row<'a>(alloc: Global, row: &'a Row) -> Result<Vec<&'a Row>, NoMemory>
    ensures { IfOk result (λ rows. map (λ r. r.now) rows.items ≡ row.now ∷ []) }
{
    let mut rows = Vec::new(alloc);
    rows.push(row)?;
    Ok(rows)
}

/// What a read gives of the rows that it sees.
fn read_rows(
    alloc: Global,
    read: &CheckedRead,
    key: u8,
    rows: &[&Row],
) -> Result<ReadEffect, ExprFault>
    ensures { GivesAs (λ effect. effect) result
        (behind (walked (kept alone read.now.filter) (map (λ r. entry_of key r.now) rows.now))
        (shown alone read.now)) }
{
    let kept = kept_rows(alloc, &read.filter, rows)?;
    shown(alloc, read, key, kept)
}

/// What a read without a table gives.
fn read_alone(alloc: Global, read: &CheckedRead) -> Result<ReadEffect, ExprFault>
    requires { read.now.table ≡ None }
    ensures { (view : View) → GivesAs (λ effect. effect) result (read_in alone view read.now) }
{
    let none = Row {
        cells: List::new(alloc),
    };
    let rows = one_row(alloc, &none)?;
    read_rows(alloc, read, 0, rows.as_slice())
}

/// What a read of a table gives.
fn read_table<V: TableView>(
    alloc: Global,
    catalogue: &Catalogue,
    read: &CheckedRead,
    table: u8,
    view: &V,
) -> Result<ReadEffect, ExprFault>
    requires named { read.now.table ≡ Some table }
    requires keyed { IsKeyed (V.rows view.now) table (slice_get catalogue.now table) }
    ensures { GivesAs (λ effect. effect) result (read_in alone (V.rows view.now) read.now) }
{
    let key = key_column(catalogue, table);
    let rows = candidates(alloc, view, table, key, &read.filter)?;
    read_rows(alloc, read, key, rows.as_slice())
}

/// What a read gives.
fn read_in<V: TableView>(
    alloc: Global,
    catalogue: &Catalogue,
    read: &CheckedRead,
    view: &V,
) -> Result<ReadEffect, ExprFault>
    requires { IsKeyedAt catalogue.now (V.rows view.now) read.now.table }
    ensures { GivesAs (λ effect. effect) result (read_in alone (V.rows view.now) read.now) }
{
    match read.table {
        None => read_alone(alloc, read),
        Some(table) => read_table(alloc, catalogue, read, table, view),
    }
}

/// What is read, or the code; a read draws nothing.
fn answered(given: Result<ReadEffect, ExprFault>) -> Result<ReadEffect, EvalFault>
    ensures { (told : Coded ReadEffect) → GivesAs (λ effect. effect) given told
        → IsRead result (record { draws = 0; given = made Reads told }) }
{
    match given {
        Ok(effect) => Ok(effect),
        Err(fault) => Err(with_draws(0, fault)),
    }
}

/// The effect of a read on a view.
///
/// Errors: `22003`, `22012`, `54000` of its expressions and rows, `2201W` a negative LIMIT.
/// Source: PostgreSQL 15, "SELECT". House rules: rows are walked in the rising order of their keys,
/// first the filter at each, then LIMIT, then the list at each that is left; the first code
/// decides.
pub fn eval_read<V: TableView>(
    alloc: Global,
    catalogue: &Catalogue,
    checked: &Checked,
    view: &V,
) -> Result<ReadEffect, EvalFault>
    requires read { IsReadBody checked.now.body }
    requires keyed { IsKeyedAt catalogue.now (V.rows view.now) (table_in checked.now.body) }
    ensures { IsRead result (effect_of alone catalogue.now checked.now.body (V.rows view.now)
        (pos 1)) }
{
    let CheckedBody::Read(read) = &checked.body else {
        unreachable!();
    };
    answered(read_in(alloc, catalogue, read, view))
}
