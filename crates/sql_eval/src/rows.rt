//! The rows of a table, and those that a filter keeps.
ghost use Rattle.std.specs.Prelude.{◌≡◌, ◌++◌, [], ℕ, IfOk, OnOk, map, Ok};
ghost use Rattle.std.specs.Option.{option_map};
ghost use Rattle.sql_values.specs.Meaning.{around_of, value_in};
ghost use Rattle.sql_values.specs.Outcome.{Gives};
ghost use Rattle.sql_eval.specs.Views.{IsKeyedBy, cell_at, entries_in, entry_of};
ghost use Rattle.sql_eval.specs.Walks.{GivesAs, walked, with_some};
ghost use Rattle.sql_eval.specs.Reads.{alone, at_row, is_kept, kept, no_row, where_kept};

use crate::row::Row;
use crate::view::TableView;
use pg_values::Value;
use pool_base::NoMemory;
use sql_values::{Around, ExprFault, is_true, value_of};
use std::alloc::Global;
use typed_sql::TypedExpr;

/// What stands round an expression of a statement without parameters and time functions.
fn at(row: &Row) -> Around<'_>
    ensures { around_of result ≡ at_row alone row.now }
{
    Around {
        row: row.cells.as_slice(),
        parameters: &[],
        moment: 0,
    }
}

/// What an expression comes to on a row.
pub(crate) fn value_at(row: &Row, expr: &TypedExpr) -> Result<Value, ExprFault>
    ensures { Gives result (value_in (at_row alone row.now) expr.now) }
{
    value_of(&at(row), expr)
}

/// What an expression comes to that has no columns.
pub(crate) fn value_alone(expr: &TypedExpr) -> Result<Value, ExprFault>
    ensures { Gives result (value_in (at_row alone no_row) expr.now) }
{
    let around = Around {
        row: &[],
        parameters: &[],
        moment: 0,
    };
    value_of(&around, expr)
}

/// The rows of a table in the rising order of their keys, which stand in the column `key`.
pub(crate) fn rows_of<'a, V: TableView>(
    alloc: Global,
    view: &'a V,
    table: u8,
    key: u8,
) -> Result<Vec<&'a Row>, NoMemory>
    requires { IsKeyedBy (V.rows view.now) table key }
    ensures { IfOk result (λ rows. map (λ r. r.now) rows.items
        ≡ map (λ e. e.row) (entries_in (V.rows view.now) table)) }
{
    let mut rows = Vec::new(alloc);
    let mut next = view.after(table, None);
    while let Some(row) = next {
        rows.push(row)?;
        next = match row.cells.get(key as usize) {
            Some(own) => view.after(table, Some(own)),
            None => None,
        };
    }
    Ok(rows)
}

/// The key of a row; Null where it is not there.
pub(crate) fn key_of(key: u8, row: &Row) -> Result<Value, ExprFault>
    ensures { Gives result (Ok (cell_at key row.now)) }
{
    match row.cells.get(key as usize) {
        Some(own) => Ok(own.clone()?),
        None => Ok(Value::Null),
    }
}

/// Whether a filter keeps a row.
pub(crate) fn is_kept(filter: &Option<TypedExpr>, row: &Row) -> Result<bool, ExprFault>
    ensures { GivesAs (λ kept. kept) result (is_kept alone filter.now row.now) }
{
    match filter {
        None => Ok(true),
        Some(filter) => Ok(is_true(&value_at(row, filter)?)),
    }
}

/// Puts a row behind others, if it stays.
fn keep_row<'a>(rows: &mut Vec<&'a Row>, row: &'a Row, stays: bool) -> Result<(), NoMemory>
    ensures { OnOk result ((key : ℕ) → map (λ r. entry_of key r.now) rows.new.items
        ≡ map (λ r. entry_of key r.now) rows.old.items
        ++ with_some (where_kept (entry_of key row.now) stays) []) }
{
    if stays {
        rows.push(row)?;
    }
    Ok(())
}

/// The rows that a filter keeps, in their order.
pub(crate) fn kept_rows<'a>(
    alloc: Global,
    filter: &Option<TypedExpr>,
    rows: &[&'a Row],
) -> Result<Vec<&'a Row>, ExprFault>
    ensures { (key : ℕ) → GivesAs (λ made. map (λ r. entry_of key r.now) made.items) result
        (walked (λ r. kept alone filter.now (entry_of key r.now)) rows.now) }
{
    let mut kept = Vec::new(alloc);
    for row in rows {
        let stays = is_kept(filter, row)?;
        keep_row(&mut kept, row, stays)?;
    }
    Ok(kept)
}
