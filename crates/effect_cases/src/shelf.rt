//! Rows of the first table in the rising order of their keys, which stand in the first column.
ghost use Rattle.std.specs.Prelude.{◌≡◌, ℕ, Option as Maybe, true, slice_get};
ghost use Rattle.std.specs.Option.{option_map};
ghost use Rattle.std.specs.FinMap.{find, get, is_sorted};
ghost use Rattle.std.specs.FinMap.Entries.{below_all};
ghost use Rattle.std.specs.Ordering.{eq_by_cmp};
ghost use Rattle.sql_eval.specs.Views.{cell_at, is_behind, key_column, key_order, place, place_order, rank_of, row_behind};
ghost use Rattle.sql_eval.specs.Effects.{IsKeyedAt};
ghost use Rattle.effect_cases.specs.Shelves.{first_behind, has_key, have_keys, keyed, stood, view_of};

use catalogue::Catalogue;
use pg_values::Value;
use pool_base::List;
use sql_eval::{Row, TableView};
use sql_values::standing;
use std::cmp::Ordering;

/// Rows of the first table.
#[derive(Drop)]
pub(crate) struct Shelf {
    rows: List<Row>,
    ghost rising: { is_sorted place_order (stood rows) ≡ true },
    ghost under_keys: { have_keys rows ≡ true },
}

/// The kinds of values, one after another.
fn rank_of(value: &Value) -> u8
    ensures { result ≡ rank_of value.now }
{
    match value {
        Value::Null => 0,
        Value::Bool(_) => 1,
        Value::Int4(_) => 2,
        Value::Int8(_) => 3,
        Value::Text(_) => 4,
        Value::Moment(_) => 5,
    }
}

/// How two keys stand: by their kinds, and keys of one kind as their values do.
fn key_order(a: &Value, b: &Value) -> Ordering
    ensures { result ≡ key_order a.now b.now }
{
    match rank_of(a).cmp(&rank_of(b)) {
        Ordering::Less => Ordering::Less,
        Ordering::Equal => standing(a, b),
        Ordering::Greater => Ordering::Greater,
    }
}

/// How a key stands to that of a row.
fn order_at(key: &Value, row: &Row) -> Ordering
    ensures { result ≡ key_order key.now (cell_at 0 row.now) }
{
    match row.cells.get(0) {
        Some(own) => key_order(key, own),
        None => key_order(key, &Value::Null),
    }
}

/// Whether a key stands before those of all rows.
fn is_below(key: &Value, rows: &[Row]) -> bool
    ensures { result ≡ below_all place_order (place 0 key.now) (stood rows.now) }
{
    match rows {
        [] => true,
        [row, others @ ..] => order_at(key, row).is_lt() && is_below(key, others),
    }
}

/// Whether the key of a row stands before those of all others.
fn is_first(row: &Row, others: &[Row]) -> bool
    ensures { result ≡ below_all place_order (place 0 (cell_at 0 row.now)) (stood others.now) }
{
    match row.cells.get(0) {
        Some(key) => is_below(key, others),
        None => is_below(&Value::Null, others),
    }
}

fn are_rising(rows: &[Row]) -> bool
    ensures { result ≡ is_sorted place_order (stood rows.now) }
{
    match rows {
        [] => true,
        [row, others @ ..] => is_first(row, others) && are_rising(others),
    }
}

/// Whether a row has a first cell.
fn has_key(row: &Row) -> bool
    ensures { result ≡ has_key row.now }
{
    match row.cells.get(0) {
        Some(_) => true,
        None => false,
    }
}

fn have_keys(rows: &[Row]) -> bool
    ensures { result ≡ have_keys rows.now }
{
    match rows {
        [] => true,
        [row, others @ ..] => has_key(row) && have_keys(others),
    }
}

/// A place in the table of that number, and the place of a row.
fn is_place(table: u8, key: &Value, row: &Row) -> bool
    ensures { result ≡ eq_by_cmp place_order (place table key.now) (place 0 (cell_at 0 row.now)) }
{
    match table.cmp(&0) {
        Ordering::Equal => order_at(key, row).is_eq(),
        Ordering::Less | Ordering::Greater => false,
    }
}

fn found<'a>(rows: &'a [Row], table: u8, key: &Value) -> Option<&'a Row>
    ensures { option_map (λ r. r.now) result
        ≡ find place_order (place table key.now) (stood rows.now) }
{
    match rows {
        [] => None,
        [row, others @ ..] => {
            if is_place(table, key, row) {
                Some(row)
            } else {
                found(others, table, key)
            }
        }
    }
}

/// Whether a row stands behind a key, or is any row.
fn is_behind(key: Option<&Value>, row: &Row) -> bool
    ensures { result
        ≡ is_behind (option_map (λ k. k.now) key.entry) (keyed row.now) }
{
    match key {
        None => true,
        Some(key) => match row.cells.get(0) {
            Some(own) => key_order(own, key).is_gt(),
            None => key_order(&Value::Null, key).is_gt(),
        },
    }
}

fn behind<'a>(rows: &'a [Row], key: Option<&Value>) -> Option<&'a Row>
    ensures { option_map (λ r. r.now) result
        ≡ first_behind (option_map (λ k. k.now) key.entry) rows.now }
{
    match rows {
        [] => None,
        [row, others @ ..] => {
            if is_behind(key, row) {
                Some(row)
            } else {
                behind(others, key)
            }
        }
    }
}

/// The row at a place.
#[tactic(auto, using(crate::proofs::ShelfLemmas::shelf_at))]
fn row_at<'a>(shelf: &'a Shelf, table: u8, key: &Value) -> Option<&'a Row>
    ensures { option_map (λ r. r.now) result
        ≡ get (view_of shelf.now.rows) (place table key.now) }
{
    found(shelf.rows.as_slice(), table, key)
}

/// The first row of a table behind a key, or of all.
#[tactic(auto, using(crate::proofs::ShelfLemmas::shelf_behind, crate::proofs::ShelfLemmas::shelf_elsewhere))]
fn row_after<'a>(shelf: &'a Shelf, table: u8, key: Option<&Value>) -> Option<&'a Row>
    ensures { option_map (λ r. r.now) result
        ≡ row_behind (view_of shelf.now.rows) table (option_map (λ k. k.now) key.entry) }
{
    if table != 0 {
        return None;
    }
    behind(shelf.rows.as_slice(), key)
}

impl TableView for Shelf {
    ghost rows = { λ shelf. view_of shelf.rows };

    fn row(&self, table: u8, key: &Value) -> Option<&Row> {
        row_at(self, table, key)
    }

    fn after(&self, table: u8, key: Option<&Value>) -> Option<&Row> {
        row_after(self, table, key)
    }
}

/// The rows as a view, where each has a key and the keys rise.
pub(crate) fn shelf_of(rows: List<Row>) -> Option<Shelf> {
    if !are_rising(rows.as_slice()) || !have_keys(rows.as_slice()) {
        return None;
    }
    Some(Shelf { rows })
}

/// The number of the key column of the first table; 0 where there is no table.
fn first_key(tables: &Catalogue) -> u8
    ensures { result ≡ key_column (slice_get tables.now 0) }
{
    match tables.table(0) {
        Some(table) => table.key,
        None => 0,
    }
}

/// Whether the key of the first table stands in its first column, as it does on a shelf.
#[tactic(auto, using(crate::proofs::ShelfLemmas::shelf_keyed))]
pub(crate) fn is_of(shelf: &Shelf, tables: &Catalogue) -> bool
    ensures { (result ≡ true) → (table : Maybe ℕ)
        → IsKeyedAt tables.now (view_of shelf.now.rows) table }
{
    if first_key(tables) != 0 {
        return false;
    }
    true
}
