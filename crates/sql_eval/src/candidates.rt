//! The rows of a table that a filter is asked at: one where it asks for a key, and else all.
ghost use Rattle.std.specs.Prelude.{◌≡◌, ◌≢◌, [], IfOk, IfSome, false, map, true};
ghost use Rattle.std.specs.FinMap.{get};
ghost use Rattle.std.specs.Option.{option_to_list};
ghost use Rattle.pg_values.specs.declared.value.Value.TheVariants.{Int4};
ghost use Rattle.sql_values.specs.Order.{is_null, text_in};
ghost use Rattle.sql_eval.specs.Views.{IsKeyedBy, place, rank_of};
ghost use Rattle.sql_eval.specs.Seeking.{AreRowsBut, HasNoLater, IsFirstKey, IsInKind, IsKeptOut, IsMissed, IsSole};

use crate::row::Row;
use crate::rows::rows_of;
use crate::sought::sought;
use crate::view::TableView;
use pg_values::Value;
use pool_base::NoMemory;
use sql_values::is_null;
use std::alloc::Global;
use typed_sql::TypedExpr;

/// The first key of a table.
fn first_key<'a, V: TableView>(view: &'a V, table: u8, key: u8) -> Option<&'a Value>
    requires { IsKeyedBy (V.rows view.now) table key }
    ensures { IfSome result (λ k. IsFirstKey (V.rows view.now) table k.now) }
{
    match view.after(table, None) {
        Some(row) => row.cells.get(key as usize),
        None => None,
    }
}

/// The last number of a key's kind, if it is one of numbers.
fn last_of_kind(own: &Value) -> Option<Value>
    ensures { IfSome result (λ last. rank_of last ≡ rank_of own.now) }
{
    match own {
        Value::Int4(_) => Some(Value::Int4(i32::MAX)),
        Value::Int8(_) => Some(Value::Int8(i64::MAX)),
        Value::Null | Value::Bool(_) | Value::Text(_) | Value::Moment(_) => None,
    }
}

/// Whether no key of a later kind than that of `own` stands in a table.
fn is_last_kind<V: TableView>(view: &V, table: u8, own: &Value) -> bool
    ensures { result ≡ true → HasNoLater (V.rows view.now) table own.now }
{
    match last_of_kind(own) {
        Some(last) => view.after(table, Some(&last)).is_none(),
        None => false,
    }
}

/// A number as an int4, if it is in its range.
fn as_int4(number: i64) -> Option<Value>
    ensures { IfSome result (λ v. v ≡ Int4 number) }
{
    if number < -2_147_483_648 || number > 2_147_483_647 {
        return None;
    }
    Some(Value::Int4(number as i32))
}

/// A number in the kind of a key, where it has one: int4 and int8 stand by their numbers.
fn in_kind(own: &Value, constant: &Value) -> Option<Value>
    ensures { IfSome result (λ v. IsInKind v own.now constant.now) }
{
    match (own, constant) {
        (Value::Int4(_), Value::Int4(number)) => Some(Value::Int4(*number)),
        (Value::Int4(_), Value::Int8(number)) => as_int4(*number),
        (Value::Int8(_), Value::Int4(number)) => Some(Value::Int8(*number as i64)),
        (Value::Int8(_), Value::Int8(number)) => Some(Value::Int8(*number)),
        _ => None,
    }
}

/// The key at which alone a row of a table may stand as a number does, if the keys are of one kind.
fn number_key<V: TableView>(view: &V, table: u8, key: u8, constant: &Value) -> Option<Value>
    requires { IsKeyedBy (V.rows view.now) table key }
    ensures { IfSome result (λ k. IsSole (V.rows view.now) table k constant.now) }
{
    let Some(own) = first_key(view, table, key) else {
        return None;
    };
    if !is_last_kind(view, table, own) {
        return None;
    }
    in_kind(own, constant)
}

/// Whether a constant is a text that is not empty.
fn is_some_text(constant: &Value) -> bool
    ensures { result ≡ true → text_in constant.now ≢ [] }
{
    match constant {
        Value::Text(text) => text.len() > 0,
        _ => false,
    }
}

/// Whether a row of a table may stand as a constant does at that key alone, since it is a text.
fn is_text_key<V: TableView>(view: &V, table: u8, key: u8, constant: &Value) -> bool
    requires { IsKeyedBy (V.rows view.now) table key }
    ensures { result ≡ true → IsSole (V.rows view.now) table constant.now constant.now }
{
    if !is_some_text(constant) {
        return false;
    }
    match first_key(view, table, key) {
        Some(own) => !is_null(own),
        None => false,
    }
}

/// The row at a key, if there is one.
fn row_at<'a, V: TableView>(
    alloc: Global,
    view: &'a V,
    table: u8,
    key: &Value,
) -> Result<Vec<&'a Row>, NoMemory>
    ensures { IfOk result (λ rows. map (λ r. r.now) rows.items
        ≡ option_to_list (get (V.rows view.now) (place table key.now))) }
{
    let mut rows = Vec::new(alloc);
    if let Some(row) = view.row(table, key) {
        rows.push(row)?;
    }
    Ok(rows)
}

/// The rows of a table without some whose keys miss a constant: a key is looked for where that is
/// known to be the only one.
fn rows_at<'a, V: TableView>(
    alloc: Global,
    view: &'a V,
    table: u8,
    key: u8,
    constant: &Value,
) -> Result<Vec<&'a Row>, NoMemory>
    requires { IsKeyedBy (V.rows view.now) table key }
    ensures { IfOk result (λ rows. AreRowsBut (IsMissed constant.now) (V.rows view.now) table key
        (map (λ r. r.now) rows.items)) }
{
    if is_null(constant) {
        return Ok(Vec::new(alloc));
    }
    if is_text_key(view, table, key, constant) {
        return row_at(alloc, view, table, constant);
    }
    match number_key(view, table, key, constant) {
        Some(own) => row_at(alloc, view, table, &own),
        None => rows_of(alloc, view, table, key),
    }
}

/// The rows of a table that a filter is asked at, in the rising order of their keys. It keeps out
/// each of the others, without a code.
pub(crate) fn candidates<'a, V: TableView>(
    alloc: Global,
    view: &'a V,
    table: u8,
    key: u8,
    filter: &Option<TypedExpr>,
) -> Result<Vec<&'a Row>, NoMemory>
    requires { IsKeyedBy (V.rows view.now) table key }
    ensures { IfOk result (λ rows. AreRowsBut (IsKeptOut filter.now) (V.rows view.now) table key
        (map (λ r. r.now) rows.items)) }
{
    match sought(filter, key) {
        Some(constant) => rows_at(alloc, view, table, key, constant),
        None => rows_of(alloc, view, table, key),
    }
}
