//! How many serial numbers a statement draws, and the next one behind them.
ghost use Rattle.std.specs.Prelude.{◌≡◌, ◌≤◌, ◌<◌, ◌+◌, ◌↔◌, pos, ◌≤ℤ◌, ◌+ℤ◌, false, IsTrue, IfSome, None, option_map, slice_get};
ghost use Rattle.sql_eval.specs.Effects.{DrawsFew, draws_of as draws_of_body};
ghost use Rattle.sql_eval.specs.Inserts.{row_draws, all_draws, insert_draws, is_spent, last_serial, serial_kind};
ghost use Rattle.backend_trait.specs.Effect.{IsPositive, draws_of};
ghost use Rattle.backend_trait.specs.Store.{numbered};

use catalogue::{Catalogue, Checked, CheckedBody, CheckedInsert, ColumnDef, TableDef, TypedCell};
use pg_values::ColType;
use pool_base::List;

/// The most that are counted.
const MOST: u64 = 4_294_967_295;

/// The numbers that are drawn with those of a row more. None: more than are counted.
fn drawn_with(drawn: u64, row: &[TypedCell]) -> Option<u64>
    requires { drawn ≤ 4294967295 }
    ensures some { IfSome result (λ all. (all ≡ drawn + row_draws row.now) × (all ≤ 4294967295)) }
    ensures none { result ≡ None → 4294967295 < drawn + row_draws row.now }
{
    let mut all = drawn;
    for cell in row {
        if matches!(cell, TypedCell::Serial) {
            if all == MOST {
                return None;
            }
            all += 1;
        }
    }
    Some(all)
}

/// The numbers that the rows of an INSERT draw. None: more than are counted.
fn all_drawn(rows: &[List<TypedCell>]) -> Option<u64>
    ensures some { IfSome result (λ all. (all ≡ all_draws rows.now) × (all ≤ 4294967295)) }
    ensures none { result ≡ None → 4294967295 < all_draws rows.now }
{
    let mut drawn = 0;
    for row in rows {
        match drawn_with(drawn, row.as_slice()) {
            None => return None,
            Some(all) => drawn = all,
        }
    }
    Some(drawn)
}

/// Whether the rows of an INSERT draw no more than are counted.
fn are_few(rows: &[List<TypedCell>]) -> bool
    ensures { IsTrue result ↔ (all_draws rows.now ≤ 4294967295) }
{
    match all_drawn(rows) {
        None => false,
        Some(_) => true,
    }
}

/// Whether a statement draws no more than are counted.
pub fn draws_few(body: &CheckedBody) -> bool
    ensures { IsTrue result ↔ DrawsFew body.now }
{
    match body {
        CheckedBody::Insert(insert) => are_few(insert.rows.as_slice()),
        CheckedBody::Read(_) | CheckedBody::Change(_) | CheckedBody::Remove(_) => true,
    }
}

/// The last number of a serial column of that table.
fn last_of(table: &TableDef) -> i64
    ensures last { result ≡ last_serial (serial_kind (Some table.now)) }
    ensures least { pos 1 ≤ℤ result }
    ensures most { result ≤ℤ pos 9223372036854775806 }
{
    let Some(column) = table.serial else {
        return 9_223_372_036_854_775_806;
    };
    match table.columns.get(column as usize) {
        Some(
            ColumnDef {
                kind: ColType::Int4,
                ..
            },
        ) => 2_147_483_647,
        _ => 9_223_372_036_854_775_806,
    }
}

/// The same, where the table is there.
fn last_serial(table: Option<&TableDef>) -> i64
    ensures last { result ≡ last_serial (serial_kind (option_map (λ t. t.now) table.entry)) }
    ensures least { pos 1 ≤ℤ result }
    ensures most { result ≤ℤ pos 9223372036854775806 }
{
    match table {
        Some(table) => last_of(table),
        None => 9_223_372_036_854_775_806,
    }
}

/// Whether fewer numbers than these are left from the next one on.
fn is_spent(last: i64, next: i64, draws: u64) -> bool
    requires least { pos 1 ≤ℤ last }
    requires most { last ≤ℤ pos 9223372036854775806 }
    requires next { pos 1 ≤ℤ next }
    requires few { draws ≤ 4294967295 }
    ensures spent { result ≡ is_spent last next draws }
    ensures enough { result ≡ false → (next +ℤ pos draws) ≤ℤ pos 9223372036854775807 }
{
    draws > 0 && (draws as i64) - 1 > last - next
}

/// The next number of a table behind those that an INSERT draws from one on.
fn behind(table: Option<&TableDef>, insert: &CheckedInsert, next: i64) -> i64
    requires few { all_draws insert.now.rows ≤ 4294967295 }
    requires next { pos 1 ≤ℤ next }
    ensures behind { result ≡ next +ℤ pos (insert_draws (option_map (λ t. t.now) table.entry) next
        insert.now) }
    ensures positive { pos 1 ≤ℤ result }
{
    let Some(draws) = all_drawn(insert.rows.as_slice()) else {
        unreachable!()
    };
    if is_spent(last_serial(table), next, draws) {
        return next;
    }
    next + draws as i64
}

/// The next number of a statement's table once the statement has drawn its own.
fn behind_body(catalogue: &Catalogue, body: &CheckedBody, next: i64) -> i64
    requires few { DrawsFew body.now }
    requires next { pos 1 ≤ℤ next }
    ensures behind { result ≡ next +ℤ pos (draws_of_body catalogue.now body.now next) }
    ensures positive { pos 1 ≤ℤ result }
{
    match body {
        CheckedBody::Insert(insert) => behind(catalogue.table(insert.table), insert, next),
        CheckedBody::Read(_) | CheckedBody::Change(_) | CheckedBody::Remove(_) => next,
    }
}

/// The next number of a statement's table, where it has one, once the statement has drawn its own.
/// It takes no memory.
pub fn next_behind(catalogue: &Catalogue, checked: &Checked, next: Option<i64>) -> Option<i64>
    requires few { DrawsFew checked.now.body }
    requires positive { IsPositive next }
    ensures behind { result ≡ numbered (draws_of catalogue.now checked.now next) next }
    ensures positive { IsPositive result }
{
    match next {
        Some(next) => Some(behind_body(catalogue, &checked.body, next)),
        None => None,
    }
}
