//! Whether a checked statement may be evaluated: its table is there, and it draws few numbers.
ghost use Rattle.std.specs.Prelude.{◌≡◌, IfSome, true};
ghost use Rattle.sql_eval.specs.Effects.{table_in, HasTable, DrawsFew};
ghost use Rattle.sql_eval.specs.Inserts.{all_draws, draws_in, row_draws};

use catalogue::{Catalogue, CheckedBody, TypedCell};
use pool_base::List;

/// The number of the statement's table, if it has one.
fn table_in(body: &CheckedBody) -> Option<u8>
    ensures { result ≡ table_in body.now }
{
    match body {
        CheckedBody::Read(read) => read.table,
        CheckedBody::Insert(insert) => Some(insert.table),
        CheckedBody::Change(change) => Some(change.table),
        CheckedBody::Remove(remove) => Some(remove.table),
    }
}

/// Whether the statement's table is there.
pub(crate) fn has_table(tables: &Catalogue, body: &CheckedBody) -> bool
    ensures { (result ≡ true) → HasTable tables.now (table_in body.now) }
{
    match table_in(body) {
        Some(number) => (number as usize) < tables.tables().len(),
        None => true,
    }
}

/// How many numbers a cell takes: one or none.
fn draws_in(cell: &TypedCell) -> u64
    ensures { result ≡ draws_in cell.now }
{
    match cell {
        TypedCell::Serial => 1,
        TypedCell::Now | TypedCell::Given(_) => 0,
    }
}

/// How many numbers a row takes.
#[tactic(auto, using(crate::proofs::DrawLemmas::row_draws_first))]
fn row_draws(cells: &[TypedCell]) -> Option<u64>
    ensures { IfSome result (λ draws. draws ≡ row_draws cells.now) }
{
    match cells {
        [] => Some(0),
        [cell, others @ ..] => {
            let more = row_draws(others)?;
            draws_in(cell).checked_add(more)
        }
    }
}

/// How many numbers rows take.
#[tactic(auto, using(crate::proofs::DrawLemmas::all_draws_first))]
fn all_draws(rows: &[List<TypedCell>]) -> Option<u64>
    ensures { IfSome result (λ draws. draws ≡ all_draws rows.now) }
{
    match rows {
        [] => Some(0),
        [row, others @ ..] => {
            let first = row_draws(row.as_slice())?;
            let more = all_draws(others)?;
            first.checked_add(more)
        }
    }
}

/// Whether a statement draws no more numbers than are counted.
pub(crate) fn draws_few(body: &CheckedBody) -> bool
    ensures { (result ≡ true) → DrawsFew body.now }
{
    match body {
        CheckedBody::Insert(insert) => match all_draws(insert.rows.as_slice()) {
            Some(draws) => draws < 4_294_967_296,
            None => false,
        },
        CheckedBody::Read(_) | CheckedBody::Change(_) | CheckedBody::Remove(_) => true,
    }
}
