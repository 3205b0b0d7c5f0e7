//! INSERT, UPDATE and DELETE on a view.
ghost use Rattle.std.specs.Prelude.{◌≡◌, ◌<◌, pos, ◌≤ℤ◌, Some, length, slice_get};
ghost use Rattle.sql_eval.specs.Reads.{alone};
ghost use Rattle.std.specs.Prelude.{List as Sequence};
ghost use Rattle.sql_eval.specs.declared.effect.Change.{Change as Written};
ghost use Rattle.sql_eval.specs.Views.{IsKeyed, columns_of};
ghost use Rattle.sql_eval.specs.Walks.{Coded, GivesAs, made};
ghost use Rattle.sql_eval.specs.Stored.{change_in, remove_in};
ghost use Rattle.sql_eval.specs.Inserts.{all_draws, insert_draws, insert_in};
ghost use Rattle.sql_eval.specs.Effects.{Effect, Writes, effect_of, IsWrite, IsWriteBody, IsKeyedAt, DrawsFew, HasTable, table_in};

use crate::candidates::candidates;
use crate::change::{changes, removals};
use crate::effect::{Change, EvalFault, WriteEffect, with_draws};
use crate::insert::inserted;
use crate::view::TableView;
use catalogue::{Catalogue, Checked, CheckedBody, CheckedChange, CheckedInsert, CheckedRemove};
use pool_base::List;
use schema::TableDef;
use sql_values::ExprFault;
use std::alloc::Global;

/// What is written, or the code, beside what is drawn.
fn written(draws: u32, changes: Result<List<Change>, ExprFault>) -> Result<WriteEffect, EvalFault>
    ensures { (told : Coded (Sequence Written)) → GivesAs (λ made. made) changes told
        → IsWrite result (record { draws = draws; given = made Writes told }) }
{
    match changes {
        Ok(changes) => {
            let count = changes.len() as u64;
            Ok(WriteEffect {
                changes,
                count,
                draws,
            })
        }
        Err(fault) => Err(with_draws(draws, fault)),
    }
}

/// The table of that number, which is there.
fn table_of(catalogue: &Catalogue, number: u8) -> &TableDef
    requires { number < length catalogue.now }
    ensures { Some result.now ≡ slice_get catalogue.now number }
{
    match catalogue.table(number) {
        Some(table) => table,
        None => unreachable!(),
    }
}

fn insert<V: TableView>(
    alloc: Global,
    catalogue: &Catalogue,
    insert: &CheckedInsert,
    view: &V,
    next: i64,
) -> Result<WriteEffect, EvalFault>
    requires there { insert.now.table < length catalogue.now }
    requires next { pos 1 ≤ℤ next }
    requires few { all_draws insert.now.rows < 4294967296 }
    ensures { IsWrite result (record {
      draws = insert_draws (slice_get catalogue.now insert.now.table) next insert.now;
      given = made Writes (insert_in alone (V.rows view.now)
          (slice_get catalogue.now insert.now.table) next insert.now);
    }) }
{
    let table = table_of(catalogue, insert.table);
    let (draws, changes) = inserted(alloc, table, view, next, insert);
    written(draws, changes)
}

fn change<V: TableView>(
    alloc: Global,
    catalogue: &Catalogue,
    change: &CheckedChange,
    view: &V,
) -> Result<WriteEffect, EvalFault>
    requires there { change.now.table < length catalogue.now }
    requires keyed { IsKeyed (V.rows view.now) change.now.table
        (slice_get catalogue.now change.now.table) }
    ensures { IsWrite result (record {
      draws = 0;
      given = made Writes (change_in alone (V.rows view.now)
          (columns_of (slice_get catalogue.now change.now.table)) change.now);
    }) }
{
    let table = table_of(catalogue, change.table);
    let rows = candidates(alloc, view, change.table, table.key, &change.filter)?;
    let columns = table.columns.as_slice();
    written(
        0,
        changes(alloc, columns, table.key, change, rows.as_slice()),
    )
}

fn remove<V: TableView>(
    alloc: Global,
    catalogue: &Catalogue,
    remove: &CheckedRemove,
    view: &V,
) -> Result<WriteEffect, EvalFault>
    requires there { remove.now.table < length catalogue.now }
    requires keyed { IsKeyed (V.rows view.now) remove.now.table
        (slice_get catalogue.now remove.now.table) }
    ensures { IsWrite result (record {
      draws = 0;
      given = made Writes (remove_in alone (V.rows view.now) remove.now);
    }) }
{
    let table = table_of(catalogue, remove.table);
    let rows = candidates(alloc, view, remove.table, table.key, &remove.filter)?;
    written(0, removals(alloc, table.key, remove, rows.as_slice()))
}

/// The effect of a write on a view, where the next number of its table's serial column is
/// `next_serial`.
///
/// Errors: `22003`, `22012`, `54000` of its expressions and rows, `23502` Null where a column has
/// none, `23505` a second row with one key, `2200H` no serial numbers are left. What is drawn stays
/// drawn, and hangs on the statement and the next number alone.
/// Source: PostgreSQL 15, "INSERT", "UPDATE", "DELETE". House rules: rows are walked in the rising
/// order of their keys, and those of an INSERT in their own; all draws come first; the first code
/// decides.
pub fn eval_write<V: TableView>(
    alloc: Global,
    catalogue: &Catalogue,
    checked: &Checked,
    view: &V,
    next_serial: i64,
) -> Result<WriteEffect, EvalFault>
    requires write { IsWriteBody checked.now.body }
    requires there { HasTable catalogue.now (table_in checked.now.body) }
    requires keyed { IsKeyedAt catalogue.now (V.rows view.now) (table_in checked.now.body) }
    requires few { DrawsFew checked.now.body }
    requires next { pos 1 ≤ℤ next_serial }
    ensures { IsWrite result (effect_of alone catalogue.now checked.now.body (V.rows view.now)
        next_serial) }
{
    match &checked.body {
        CheckedBody::Read(_) => unreachable!(),
        CheckedBody::Insert(body) => insert(alloc, catalogue, body, view, next_serial),
        CheckedBody::Change(body) => change(alloc, catalogue, body, view),
        CheckedBody::Remove(body) => remove(alloc, catalogue, body, view),
    }
}
