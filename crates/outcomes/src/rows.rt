//! The committed rows in the order of their keys.
ghost use Rattle.std.specs.Prelude.{◌≡◌, ◌==◌, IfOk, filter, map};
ghost use Rattle.backend_trait.specs.Rows.{rows_in};
ghost use Rattle.outcomes.specs.Log.{rows_of};
ghost use Rattle.outcomes.specs.Sights.{all_stood};

use crate::change::ChangeSet;
use crate::sight::{Seen, Sight};
use pool_base::{List, NoMemory};
use sql_eval::Row;
use std::alloc::Global;

/// The rows of a table, of those that are seen.
fn rows_among(alloc: Global, seen: &[Seen<'_>], table: u8) -> Result<List<Row>, NoMemory>
    ensures { IfOk result (λ rows. rows
        ≡ map (λ e. e.1) (filter (λ e. e.0.table == table) (all_stood seen.now))) }
{
    let mut rows = List::new(alloc);
    for one in seen {
        if one.table == table {
            rows.push(one.row.clone()?)?;
        }
    }
    Ok(rows)
}

/// The rows that a log has committed to a table, in the order of their keys.
pub fn rows_of(alloc: Global, log: &[ChangeSet], table: u8) -> Result<List<Row>, NoMemory>
    ensures { IfOk result (λ rows. rows ≡ rows_in (rows_of log.now) table) }
{
    let sight = Sight::new(alloc, log, &[])?;
    rows_among(alloc, sight.rows.as_slice(), table)
}
