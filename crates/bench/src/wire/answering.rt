//! What becomes of the orders: a statement finds one row, and each Settle goes well.
ghost use Rattle.std.specs.Prelude.{IfOk, All};
ghost use Rattle.pg_values.specs.Range.{IsInRange};
ghost use Rattle.session_wire.specs.Answers.{MayAnswer};

use crate::wire::world::Stop;
use pg_values::Value;
use pool_base::{List, NoMemory};
use session_orders::{OrderBody, Outcome, Tag};
use sql_eval::Row;
use std::alloc::Global;

/// A row of a number and a null.
fn row_of(alloc: Global) -> Result<Row, NoMemory>
    ensures { IfOk result (λ row. All IsInRange row.cells) }
{
    let mut cells = List::new(alloc);
    cells.push(Value::Int4(25000))?;
    cells.push(Value::Null)?;
    Ok(Row { cells })
}

fn one_row(alloc: Global) -> Result<Outcome, NoMemory>
    ensures { IfOk result MayAnswer }
{
    let mut rows = List::new(alloc);
    rows.push(row_of(alloc)?)?;
    Ok(Outcome::Rows {
        rows,
        tag: Tag::Select(1),
    })
}

/// What becomes of an order: no other than a statement or a Settle is to come.
pub fn outcome_of(alloc: Global, body: OrderBody) -> Result<Outcome, Stop>
    ensures { IfOk result MayAnswer }
{
    match body {
        OrderBody::Statement(checked) => {
            drop(checked);
            let outcome = one_row(alloc)?;
            Ok(outcome)
        }
        OrderBody::Settle => Ok(Outcome::Settled),
        other => {
            drop(other);
            Err(Stop::Otherwise)
        }
    }
}
