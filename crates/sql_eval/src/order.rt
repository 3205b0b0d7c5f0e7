//! The order of rows, and how many of them a limit leaves.
ghost use Rattle.std.specs.Prelude.{◌≡◌, OnOk, ℕ, map};
ghost use Rattle.std.specs.Option.{option_map};
ghost use Rattle.sql_values.specs.Outcome.{or_null};
ghost use Rattle.sql_eval.specs.Views.{entry_of};
ghost use Rattle.sql_eval.specs.Walks.{GivesAs};
ghost use Rattle.sql_eval.specs.Ordered.{null_last, directed, row_order, ordered};
ghost use Rattle.sql_eval.specs.Reads.{alone, limit_number, limit_in};

use crate::codes::NEGATIVE_LIMIT;
use crate::row::Row;
use crate::rows::value_alone;
use catalogue::OrderKey;
use pg_values::Value;
use sql_values::{ExprFault, standing};
use std::alloc::AllocError;
use std::cmp::Ordering;
use typed_sql::TypedExpr;

/// Null stands behind all that is not, and so does a cell that is not there.
fn null_last(a: Option<&Value>, b: Option<&Value>) -> Ordering
    ensures { result ≡ null_last (or_null (option_map (λ v. v.now) a.entry))
        (or_null (option_map (λ v. v.now) b.entry)) }
{
    match (a, b) {
        (None | Some(Value::Null), None | Some(Value::Null)) => Ordering::Equal,
        (None | Some(Value::Null), Some(_)) => Ordering::Greater,
        (Some(_), None | Some(Value::Null)) => Ordering::Less,
        (Some(a), Some(b)) => standing(a, b),
    }
}

/// The stand itself, or turned round.
fn directed(falling: bool, stand: Ordering) -> Ordering
    ensures { result ≡ directed falling stand }
{
    if falling { stand.reverse() } else { stand }
}

/// How two rows stand by the first key that tells them apart.
pub(crate) fn row_order(keys: &[OrderKey], a: &Row, b: &Row) -> Ordering
    ensures { result ≡ row_order keys.now a.now b.now }
{
    for key in keys {
        let column = key.column as usize;
        let stand = directed(
            key.falling,
            null_last(a.cells.get(column), b.cells.get(column)),
        );
        match stand {
            Ordering::Equal => {}
            Ordering::Less | Ordering::Greater => return stand,
        }
    }
    Ordering::Equal
}

/// Puts rows in their order.
pub(crate) fn put_in_order(keys: &[OrderKey], rows: &mut Vec<&Row>) -> Result<(), AllocError>
    ensures { OnOk result ((key : ℕ) → map (λ r. entry_of key r.now) rows.new.items
        ≡ ordered keys.now (map (λ r. entry_of key r.now) rows.old.items)) }
{
    rows.sort_by(|a, b| row_order(keys, a, b))
}

/// A limit that is a number.
fn limit_number(number: i64) -> Result<Option<u64>, ExprFault>
    ensures { GivesAs (λ n. n) result (limit_number number) }
{
    if number < 0 {
        return Err(ExprFault::Refused(NEGATIVE_LIMIT));
    }
    Ok(Some(number as u64))
}

/// How many rows a limit leaves, if there is one.
pub(crate) fn limit_in(limit: &Option<TypedExpr>) -> Result<Option<u64>, ExprFault>
    ensures { GivesAs (λ n. n) result (limit_in alone limit.now) }
{
    let Some(limit) = limit else {
        return Ok(None);
    };
    let given = value_alone(limit)?;
    match given {
        Value::Int4(number) => limit_number(number as i64),
        Value::Int8(number) => limit_number(number),
        _ => Ok(None),
    }
}
