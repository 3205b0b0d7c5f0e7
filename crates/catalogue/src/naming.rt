//! The name of a column of a result.
ghost use Rattle.std.specs.Prelude.{◌≡◌, IfOk};
ghost use Rattle.catalogue.specs.Naming.{item_name, own_name};

use pool_base::{NoMemory, Text};
use sql_tree::Expr;
use std::alloc::Global;

/// The name of an item without AS.
fn own_name(alloc: Global, expr: &Expr) -> Result<Text, NoMemory>
    ensures { IfOk result (λ name. name ≡ own_name expr.now) }
{
    match expr {
        Expr::Column { name, .. } => Ok(name.clone()?),
        Expr::Now => Text::from_str(alloc, "now"),
        Expr::TransactionTimestamp => Text::from_str(alloc, "transaction_timestamp"),
        Expr::CurrentTimestamp => Text::from_str(alloc, "current_timestamp"),
        Expr::Bool(_) => Text::from_str(alloc, "bool"),
        Expr::Moment(_) => Text::from_str(alloc, "timestamptz"),
        Expr::Or(_)
        | Expr::And(_)
        | Expr::Not(_)
        | Expr::IsNull { .. }
        | Expr::Compare(_, _, _)
        | Expr::Member { .. }
        | Expr::Concat(_)
        | Expr::Sum(_, _)
        | Expr::Product(_, _)
        | Expr::Minus(_)
        | Expr::Int(_)
        | Expr::Str(_)
        | Expr::Null
        | Expr::Param(_) => { Text::from_str(alloc, "?column?") }
    }
}

/// The name of an item: AS names it, else the expression does.
pub(crate) fn item_name(alloc: Global, given: &Option<Text>, expr: &Expr) -> Result<Text, NoMemory>
    ensures { IfOk result (λ name. name ≡ item_name given.now expr.now) }
{
    match given {
        Some(name) => Ok(name.clone()?),
        None => own_name(alloc, expr),
    }
}
