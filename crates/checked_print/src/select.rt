//! A SELECT as it is written.
ghost use Rattle.std.specs.Prelude.{◌≡◌, ◌++◌, IfOk, OnOk, None as Nothing, bytes_eq, map, true, []};
ghost use Rattle.checked_print.specs.Ranges.{are_held, is_held_expr, is_held_list, is_held_read};
ghost use Rattle.checked_print.specs.Statements.{as_name, spelled_item, spelled_items, spelled_key, spelled_list, spelled_read, spelled_select};
ghost use Rattle.catalogue.specs.Naming.{own_name};

use crate::expression::{some_spelled, some_whole, spelled};
use crate::speller::{Speller, name_at, table_columns, table_name};
use catalogue::{Catalogue, CheckedRead, ColumnDesc, OrderKey, TypedExpr};
use pool_base::{List, NoMemory, Text};
use sql_tree::{Expr, OrderItem, Select, SelectItem, SelectList};
use std::alloc::Global;

/// The name that an expression has without AS.
fn own_name(expr: &Expr) -> &str
    ensures { result.now ≡ own_name expr.now }
{
    match expr {
        Expr::Column { name, .. } => name.as_str(),
        Expr::Now => "now",
        Expr::TransactionTimestamp => "transaction_timestamp",
        Expr::CurrentTimestamp => "current_timestamp",
        Expr::Bool(_) => "bool",
        Expr::Moment(_) => "timestamptz",
        Expr::Or(_)
        | Expr::And(_)
        | Expr::Not(_)
        | Expr::IsNull { .. }
        | Expr::Compare(_, _, _)
        | Expr::Member { .. }
        | Expr::Concat(_)
        | Expr::Sum(_, _)
        | Expr::Product(_, _)
        | Expr::Minus(_)
        | Expr::Int(_)
        | Expr::Str(_)
        | Expr::Null
        | Expr::Param(_) => "?column?",
    }
}

/// What AS says, where it is needed.
fn as_name(expr: &Expr, name: &Text) -> Result<Option<Text>, NoMemory>
    ensures { IfOk result (λ made. made ≡ as_name expr.now name.now) }
{
    if own_name(expr) == name.as_str() {
        Ok(None)
    } else {
        Ok(Some(name.clone()?))
    }
}

fn item(
    speller: &Speller<'_>,
    expr: &TypedExpr,
    column: &ColumnDesc,
) -> Result<SelectItem, NoMemory>
    ensures made { IfOk result (λ made. made
        ≡ spelled_item speller.now.columns.now expr.now column.now) }
    ensures held { IfOk result (λ made. is_held_expr expr.now ≡ true) }
{
    let expr = spelled(speller, expr)?;
    match as_name(&expr, &column.name) {
        Ok(name) => Ok(SelectItem { expr, name }),
        Err(NoMemory) => {
            drop(expr);
            Err(NoMemory)
        }
    }
}

/// Puts each expression with the name of its column behind the items.
fn push_items(
    speller: &Speller<'_>,
    list: &[TypedExpr],
    columns: &[ColumnDesc],
    onto: &mut List<SelectItem>,
) -> Result<(), NoMemory>
    ensures made { OnOk result (onto.new
        ≡ onto.old ++ spelled_items speller.now.columns.now list.now columns.now) }
    ensures held { OnOk result (are_held list.now columns.now ≡ true) }
{
    match list {
        [] => Ok(()),
        [expr, exprs @ ..] => match columns {
            [] => Ok(()),
            [column, others @ ..] => {
                onto.push(item(speller, expr, column)?)?;
                push_items(speller, exprs, others, onto)
            }
        },
    }
}

fn items(
    speller: &Speller<'_>,
    list: &[TypedExpr],
    columns: &[ColumnDesc],
) -> Result<List<SelectItem>, NoMemory>
    ensures made { IfOk result (λ made. made
        ≡ spelled_items speller.now.columns.now list.now columns.now) }
    ensures held { IfOk result (λ made. are_held list.now columns.now ≡ true) }
{
    let mut made = List::new(speller.alloc);
    push_items(speller, list, columns, &mut made)?;
    Ok(made)
}

fn list(
    speller: &Speller<'_>,
    read: &CheckedRead,
    columns: &[ColumnDesc],
) -> Result<SelectList, NoMemory>
    ensures made { IfOk result (λ made. made
        ≡ spelled_list read.now.count speller.now.columns.now read.now.list columns.now) }
    ensures held { IfOk result (λ made.
        is_held_list read.now.count read.now.list columns.now ≡ true) }
{
    if read.count {
        Ok(SelectList::Count)
    } else {
        Ok(SelectList::Items(items(speller, read.list.as_slice(), columns)?))
    }
}

/// A key of an order, with the name of its table before it.
fn order_item(speller: &Speller<'_>, table: &Text, key: OrderKey) -> Result<OrderItem, NoMemory>
    ensures { IfOk result (λ made. made
        ≡ spelled_key table.now speller.now.columns.now key) }
{
    let qualifier = table.clone()?;
    Ok(OrderItem {
        qualifier: Some(qualifier),
        column: name_at(speller, key.column)?,
        falling: key.falling,
    })
}

fn order(
    speller: &Speller<'_>,
    table: &Text,
    keys: &List<OrderKey>,
) -> Result<List<OrderItem>, NoMemory>
    ensures { IfOk result (λ made. made
        ≡ map (spelled_key table.now speller.now.columns.now) keys.now) }
{
    let mut made = List::new(speller.alloc);
    for key in keys.as_slice() {
        made.push(order_item(speller, table, *key)?)?;
    }
    Ok(made)
}

/// A SELECT, given its table, and the name that stands before a key.
fn select(
    speller: &Speller<'_>,
    table: Option<Text>,
    name: &Text,
    read: &CheckedRead,
    columns: &[ColumnDesc],
) -> Result<Select, NoMemory>
    ensures made { IfOk result (λ made. made
        ≡ spelled_select table name.now speller.now.columns.now read.now columns.now) }
    ensures held { IfOk result (λ made. is_held_read read.now columns.now ≡ true) }
{
    let list = list(speller, read, columns)?;
    let order = order(speller, name, &read.order)?;
    let filter = some_spelled(speller, &read.filter)?;
    match some_whole(speller, &read.limit) {
        Ok(limit) => Ok(Select {
            list,
            table,
            filter,
            order,
            limit,
            for_update: read.for_update,
        }),
        Err(NoMemory) => {
            drop(filter);
            Err(NoMemory)
        }
    }
}

fn alone(alloc: Global, read: &CheckedRead, columns: &[ColumnDesc]) -> Result<Select, NoMemory>
    ensures made { IfOk result (λ made. made ≡ spelled_select Nothing [] [] read.now columns.now) }
    ensures held { IfOk result (λ made. is_held_read read.now columns.now ≡ true) }
{
    let speller = Speller {
        alloc,
        columns: &[],
    };
    let name = Text::from_str(alloc, "")?;
    select(&speller, None, &name, read, columns)
}

/// A SELECT from the table of its number, or from none.
pub(crate) fn spelled_read(
    alloc: Global,
    tables: &Catalogue,
    read: &CheckedRead,
    columns: &[ColumnDesc],
) -> Result<Select, NoMemory>
    ensures made { IfOk result (λ made. made
        ≡ spelled_read tables.now read.now.table read.now columns.now) }
    ensures held { IfOk result (λ made. is_held_read read.now columns.now ≡ true) }
{
    match read.table {
        None => alone(alloc, read, columns),
        Some(number) => {
            let speller = Speller {
                alloc,
                columns: table_columns(tables, number),
            };
            let name = table_name(alloc, tables, number)?;
            let table = name.clone()?;
            select(&speller, Some(table), &name, read, columns)
        }
    }
}
