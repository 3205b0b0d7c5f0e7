//! Whether a SELECT is of a catalogue.
ghost use Rattle.std.specs.Prelude.{◌≡◌, ◌-◌, length, nat_lt, slice_get};
ghost use Rattle.std.specs.Option.{option_map};
ghost use Rattle.std.specs.List.{list_all};
ghost use Rattle.checked_sql.specs.Sound.{is_sound, names_of};
ghost use Rattle.checked_sql.specs.OfCatalogue.{are_results, is_bare, is_count, is_count_result, is_filter, is_key, is_limit, is_limit_form, is_list, is_name, is_order, is_plain, is_read_at, is_read_of, is_result, is_rows, is_written, is_written_form};

use crate::kinds::same_kind;
use crate::names::Names;
use crate::nodes::{is_sound, stands};
use crate::values::has_no_zero;
use catalogue::{Catalogue, CheckedRead, ColumnDesc, OrderKey};
use pg_values::{ColType, Value};
use pool_base::Text;
use schema::TableDef;
use typed_sql::{Takes, TypedExpr, TypedForm};

/// How many items a list may have.
const MOST_ITEMS: usize = 1664;

/// The least int8 behind a minus: 2147483648 is an int4 with it.
const LEAST_BEHIND_MINUS: i64 = 2_147_483_649;

/// A filter: a bool, if there is one.
pub(crate) fn is_filter(names: &Names<'_>, filter: &Option<TypedExpr>) -> bool
    ensures { result ≡ is_filter (names_of names.now) filter.now }
{
    match filter {
        Some(filter) => stands(names, Takes::Like(ColType::Bool), filter),
        None => true,
    }
}

/// What a check makes of a whole number behind a minus.
fn is_written(value: &Value) -> bool
    ensures { result ≡ is_written value.now }
{
    match value {
        Value::Int4(number) => *number >= 0,
        Value::Int8(number) => *number >= LEAST_BEHIND_MINUS,
        Value::Null | Value::Bool(_) | Value::Text(_) | Value::Moment(_) => false,
    }
}

fn is_written_form(form: &TypedForm) -> bool
    ensures { result ≡ is_written_form form.now }
{
    match form {
        TypedForm::Literal(value) => is_written(value),
        TypedForm::Or(_)
        | TypedForm::And(_)
        | TypedForm::Not(_)
        | TypedForm::IsNull { .. }
        | TypedForm::Compare(_, _, _)
        | TypedForm::Member { .. }
        | TypedForm::Concat(_)
        | TypedForm::Sum(_, _)
        | TypedForm::Product(_, _)
        | TypedForm::Minus(_)
        | TypedForm::Param(_)
        | TypedForm::Column(_)
        | TypedForm::CurrentTimestamp
        | TypedForm::Now
        | TypedForm::TransactionTimestamp => false,
    }
}

/// A parameter, a literal, or what a check makes of a whole number behind a minus.
#[tactic(auto, using(crate::proofs::Limits::limits))]
fn is_limit_form(form: &TypedForm) -> bool
    ensures { result ≡ is_limit_form form.now }
{
    match form {
        TypedForm::Param(_) => true,
        TypedForm::Literal(_) => true,
        TypedForm::Minus(of) => is_written_form(&of.get().form),
        TypedForm::Or(_) => false,
        TypedForm::And(_) => false,
        TypedForm::Not(_) => false,
        TypedForm::IsNull { .. } => false,
        TypedForm::Compare(_, _, _) => false,
        TypedForm::Member { .. } => false,
        TypedForm::Concat(_) => false,
        TypedForm::Sum(_, _) => false,
        TypedForm::Product(_, _) => false,
        TypedForm::Column(_) => false,
        TypedForm::CurrentTimestamp => false,
        TypedForm::Now => false,
        TypedForm::TransactionTimestamp => false,
    }
}

fn is_limit(names: &Names<'_>, limit: &Option<TypedExpr>) -> bool
    ensures { result ≡ is_limit (names_of names.now) limit.now }
{
    match limit {
        Some(limit) => is_limit_form(&limit.form) && stands(names, Takes::Whole, limit),
        None => true,
    }
}

/// The table's key, rising.
fn is_key(table: &TableDef, order: Option<&OrderKey>) -> bool
    ensures { result ≡ is_key table.now (option_map (λ o. o.now) order.entry) }
{
    match order {
        Some(order) => order.column == table.key && !order.falling,
        None => false,
    }
}

/// The order at a place, if there is one.
fn order_at(orders: &[OrderKey], at: usize) -> Option<&OrderKey>
    ensures { option_map (λ o. o.now) result ≡ slice_get orders.now at }
{
    orders.get(at)
}

/// Whether each column of an order is there.
fn are_there(orders: &[OrderKey], count: usize) -> bool
    ensures { result ≡ list_all (λ o. nat_lt o.column count) orders.now }
{
    for order in orders {
        if order.column as usize >= count {
            return false;
        }
    }
    true
}

/// An order whose columns are there, and whose last is the key, rising.
fn is_order(table: &TableDef, orders: &[OrderKey]) -> bool
    ensures { result ≡ is_order table.now orders.now }
{
    let last = order_at(orders, orders.len().saturating_sub(1));
    are_there(orders, table.columns.len()) && is_key(table, last)
}

/// A name that is not empty and has no zero byte.
fn is_name(name: &Text) -> bool
    ensures { result ≡ is_name name.now }
{
    match name.as_bytes() {
        [] => false,
        [_, ..] => has_no_zero(name.as_bytes()),
    }
}

/// A column of the result: its type is that of the item, and it has a name.
fn is_result(expr: &TypedExpr, column: &ColumnDesc) -> bool
    ensures { result ≡ is_result expr.now column.now }
{
    same_kind(column.kind, expr.kind) && is_name(&column.name)
}

/// A column of the result for each item.
fn are_results(list: &[TypedExpr], columns: &[ColumnDesc]) -> bool
    ensures { result ≡ are_results list.now columns.now }
{
    match list {
        [] => columns.is_empty(),
        [expr, exprs @ ..] => match columns {
            [] => false,
            [column, others @ ..] => is_result(expr, column) && are_results(exprs, others),
        },
    }
}

/// The one column of a count.
fn is_count_result(columns: &[ColumnDesc]) -> bool
    ensures { result ≡ is_count_result columns.now }
{
    match columns {
        [column] => same_kind(column.kind, ColType::Int8) && is_name(&column.name),
        _ => false,
    }
}

fn are_sound(names: &Names<'_>, list: &[TypedExpr]) -> bool
    ensures { result ≡ list_all (is_sound (names_of names.now)) list.now }
{
    for expr in list {
        if !is_sound(names, expr) {
            return false;
        }
    }
    true
}

/// One item or more, and at most 1664, each node of which has its type.
fn is_list(names: &Names<'_>, list: &[TypedExpr]) -> bool
    ensures { result ≡ is_list (names_of names.now) list.now }
{
    !list.is_empty() && list.len() <= MOST_ITEMS && are_sound(names, list)
}

/// No order, limit and FOR UPDATE.
fn is_plain(read: &CheckedRead) -> bool
    ensures { result ≡ is_plain read.now }
{
    read.order.is_empty() && read.limit.is_none() && !read.for_update
}

/// A count: no list, order, limit and FOR UPDATE.
fn is_count(names: &Names<'_>, read: &CheckedRead, columns: &[ColumnDesc]) -> bool
    ensures { result ≡ is_count (names_of names.now) read.now columns.now }
{
    read.list.is_empty()
        && is_plain(read)
        && is_filter(names, &read.filter)
        && is_count_result(columns)
}

/// Another SELECT from a table.
fn is_rows(names: &Names<'_>, table: &TableDef, read: &CheckedRead, columns: &[ColumnDesc]) -> bool
    ensures { result ≡ is_rows (names_of names.now) table.now read.now columns.now }
{
    is_list(names, read.list.as_slice())
        && are_results(read.list.as_slice(), columns)
        && is_filter(names, &read.filter)
        && is_order(table, read.order.as_slice())
        && is_limit(names, &read.limit)
}

/// A SELECT without a table: no filter, order, limit and FOR UPDATE.
fn is_bare(names: &Names<'_>, read: &CheckedRead, columns: &[ColumnDesc]) -> bool
    ensures { result ≡ is_bare (names_of names.now) read.now columns.now }
{
    is_list(names, read.list.as_slice())
        && are_results(read.list.as_slice(), columns)
        && read.filter.is_none()
        && is_plain(read)
}

fn is_read_of(
    kinds: &[ColType],
    table: &TableDef,
    read: &CheckedRead,
    columns: &[ColumnDesc],
) -> bool
    ensures { result ≡ is_read_of kinds.now table.now read.now.count read.now columns.now }
{
    let names = Names {
        columns: table.columns.as_slice(),
        kinds,
    };
    if read.count {
        is_count(&names, read, columns)
    } else {
        is_rows(&names, table, read, columns)
    }
}

/// Whether a SELECT is of the tables.
pub(crate) fn is_read(
    tables: &Catalogue,
    kinds: &[ColType],
    read: &CheckedRead,
    columns: &[ColumnDesc],
) -> bool
    ensures { result ≡ is_read_at tables.now kinds.now read.now.table read.now columns.now }
{
    match read.table {
        None => {
            let names = Names {
                columns: &[],
                kinds,
            };
            !read.count && is_bare(&names, read, columns)
        }
        Some(number) => match tables.table(number) {
            Some(table) => is_read_of(kinds, table, read, columns),
            None => false,
        },
    }
}
