//! SELECT.
ghost use Rattle.std.specs.Prelude.{◌≡◌, ◌≤◌, [], ◌∷◌, IfOk, codes, is_some, length, map, slice_get, suc};
ghost use Rattle.std.specs.Option.{option_map};
ghost use Rattle.schema.specs.Grammar.{IsWithin};
ghost use Rattle.typed_sql.specs.Meaning.{Finds, scope_of};
ghost use Rattle.typed_sql.specs.Own.{alone};
ghost use Rattle.typed_sql.specs.Steps.{Answers, Each, Made, Maybe, Walk};
ghost use Rattle.typed_sql.specs.Places.{asks_limit};
ghost use Rattle.typed_sql.specs.Typing.{Typed};
ghost use Rattle.catalogue.specs.Statements.{ItemOf, ListOf, OrderOf, Uncounted, uncounted, EndsOf, ReadFrom, SelectOf, bare_read, column_desc, columns_from, is_count, is_there, item_columns, read_of, result_columns, with_key};

use crate::checked::{CheckedBody, CheckedRead, ColumnDesc, OrderKey};
use crate::naming::item_name;
use crate::tables::{filter_of, table_named};
use pg_values::ColType;
use pool_base::{List, NoMemory, Text};
use schema::{Catalogue, ColumnDef, TableDef};
use sql_tree::{Expr, OrderItem, Select, SelectItem, SelectList};
use std::alloc::Global;
use typed_sql::{
    Check, CheckFault, Known, Scope, TypedExpr, TypedForm, asks_limit, asks_nothing,
    not_in_profile, too_many_columns, typed_at,
};

/// How many items a list may have.
const MOST_ITEMS: usize = 1664;

/// All columns of a table.
fn all_columns(alloc: Global, columns: &[ColumnDef]) -> Result<List<TypedExpr>, NoMemory>
    requires { length columns.now ≤ 32 }
    ensures { IfOk result (λ es. es ≡ columns_from 0 columns.now) }
{
    let mut made = List::new(alloc);
    let mut number = 0;
    for column in columns {
        made.push(TypedExpr {
            kind: column.kind,
            form: TypedForm::Column(number),
        })?;
        number += 1;
    }
    Ok(made)
}

/// The items of a list, up to its first fault.
fn items_of(
    check: &Check<'_>,
    items: &[SelectItem],
    known: &mut Known,
) -> Result<List<TypedExpr>, CheckFault>
    ensures { Answers (λ es. es) result known.new.items
        (Walk (ItemOf (scope_of check.now.scope)) (λ before e. suc before) 0 items.now
        known.old.items) }
{
    let mut made = List::new(check.alloc);
    for item in items {
        let typed = item_of(check, made.len(), item, known)?;
        made.push(typed)?;
    }
    Ok(made)
}

/// An item behind so many others.
fn item_of(
    check: &Check<'_>,
    before: usize,
    item: &SelectItem,
    known: &mut Known,
) -> Result<TypedExpr, CheckFault>
    ensures { Answers (λ e. e) result known.new.items
        (ItemOf (scope_of check.now.scope) before item.now known.old.items) }
{
    if before < MOST_ITEMS {
        typed_at(check, asks_nothing(), &item.expr, known)
    } else {
        Err(too_many_columns(check.alloc))
    }
}

/// What a list gives: `*` all columns, `count(*)` none.
fn list_of(
    check: &Check<'_>,
    columns: &[ColumnDef],
    list: &SelectList,
    known: &mut Known,
) -> Result<List<TypedExpr>, CheckFault>
    requires { length columns.now ≤ 32 }
    ensures { Answers (λ es. es) result known.new.items
        (ListOf (scope_of check.now.scope) columns.now list.now known.old.items) }
{
    match list {
        SelectList::Star => Ok(all_columns(check.alloc, columns)?),
        SelectList::Count => Ok(List::new(check.alloc)),
        SelectList::Items(items) => items_of(check, items.as_slice(), known),
    }
}

fn is_count(list: &SelectList) -> bool
    ensures { result ≡ is_count list.now }
{
    match list {
        SelectList::Star => false,
        SelectList::Count => true,
        SelectList::Items(_) => false,
    }
}

/// The columns of a table as those of a result.
fn table_columns(alloc: Global, columns: &[ColumnDef]) -> Result<List<ColumnDesc>, NoMemory>
    ensures { IfOk result (λ made. made ≡ map (λ c. column_desc c.name c.kind) columns.now) }
{
    let mut made = List::new(alloc);
    for column in columns {
        let name = column.name.clone()?;
        made.push(ColumnDesc {
            name,
            kind: column.kind,
        })?;
    }
    Ok(made)
}

/// The expression at a place, if there is one.
fn expr_at(exprs: &[TypedExpr], at: usize) -> Option<&TypedExpr>
    ensures { option_map (λ e. e.now) result ≡ slice_get exprs.now at }
{
    exprs.get(at)
}

/// The columns of the result of a list of items.
fn item_columns(
    alloc: Global,
    items: &[SelectItem],
    exprs: &[TypedExpr],
) -> Result<List<ColumnDesc>, NoMemory>
    ensures { IfOk result (λ made. made ≡ item_columns items.now exprs.now) }
{
    let mut made = List::new(alloc);
    for item in items {
        match expr_at(exprs, made.len()) {
            Some(expr) => {
                let name = item_name(alloc, &item.name, &item.expr)?;
                made.push(ColumnDesc {
                    name,
                    kind: expr.kind,
                })?;
            }
            None => return Ok(made),
        }
    }
    Ok(made)
}

/// The one column of a count.
fn count_columns(alloc: Global) -> Result<List<ColumnDesc>, NoMemory>
    ensures { IfOk result (λ made. made ≡ column_desc (codes "count") ColType.Int8 ∷ []) }
{
    let name = Text::from_str(alloc, "count")?;
    let mut made = List::new(alloc);
    made.push(ColumnDesc {
        name,
        kind: ColType::Int8,
    })?;
    Ok(made)
}

/// The columns of a result by their names and types.
fn result_columns(
    alloc: Global,
    columns: &[ColumnDef],
    list: &SelectList,
    exprs: &[TypedExpr],
) -> Result<List<ColumnDesc>, NoMemory>
    ensures { IfOk result (λ made. made ≡ result_columns columns.now list.now exprs.now) }
{
    match list {
        SelectList::Star => table_columns(alloc, columns),
        SelectList::Count => count_columns(alloc),
        SelectList::Items(items) => item_columns(alloc, items.as_slice(), exprs),
    }
}

/// Beside `count(*)` there is no ORDER BY, LIMIT and FOR UPDATE.
fn uncounted(alloc: Global, count: bool, there: bool) -> Result<(), CheckFault>
    ensures { Finds (λ free. free) result (uncounted count there) }
{
    match (count, there) {
        (true, true) => Err(not_in_profile(alloc, "count")),
        (true, false) | (false, _) => Ok(()),
    }
}

/// Whether there is an item.
fn is_there(order: &[OrderItem]) -> bool
    ensures { result ≡ is_there order.now }
{
    match order {
        [] => false,
        [_, ..] => true,
    }
}

/// The columns that rows are ordered by; beside `count(*)` there are none.
fn order_of(
    check: &Check<'_>,
    count: bool,
    order: &[OrderItem],
    known: &[Option<ColType>],
) -> Result<List<OrderKey>, CheckFault>
    ensures { Answers (λ keys. keys) result known.now (Uncounted count (is_there order.now)
        (Each (OrderOf (scope_of check.now.scope)) order.now) known.now) }
{
    uncounted(check.alloc, count, is_there(order))?;
    keys_of(check, order, known)
}

/// The columns that rows are ordered by.
fn keys_of(
    check: &Check<'_>,
    order: &[OrderItem],
    known: &[Option<ColType>],
) -> Result<List<OrderKey>, CheckFault>
    ensures { Answers (λ keys. keys) result known.now
        (Each (OrderOf (scope_of check.now.scope)) order.now known.now) }
{
    let mut keys = List::new(check.alloc);
    for item in order {
        let found = check.scope.column_meant(&item.qualifier, &item.column)?;
        keys.push(OrderKey {
            column: found.0,
            falling: item.falling,
        })?;
    }
    Ok(keys)
}

/// A limit; beside `count(*)` there is none.
fn limit_of(
    check: &Check<'_>,
    count: bool,
    limit: &Option<Expr>,
    known: &mut Known,
) -> Result<Option<TypedExpr>, CheckFault>
    ensures { Answers (λ e. e) result known.new.items (Uncounted count (is_some limit.now)
        (Maybe (λ e. Typed (scope_of check.now.scope) e asks_limit) limit.now) known.old.items) }
{
    match limit {
        None => Ok(None),
        Some(limit) => {
            uncounted(check.alloc, count, true)?;
            let typed = typed_at(check, asks_limit(), limit, known)?;
            Ok(Some(typed))
        }
    }
}

/// The keys of an order with the table's key, rising, behind them.
fn with_key(count: bool, table: &TableDef, keys: List<OrderKey>) -> Result<List<OrderKey>, NoMemory>
    ensures { IfOk result (λ made. made ≡ with_key count table.now keys) }
{
    let mut keys = keys;
    if !count {
        keys.push(OrderKey {
            column: table.key,
            falling: false,
        })?;
    }
    Ok(keys)
}

/// What stands behind the list and the filter: the order, with the key last, and the limit.
fn ends_of(
    check: &Check<'_>,
    select: &Select,
    table: &TableDef,
    known: &mut Known,
) -> Result<(List<OrderKey>, Option<TypedExpr>), CheckFault>
    ensures { Answers (λ ends. ends) result known.new.items
        (EndsOf (is_count select.now.list) (scope_of check.now.scope) select.now table.now
        known.old.items) }
{
    let items = select.order.as_slice();
    let kinds = known.as_slice();
    let count = is_count(&select.list);
    let keys = order_of(check, count, items, kinds)?;
    let order = with_key(count, table, keys)?;
    let limit = limit_of(check, count, &select.limit, known)?;
    match uncounted(check.alloc, count, select.for_update) {
        Ok(()) => Ok((order, limit)),
        Err(fault) => {
            drop(limit);
            Err(fault)
        }
    }
}

/// A SELECT from a table whose parts are known.
fn read_of(
    alloc: Global,
    select: &Select,
    table: (u8, &TableDef),
    list: List<TypedExpr>,
    filter: Option<TypedExpr>,
    ends: (List<OrderKey>, Option<TypedExpr>),
) -> Result<(CheckedBody, List<ColumnDesc>), NoMemory>
    ensures { IfOk result (λ b. b ≡ read_of (table.entry.0, table.entry.1.now) select.now list
        filter ends) }
{
    let (number, table) = table;
    let (order, limit) = ends;
    let definitions = table.columns.as_slice();
    let exprs = list.as_slice();
    match result_columns(alloc, definitions, &select.list, exprs) {
        Ok(columns) => {
            let read = CheckedRead {
                table: Some(number),
                count: is_count(&select.list),
                list,
                filter,
                order,
                limit,
                for_update: select.for_update,
            };
            Ok((CheckedBody::Read(read), columns))
        }
        Err(NoMemory) => {
            drop(filter);
            drop(limit);
            Err(NoMemory)
        }
    }
}

/// A SELECT from a table.
fn read_from(
    alloc: Global,
    parameters: bool,
    select: &Select,
    table: (u8, &TableDef),
    known: &mut Known,
) -> Result<(CheckedBody, List<ColumnDesc>), CheckFault>
    requires { length table.1.now.columns ≤ 32 }
    ensures { Answers (λ b. b) result known.new.items
        (ReadFrom parameters select.now (table.entry.0, table.entry.1.now) known.old.items) }
{
    let (number, table) = table;
    let check = Check {
        alloc,
        scope: Scope::over(table, parameters),
    };
    let columns = table.columns.as_slice();
    let list = list_of(&check, columns, &select.list, known)?;
    let filter = filter_of(&check, &select.filter, known)?;
    match ends_of(&check, select, table, known) {
        Ok(ends) => {
            let read = read_of(alloc, select, (number, table), list, filter, ends)?;
            Ok(read)
        }
        Err(fault) => {
            drop(filter);
            Err(fault)
        }
    }
}

/// A SELECT without a table.
fn bare_read(
    alloc: Global,
    parameters: bool,
    select: &Select,
    known: &mut Known,
) -> Result<(CheckedBody, List<ColumnDesc>), CheckFault>
    ensures { Answers (λ b. b) result known.new.items
        (Made (bare_read select.now) (ListOf (alone parameters) [] select.now.list)
        known.old.items) }
{
    let check = Check {
        alloc,
        scope: Scope::alone(parameters),
    };
    let list = list_of(&check, &[], &select.list, known)?;
    let exprs = list.as_slice();
    let columns = result_columns(alloc, &[], &select.list, exprs)?;
    let read = CheckedRead {
        table: None,
        count: false,
        list,
        filter: None,
        order: List::new(alloc),
        limit: None,
        for_update: false,
    };
    Ok((CheckedBody::Read(read), columns))
}

/// What a SELECT is over the tables.
pub(crate) fn select_of(
    alloc: Global,
    tables: &Catalogue,
    parameters: bool,
    select: &Select,
    known: &mut Known,
) -> Result<(CheckedBody, List<ColumnDesc>), CheckFault>
    requires { IsWithin tables.now }
    ensures { Answers (λ b. b) result known.new.items
        (SelectOf tables.now parameters select.now select.now.table known.old.items) }
{
    match &select.table {
        None => bare_read(alloc, parameters, select, known),
        Some(name) => {
            let table = table_named(tables, name)?;
            read_from(alloc, parameters, select, table, known)
        }
    }
}
