//! Copies of statements: a copy is the statement again.
ghost use Rattle.std.specs.Prelude.{◌≡◌, IfOk};

use crate::copying::copied_name;
use crate::expr::Expr;
use crate::statement::{
    Cell, Delete, Insert, OrderItem, Select, SelectItem, SelectList, SetItem, Statement, Update,
};
use pool_base::{List, NoMemory, Text};
use std::alloc::AllocError;

impl Clone for Statement {
    ghost is_clone = { λ statement copy. copy ≡ statement };

    fn clone(&self) -> Result<Statement, AllocError> {
        copied(self).map_err(|_| AllocError)
    }
}

impl Clone for Select {
    ghost is_clone = { λ select copy. copy ≡ select };

    fn clone(&self) -> Result<Select, AllocError> {
        copied_select(self).map_err(|_| AllocError)
    }
}

impl Clone for Insert {
    ghost is_clone = { λ insert copy. copy ≡ insert };

    fn clone(&self) -> Result<Insert, AllocError> {
        copied_insert(self).map_err(|_| AllocError)
    }
}

impl Clone for Update {
    ghost is_clone = { λ update copy. copy ≡ update };

    fn clone(&self) -> Result<Update, AllocError> {
        copied_update(self).map_err(|_| AllocError)
    }
}

impl Clone for Delete {
    ghost is_clone = { λ delete copy. copy ≡ delete };

    fn clone(&self) -> Result<Delete, AllocError> {
        copied_delete(self).map_err(|_| AllocError)
    }
}

impl Clone for SelectList {
    ghost is_clone = { λ given copy. copy ≡ given };

    fn clone(&self) -> Result<SelectList, AllocError> {
        copied_list(self).map_err(|_| AllocError)
    }
}

impl Clone for SelectItem {
    ghost is_clone = { λ item copy. copy ≡ item };

    fn clone(&self) -> Result<SelectItem, AllocError> {
        copied_item(self).map_err(|_| AllocError)
    }
}

impl Clone for OrderItem {
    ghost is_clone = { λ item copy. copy ≡ item };

    fn clone(&self) -> Result<OrderItem, AllocError> {
        copied_order(self).map_err(|_| AllocError)
    }
}

impl Clone for SetItem {
    ghost is_clone = { λ item copy. copy ≡ item };

    fn clone(&self) -> Result<SetItem, AllocError> {
        copied_set(self).map_err(|_| AllocError)
    }
}

impl Clone for Cell {
    ghost is_clone = { λ cell copy. copy ≡ cell };

    fn clone(&self) -> Result<Cell, AllocError> {
        copied_cell(self).map_err(|_| AllocError)
    }
}

fn copied(statement: &Statement) -> Result<Statement, NoMemory>
    ensures { IfOk result (λ copy. copy ≡ statement.now) }
{
    match statement {
        Statement::Select(select) => Ok(Statement::Select(copied_select(select)?)),
        Statement::Insert(insert) => Ok(Statement::Insert(copied_insert(insert)?)),
        Statement::Update(update) => Ok(Statement::Update(copied_update(update)?)),
        Statement::Delete(delete) => Ok(Statement::Delete(copied_delete(delete)?)),
        Statement::Begin => Ok(Statement::Begin),
        Statement::Commit => Ok(Statement::Commit),
        Statement::Rollback => Ok(Statement::Rollback),
        Statement::ShowNodes => Ok(Statement::ShowNodes),
        Statement::Recover(backend) => Ok(Statement::Recover(*backend)),
    }
}

fn copied_select(select: &Select) -> Result<Select, NoMemory>
    ensures { IfOk result (λ copy. copy ≡ select.now) }
{
    let list = copied_list(&select.list)?;
    let table = copied_name(&select.table)?;
    let order = copied_orders(&select.order)?;
    let filter = copied_filter(&select.filter)?;
    match copied_filter(&select.limit) {
        Ok(limit) => Ok(Select {
            list,
            table,
            filter,
            order,
            limit,
            for_update: select.for_update,
        }),
        Err(NoMemory) => {
            drop(filter);
            Err(NoMemory)
        }
    }
}

fn copied_list(given: &SelectList) -> Result<SelectList, NoMemory>
    ensures { IfOk result (λ copy. copy ≡ given.now) }
{
    match given {
        SelectList::Star => Ok(SelectList::Star),
        SelectList::Count => Ok(SelectList::Count),
        SelectList::Items(items) => Ok(SelectList::Items(copied_items(items)?)),
    }
}

fn copied_item(item: &SelectItem) -> Result<SelectItem, NoMemory>
    ensures { IfOk result (λ copy. copy ≡ item.now) }
{
    let name = copied_name(&item.name)?;
    Ok(SelectItem {
        expr: item.expr.clone()?,
        name,
    })
}

fn copied_filter(filter: &Option<Expr>) -> Result<Option<Expr>, NoMemory>
    ensures { IfOk result (λ copy. copy ≡ filter.now) }
{
    match filter {
        None => Ok(None),
        Some(expr) => Ok(Some(expr.clone()?)),
    }
}

fn copied_order(item: &OrderItem) -> Result<OrderItem, NoMemory>
    ensures { IfOk result (λ copy. copy ≡ item.now) }
{
    Ok(OrderItem {
        qualifier: copied_name(&item.qualifier)?,
        column: item.column.clone()?,
        falling: item.falling,
    })
}

fn copied_insert(insert: &Insert) -> Result<Insert, NoMemory>
    ensures { IfOk result (λ copy. copy ≡ insert.now) }
{
    Ok(Insert {
        table: insert.table.clone()?,
        columns: copied_columns(&insert.columns)?,
        rows: copied_rows(&insert.rows)?,
    })
}

fn copied_columns(columns: &Option<List<Text>>) -> Result<Option<List<Text>>, NoMemory>
    ensures { IfOk result (λ copy. copy ≡ columns.now) }
{
    match columns {
        None => Ok(None),
        Some(names) => Ok(Some(copied_names(names)?)),
    }
}

fn copied_cell(cell: &Cell) -> Result<Cell, NoMemory>
    ensures { IfOk result (λ copy. copy ≡ cell.now) }
{
    match cell {
        Cell::Fill => Ok(Cell::Fill),
        Cell::Given(expr) => Ok(Cell::Given(expr.clone()?)),
    }
}

fn copied_update(update: &Update) -> Result<Update, NoMemory>
    ensures { IfOk result (λ copy. copy ≡ update.now) }
{
    Ok(Update {
        table: update.table.clone()?,
        sets: copied_sets(&update.sets)?,
        filter: copied_filter(&update.filter)?,
    })
}

fn copied_set(item: &SetItem) -> Result<SetItem, NoMemory>
    ensures { IfOk result (λ copy. copy ≡ item.now) }
{
    Ok(SetItem {
        column: item.column.clone()?,
        expr: item.expr.clone()?,
    })
}

fn copied_delete(delete: &Delete) -> Result<Delete, NoMemory>
    ensures { IfOk result (λ copy. copy ≡ delete.now) }
{
    Ok(Delete {
        table: delete.table.clone()?,
        filter: copied_filter(&delete.filter)?,
    })
}

fn copied_items(items: &List<SelectItem>) -> Result<List<SelectItem>, NoMemory>
    ensures { IfOk result (λ copies. copies ≡ items.now) }
{
    let mut copies = List::new(items.allocator());
    for item in items.as_slice() {
        copies.push(copied_item(item)?)?;
    }
    Ok(copies)
}

fn copied_orders(items: &List<OrderItem>) -> Result<List<OrderItem>, NoMemory>
    ensures { IfOk result (λ copies. copies ≡ items.now) }
{
    let mut copies = List::new(items.allocator());
    for item in items.as_slice() {
        copies.push(copied_order(item)?)?;
    }
    Ok(copies)
}

fn copied_names(names: &List<Text>) -> Result<List<Text>, NoMemory>
    ensures { IfOk result (λ copies. copies ≡ names.now) }
{
    let mut copies = List::new(names.allocator());
    for name in names.as_slice() {
        copies.push(name.clone()?)?;
    }
    Ok(copies)
}

fn copied_rows(rows: &List<List<Cell>>) -> Result<List<List<Cell>>, NoMemory>
    ensures { IfOk result (λ copies. copies ≡ rows.now) }
{
    let mut copies = List::new(rows.allocator());
    for row in rows.as_slice() {
        copies.push(copied_cells(row)?)?;
    }
    Ok(copies)
}

fn copied_cells(cells: &List<Cell>) -> Result<List<Cell>, NoMemory>
    ensures { IfOk result (λ copies. copies ≡ cells.now) }
{
    let mut copies = List::new(cells.allocator());
    for cell in cells.as_slice() {
        copies.push(copied_cell(cell)?)?;
    }
    Ok(copies)
}

fn copied_sets(items: &List<SetItem>) -> Result<List<SetItem>, NoMemory>
    ensures { IfOk result (λ copies. copies ≡ items.now) }
{
    let mut copies = List::new(items.allocator());
    for item in items.as_slice() {
        copies.push(copied_set(item)?)?;
    }
    Ok(copies)
}
