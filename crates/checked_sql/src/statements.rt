//! Copies of checked statements.
ghost use Rattle.std.specs.Prelude.{◌≡◌, IfOk};

use crate::expressions::{expr_copied, exprs_copied, some_copied};
use catalogue::{
    Checked, CheckedBody, CheckedChange, CheckedInsert, CheckedRead, CheckedRemove, ColumnDesc,
    TypedCell, TypedSet,
};
use pool_base::{List, NoMemory};

/// A copy of a checked statement.
pub fn checked_copied(checked: &Checked) -> Result<Checked, NoMemory>
    ensures { IfOk result (λ copy. copy ≡ checked.now) }
{
    let columns = columns_copied(&checked.columns)?;
    let kinds = List::from_slice(checked.kinds.allocator(), checked.kinds.as_slice())?;
    let body = body_copied(&checked.body)?;
    Ok(Checked {
        body,
        columns,
        kinds,
    })
}

fn body_copied(body: &CheckedBody) -> Result<CheckedBody, NoMemory>
    ensures { IfOk result (λ copy. copy ≡ body.now) }
{
    match body {
        CheckedBody::Read(read) => Ok(CheckedBody::Read(read_copied(read)?)),
        CheckedBody::Insert(insert) => Ok(CheckedBody::Insert(CheckedInsert {
            table: insert.table,
            rows: rows_copied(&insert.rows)?,
        })),
        CheckedBody::Change(change) => Ok(CheckedBody::Change(CheckedChange {
            table: change.table,
            sets: sets_copied(&change.sets)?,
            filter: some_copied(&change.filter)?,
        })),
        CheckedBody::Remove(remove) => Ok(CheckedBody::Remove(CheckedRemove {
            table: remove.table,
            filter: some_copied(&remove.filter)?,
        })),
    }
}

fn read_copied(read: &CheckedRead) -> Result<CheckedRead, NoMemory>
    ensures { IfOk result (λ copy. copy ≡ read.now) }
{
    let list = exprs_copied(&read.list)?;
    let order = List::from_slice(read.order.allocator(), read.order.as_slice())?;
    let filter = some_copied(&read.filter)?;
    match some_copied(&read.limit) {
        Ok(limit) => Ok(CheckedRead {
            table: read.table,
            count: read.count,
            list,
            filter,
            order,
            limit,
            for_update: read.for_update,
        }),
        Err(NoMemory) => {
            drop(filter);
            Err(NoMemory)
        }
    }
}

fn rows_copied(rows: &List<List<TypedCell>>) -> Result<List<List<TypedCell>>, NoMemory>
    ensures { IfOk result (λ copy. copy ≡ rows.now) }
{
    let mut made = List::new(rows.allocator());
    for row in rows.as_slice() {
        made.push(row_copied(row)?)?;
    }
    Ok(made)
}

fn row_copied(cells: &List<TypedCell>) -> Result<List<TypedCell>, NoMemory>
    ensures { IfOk result (λ copy. copy ≡ cells.now) }
{
    let mut made = List::new(cells.allocator());
    for cell in cells.as_slice() {
        made.push(cell_copied(cell)?)?;
    }
    Ok(made)
}

fn cell_copied(cell: &TypedCell) -> Result<TypedCell, NoMemory>
    ensures { IfOk result (λ copy. copy ≡ cell.now) }
{
    match cell {
        TypedCell::Serial => Ok(TypedCell::Serial),
        TypedCell::Now => Ok(TypedCell::Now),
        TypedCell::Given(expr) => Ok(TypedCell::Given(expr_copied(expr)?)),
    }
}

fn sets_copied(sets: &List<TypedSet>) -> Result<List<TypedSet>, NoMemory>
    ensures { IfOk result (λ copy. copy ≡ sets.now) }
{
    let mut made = List::new(sets.allocator());
    for set in sets.as_slice() {
        made.push(TypedSet {
            column: set.column,
            expr: expr_copied(&set.expr)?,
        })?;
    }
    Ok(made)
}

fn column_copied(column: &ColumnDesc) -> Result<ColumnDesc, NoMemory>
    ensures { IfOk result (λ copy. copy ≡ column.now) }
{
    let name = column.name.clone()?;
    Ok(ColumnDesc {
        name,
        kind: column.kind,
    })
}

fn columns_copied(columns: &List<ColumnDesc>) -> Result<List<ColumnDesc>, NoMemory>
    ensures { IfOk result (λ copy. copy ≡ columns.now) }
{
    let mut made = List::new(columns.allocator());
    for column in columns.as_slice() {
        made.push(column_copied(column)?)?;
    }
    Ok(made)
}
