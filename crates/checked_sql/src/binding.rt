//! Values in place of the parameters of a statement.
ghost use Rattle.std.specs.Prelude.{◌≡◌, IfErr, IfOk, List as Sequence, map, true};
ghost use Rattle.schema.specs.declared.catalogue.TableDef.{TableDef};
ghost use Rattle.typed_sql.specs.declared.fault.CheckFault.TheVariants.{NoMemory};
ghost use Rattle.checked_sql.specs.Sound.{are_fit};
ghost use Rattle.checked_sql.specs.OfCatalogue.{is_of};
ghost use Rattle.checked_sql.specs.Binding.{bound_body, bound_cell, bound_read, bound_set, bound_statement};

use crate::bind_expr::{bound, bound_all, bound_maybe};
use catalogue::{
    CheckFault, Checked, CheckedBody, CheckedChange, CheckedInsert, CheckedRead, CheckedRemove,
    ColumnDesc, OrderKey, TypedCell, TypedSet,
};
use pg_values::Value;
use pool_base::{List, NoMemory as Full};

fn bound_cell(values: &[Value], cell: &TypedCell) -> Result<TypedCell, Full>
    ensures { IfOk result (λ c. c ≡ bound_cell values.now cell.now) }
{
    match cell {
        TypedCell::Serial => Ok(TypedCell::Serial),
        TypedCell::Now => Ok(TypedCell::Now),
        TypedCell::Given(expr) => Ok(TypedCell::Given(bound(values, expr)?)),
    }
}

fn bound_row(values: &[Value], cells: &List<TypedCell>) -> Result<List<TypedCell>, Full>
    ensures { IfOk result (λ row. row ≡ map (bound_cell values.now) cells.now) }
{
    let mut made = List::new(cells.allocator());
    for cell in cells.as_slice() {
        made.push(bound_cell(values, cell)?)?;
    }
    Ok(made)
}

fn bound_rows(values: &[Value], rows: &List<List<TypedCell>>) -> Result<List<List<TypedCell>>, Full>
    ensures { IfOk result (λ made. made ≡ map (map (bound_cell values.now)) rows.now) }
{
    let mut made = List::new(rows.allocator());
    for row in rows.as_slice() {
        made.push(bound_row(values, row)?)?;
    }
    Ok(made)
}

fn bound_sets(values: &[Value], sets: &List<TypedSet>) -> Result<List<TypedSet>, Full>
    ensures { IfOk result (λ made. made ≡ map (bound_set values.now) sets.now) }
{
    let mut made = List::new(sets.allocator());
    for set in sets.as_slice() {
        made.push(TypedSet {
            column: set.column,
            expr: bound(values, &set.expr)?,
        })?;
    }
    Ok(made)
}

fn copied_order(order: &List<OrderKey>) -> Result<List<OrderKey>, Full>
    ensures { IfOk result (λ made. made ≡ order.now) }
{
    let mut made = List::new(order.allocator());
    for key in order.as_slice() {
        made.push(*key)?;
    }
    Ok(made)
}

fn copied_columns(columns: &List<ColumnDesc>) -> Result<List<ColumnDesc>, Full>
    ensures { IfOk result (λ made. made ≡ columns.now) }
{
    let mut made = List::new(columns.allocator());
    for column in columns.as_slice() {
        let name = column.name.clone()?;
        made.push(ColumnDesc {
            name,
            kind: column.kind,
        })?;
    }
    Ok(made)
}

fn bound_read(values: &[Value], read: &CheckedRead) -> Result<CheckedRead, Full>
    ensures { IfOk result (λ r. r ≡ bound_read values.now read.now) }
{
    let list = bound_all(values, &read.list)?;
    let order = copied_order(&read.order)?;
    let filter = bound_maybe(values, &read.filter)?;
    match bound_maybe(values, &read.limit) {
        Ok(limit) => Ok(CheckedRead {
            table: read.table,
            count: read.count,
            list,
            filter,
            order,
            limit,
            for_update: read.for_update,
        }),
        Err(full) => {
            drop(filter);
            Err(full)
        }
    }
}

fn bound_body(values: &[Value], body: &CheckedBody) -> Result<CheckedBody, Full>
    ensures { IfOk result (λ b. b ≡ bound_body values.now body.now) }
{
    match body {
        CheckedBody::Read(read) => Ok(CheckedBody::Read(bound_read(values, read)?)),
        CheckedBody::Insert(insert) => Ok(CheckedBody::Insert(CheckedInsert {
            table: insert.table,
            rows: bound_rows(values, &insert.rows)?,
        })),
        CheckedBody::Change(change) => Ok(CheckedBody::Change(CheckedChange {
            table: change.table,
            sets: bound_sets(values, &change.sets)?,
            filter: bound_maybe(values, &change.filter)?,
        })),
        CheckedBody::Remove(remove) => Ok(CheckedBody::Remove(CheckedRemove {
            table: remove.table,
            filter: bound_maybe(values, &remove.filter)?,
        })),
    }
}

/// The statement with values in place of its parameters, of which it has none left. In all else it
/// is the same. A parameter for which there is no value stays.
pub fn bind(checked: &Checked, values: &[Value]) -> Result<Checked, CheckFault>
    ensures bound { IfOk result (λ made. made ≡ bound_statement values.now checked.now) }
    // With values that fit, it is still of the tables that it is of. No type of a parameter is
    // left, so no parameter is.
    ensures kept { IfOk result (λ made. (tables : Sequence TableDef)
        → is_of tables checked.now ≡ true → are_fit checked.now.kinds values.now ≡ true
        → is_of tables made ≡ true) }

    // Memory was refused.
    ensures refused { IfErr result (λ fault. fault ≡ NoMemory) }
{
    let columns = copied_columns(&checked.columns)?;
    let body = bound_body(values, &checked.body)?;
    Ok(Checked {
        body,
        columns,
        kinds: List::new(checked.kinds.allocator()),
    })
}
