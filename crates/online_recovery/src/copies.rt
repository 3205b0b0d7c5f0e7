//! The statements of a copy.
ghost use Rattle.std.specs.Prelude.{◌≡◌, ◌≤◌, ◌+◌, ◌++◌, IfOk, OnOk, length, map, slice_get};
ghost use Rattle.catalogue.specs.Statements.{columns_from, column_desc};
ghost use Rattle.sql_eval.specs.Views.{columns_of};
ghost use Rattle.online_recovery.specs.Copies.{key_of, all_rows_in, no_rows_in, cells_of, row_into, row_in};

use catalogue::{
    Checked, CheckedBody, CheckedInsert, CheckedRead, CheckedRemove, ColumnDesc, OrderKey,
    TypedCell, TypedExpr, TypedForm,
};
use pg_values::Value;
use pool_base::{List, NoMemory};
use schema::{Catalogue, ColumnDef};
use sql_eval::Row;
use std::alloc::Global;

/// The columns of a table.
fn columns_of(tables: &Catalogue, number: u8) -> &[ColumnDef]
    ensures { result.now ≡ columns_of (slice_get tables.now number) }
{
    match tables.table(number) {
        None => &[],
        Some(table) => table.columns.as_slice(),
    }
}

fn key_of(tables: &Catalogue, number: u8) -> u8
    ensures { result ≡ key_of (slice_get tables.now number) }
{
    match tables.table(number) {
        None => 0,
        Some(table) => table.key,
    }
}

/// The columns, counted from a number on, behind those that there are.
fn put_columns(
    made: &mut List<TypedExpr>,
    columns: &[ColumnDef],
    number: u8,
) -> Result<(), NoMemory>
    requires { number + length columns.now ≤ 32 }
    ensures { OnOk result (made.new ≡ made.old ++ columns_from number columns.now) }
{
    let [column, others @ ..] = columns else {
        return Ok(());
    };
    made.push(TypedExpr {
        kind: column.kind,
        form: TypedForm::Column(number),
    })?;
    put_columns(made, others, number + 1)
}

/// The columns as those of a result.
fn described(alloc: Global, columns: &[ColumnDef]) -> Result<List<ColumnDesc>, NoMemory>
    ensures { IfOk result (λ made. made ≡ map (λ c. column_desc c.name c.kind) columns.now) }
{
    let mut made = List::new(alloc);
    for column in columns {
        let name = column.name.clone()?;
        made.push(ColumnDesc {
            name,
            kind: column.kind,
        })?;
    }
    Ok(made)
}

/// All columns of a table.
fn all_columns(alloc: Global, columns: &[ColumnDef]) -> Result<List<TypedExpr>, NoMemory>
    requires { length columns.now ≤ 32 }
    ensures { IfOk result (λ made. made ≡ columns_from 0 columns.now) }
{
    let mut made = List::new(alloc);
    put_columns(&mut made, columns, 0)?;
    Ok(made)
}

/// The key, rising.
fn by_key(alloc: Global, key: u8) -> Result<List<OrderKey>, NoMemory>
    ensures { IfOk result (λ made. made ≡ Rattle.online_recovery.specs.Copies.by_key key) }
{
    let mut order = List::new(alloc);
    order.push(OrderKey {
        column: key,
        falling: false,
    })?;
    Ok(order)
}

/// All rows of a table, with all its columns.
pub(crate) fn all_rows_in(
    alloc: Global,
    tables: &Catalogue,
    number: u8,
) -> Result<Checked, NoMemory>
    requires { length (columns_of (slice_get tables.now number)) ≤ 32 }
    ensures { IfOk result (λ made. made ≡ all_rows_in tables.now number) }
{
    let columns = columns_of(tables, number);
    let order = by_key(alloc, key_of(tables, number))?;
    let described = described(alloc, columns)?;
    let list = all_columns(alloc, columns)?;
    Ok(Checked {
        body: CheckedBody::Read(CheckedRead {
            table: Some(number),
            count: false,
            list,
            filter: None,
            order,
            limit: None,
            for_update: false,
        }),
        columns: described,
        kinds: List::new(alloc),
    })
}

/// No row is left in a table. It takes no memory.
pub(crate) fn no_rows_in(alloc: Global, number: u8) -> Checked
    ensures { result ≡ no_rows_in number }
{
    Checked {
        body: CheckedBody::Remove(CheckedRemove {
            table: number,
            filter: None,
        }),
        columns: List::new(alloc),
        kinds: List::new(alloc),
    }
}

/// Each value as a literal of its column's type, behind those that there are.
fn put_cells(
    made: &mut List<TypedCell>,
    columns: &[ColumnDef],
    values: &[Value],
) -> Result<(), NoMemory>
    ensures { OnOk result (made.new ≡ made.old ++ cells_of columns.now values.now) }
{
    let [column, columns @ ..] = columns else {
        return Ok(());
    };
    let [value, values @ ..] = values else {
        return Ok(());
    };
    made.push(TypedCell::Given(TypedExpr {
        kind: column.kind,
        form: TypedForm::Literal(value.clone()?),
    }))?;
    put_cells(made, columns, values)
}

fn cells_of(
    alloc: Global,
    columns: &[ColumnDef],
    values: &[Value],
) -> Result<List<TypedCell>, NoMemory>
    ensures { IfOk result (λ made. made ≡ cells_of columns.now values.now) }
{
    let mut made = List::new(alloc);
    put_cells(&mut made, columns, values)?;
    Ok(made)
}

/// A row of these values comes into a table.
pub(crate) fn row_into(
    alloc: Global,
    tables: &Catalogue,
    number: u8,
    values: &[Value],
) -> Result<Checked, NoMemory>
    ensures { IfOk result (λ made. made ≡ row_into tables.now number values.now) }
{
    let mut rows = List::new(alloc);
    rows.push(cells_of(alloc, columns_of(tables, number), values)?)?;
    Ok(Checked {
        body: CheckedBody::Insert(CheckedInsert {
            table: number,
            rows,
        }),
        columns: List::new(alloc),
        kinds: List::new(alloc),
    })
}

/// The values of the row behind which so many are left.
pub(crate) fn row_in(rows: &[Row], left: usize) -> &[Value]
    ensures { result.now ≡ row_in rows.now left }
{
    match rows.get(rows.len().saturating_sub(1).saturating_sub(left)) {
        None => &[],
        Some(row) => row.cells.as_slice(),
    }
}
