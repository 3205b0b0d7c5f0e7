//! Copies of catalogues.
ghost use Rattle.std.specs.Prelude.{◌≡◌, IfOk};

use named_list::NamedList;
use pool_base::NoMemory;
use schema::{Catalogue, ColumnDef, Fill, TableDef};
use std::alloc::Global;

/// A copy of a catalogue.
pub fn catalogue_copied(alloc: Global, catalogue: &Catalogue) -> Result<Catalogue, NoMemory>
    ensures { IfOk result (λ copy. copy ≡ catalogue.now) }
{
    Ok(Catalogue::new(tables_copied(alloc, catalogue.tables())?))
}

fn tables_copied(alloc: Global, tables: &[TableDef]) -> Result<NamedList<TableDef>, NoMemory>
    ensures { IfOk result (λ copy. copy ≡ tables.now) }
{
    let mut made = NamedList::new(alloc);
    for table in tables {
        made.push(table_copied(alloc, table)?)?;
    }
    Ok(made)
}

fn table_copied(alloc: Global, table: &TableDef) -> Result<TableDef, NoMemory>
    ensures { IfOk result (λ copy. copy ≡ table.now) }
{
    let name = table.name.clone()?;
    let columns = columns_copied(alloc, table.columns.as_slice())?;
    Ok(TableDef {
        name,
        columns,
        key: table.key,
        serial: table.serial,
    })
}

fn columns_copied(alloc: Global, columns: &[ColumnDef]) -> Result<NamedList<ColumnDef>, NoMemory>
    ensures { IfOk result (λ copy. copy ≡ columns.now) }
{
    let mut made = NamedList::new(alloc);
    for column in columns {
        made.push(column_copied(column)?)?;
    }
    Ok(made)
}

fn column_copied(column: &ColumnDef) -> Result<ColumnDef, NoMemory>
    ensures { IfOk result (λ copy. copy ≡ column.now) }
{
    let name = column.name.clone()?;
    let fill = fill_copied(&column.fill)?;
    Ok(ColumnDef {
        name,
        kind: column.kind,
        not_null: column.not_null,
        fill,
    })
}

fn fill_copied(fill: &Fill) -> Result<Fill, NoMemory>
    ensures { IfOk result (λ copy. copy ≡ fill.now) }
{
    match fill {
        Fill::Nothing => Ok(Fill::Nothing),
        Fill::Serial => Ok(Fill::Serial),
        Fill::Now => Ok(Fill::Now),
        Fill::Constant(value) => Ok(Fill::Constant(value.clone()?)),
    }
}
