//! The names that a statement is written with.
ghost use Rattle.std.specs.Prelude.{◌≡◌, IfOk};
ghost use Rattle.std.specs.Option.{option_map};
ghost use Rattle.checked_print.specs.Spelled.{name_at};
ghost use Rattle.checked_print.specs.Statements.{column_names, columns_of, name_of, table_columns, table_name};

use catalogue::{Catalogue, ColumnDef, TableDef};
use pool_base::{List, NoMemory, Text};
use std::alloc::Global;

/// Where a statement's memory comes from, and the columns that its expressions name.
#[derive(Clone, Copy)]
pub(crate) struct Speller<'a> {
    pub(crate) alloc: Global,
    pub(crate) columns: &'a [ColumnDef],
}

/// The name of the column of that number; where there is none it is empty.
pub(crate) fn name_at(speller: &Speller<'_>, number: u8) -> Result<Text, NoMemory>
    ensures { IfOk result (λ name. name ≡ name_at speller.now.columns.now number) }
{
    match speller.columns.get(number as usize) {
        Some(column) => Ok(column.name.clone()?),
        None => Text::from_str(speller.alloc, ""),
    }
}

/// The name of a table; where there is none it is empty.
fn name_of(alloc: Global, table: Option<&TableDef>) -> Result<Text, NoMemory>
    ensures { IfOk result (λ name. name ≡ name_of (option_map (λ t. t.now) table.entry)) }
{
    match table {
        Some(table) => Ok(table.name.clone()?),
        None => Text::from_str(alloc, ""),
    }
}

pub(crate) fn table_name(alloc: Global, tables: &Catalogue, number: u8) -> Result<Text, NoMemory>
    ensures { IfOk result (λ name. name ≡ table_name tables.now number) }
{
    name_of(alloc, tables.table(number))
}

/// The columns of the table of that number; where there is none it has none.
pub(crate) fn table_columns(tables: &Catalogue, number: u8) -> &[ColumnDef]
    ensures { result.now ≡ table_columns tables.now number }
{
    match tables.table(number) {
        Some(table) => table.columns.as_slice(),
        None => &[],
    }
}

/// The names of all columns.
pub(crate) fn column_names(speller: &Speller<'_>) -> Result<List<Text>, NoMemory>
    ensures { IfOk result (λ names. names ≡ column_names speller.now.columns.now) }
{
    let mut made = List::new(speller.alloc);
    for column in speller.columns {
        let name = column.name.clone()?;
        made.push(name)?;
    }
    Ok(made)
}
