//! The text of a schema, table by table.
ghost use Rattle.std.specs.Prelude.{◌≡◌, IfOk, OnOk, string_bytes};
ghost use Rattle.schema.specs.Reading.{Says};
ghost use Rattle.schema.specs.Allowed.{AreAllowed};
ghost use Rattle.schema_print.specs.Printed.{Adds, AreColumnsText, IsSchemaText, IsTableText};
ghost use Rattle.schema.specs.Ranges.{AreColumnsInRange, AreInRange};

use crate::column::{push_column, push_comma};
use pool_base::{NoMemory, Text};
use schema::{Catalogue, ColumnDef, TableDef};
use sql_print::push_name;
use std::alloc::Global;

/// The one text of a schema. `tables_in_range` says that what was read has one.
///
/// Shape: docs/SCHEMAS.md, "The written form".
pub fn print_schema(alloc: Global, catalogue: &Catalogue) -> Result<Text, NoMemory>
    requires { AreInRange catalogue.now }
    ensures text { IfOk result (λ text. IsSchemaText catalogue.now text) }
    // Of tables that a schema can have it says these tables, so `read_schema` answers them.
    ensures read_back { IfOk result (λ text. AreAllowed catalogue.now → Says text catalogue.now) }
{
    let mut onto = String::new(alloc);
    push_tables(catalogue.tables(), &mut onto)?;
    Ok(Text::from_string(onto))
}

fn push_tables(tables: &[TableDef], onto: &mut String) -> Result<(), NoMemory>
    requires { AreInRange tables.now }
    ensures { OnOk result (Adds (string_bytes onto.old) (string_bytes onto.new)
        (λ text. IsSchemaText tables.now text)) }
{
    let mut left = tables;
    while let [table, rest @ ..] = left {
        push_table(table, onto)?;
        left = rest;
    }
    Ok(())
}

fn push_table(table: &TableDef, onto: &mut String) -> Result<(), NoMemory>
    requires { AreColumnsInRange table.now.columns }
    ensures { OnOk result (Adds (string_bytes onto.old) (string_bytes onto.new)
        (λ text. IsTableText table.now text)) }
{
    onto.push_str("CREATE TABLE ")?;
    push_name(table.name.as_str(), onto)?;
    onto.push_str(" (")?;
    push_columns(table.key, table.columns.as_slice(), onto)?;
    onto.push_str(");\n")?;
    Ok(())
}

fn push_columns(key: u8, columns: &[ColumnDef], onto: &mut String) -> Result<(), NoMemory>
    requires { AreColumnsInRange columns.now }
    ensures { OnOk result (Adds (string_bytes onto.old) (string_bytes onto.new)
        (λ text. AreColumnsText key 0 columns.now text)) }
{
    let mut number: usize = 0;
    let mut left = columns;
    while let [column, rest @ ..] = left {
        push_comma(number, onto)?;
        push_column(number == key as usize, column, onto)?;
        number += 1;
        left = rest;
    }
    Ok(())
}
