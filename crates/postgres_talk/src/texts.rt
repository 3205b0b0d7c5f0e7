//! The texts of requests that are no statement of a client.
ghost use Rattle.std.specs.Prelude.{◌≡◌, IfOk, slice_get};
ghost use Rattle.postgres_talk.specs.Texts.{lock_at, read_by, sequence_of, set_by};

use catalogue::Catalogue;
use pool_base::{NoMemory, Text};
use sql_print::{push_name, push_string};
use std::alloc::Global;

/// `LOCK TABLE name IN SHARE ROW EXCLUSIVE MODE`. None: there is no such table.
pub(crate) fn lock_text(
    alloc: Global,
    tables: &Catalogue,
    table: u8,
) -> Result<Option<Text>, NoMemory>
    ensures { IfOk result (λ text. text ≡ lock_at (slice_get tables.now table)) }
{
    let Some(found) = tables.table(table) else {
        return Ok(None);
    };
    let mut text = String::from_str(alloc, "LOCK TABLE ")?;
    push_name(found.name.as_str(), &mut text)?;
    text.push_str(" IN SHARE ROW EXCLUSIVE MODE")?;
    Ok(Some(Text::from_string(text)))
}

/// The name of the sequence of a table's serial column: the table, the column and `seq`.
fn sequence(alloc: Global, tables: &Catalogue, table: u8) -> Result<Option<Text>, NoMemory>
    ensures { IfOk result (λ name. name ≡ sequence_of (slice_get tables.now table)) }
{
    let Some(found) = tables.table(table) else {
        return Ok(None);
    };
    let Some(serial) = found.serial else {
        return Ok(None);
    };
    let Some(column) = found.columns.get(serial as usize) else {
        return Ok(None);
    };
    let mut name = String::from_str(alloc, found.name.as_str())?;
    name.push_str("_")?;
    name.push_str(column.name.as_str())?;
    name.push_str("_seq")?;
    Ok(Some(Text::from_string(name)))
}

/// `SELECT last_value, is_called FROM sequence`. None: the table has no serial column.
pub(crate) fn read_serial_text(
    alloc: Global,
    tables: &Catalogue,
    table: u8,
) -> Result<Option<Text>, NoMemory>
    ensures { IfOk result (λ text. text ≡ read_by (sequence_of (slice_get tables.now table))) }
{
    let Some(name) = sequence(alloc, tables, table)? else {
        return Ok(None);
    };
    let mut text = String::from_str(alloc, "SELECT last_value, is_called FROM ")?;
    push_name(name.as_str(), &mut text)?;
    Ok(Some(Text::from_string(text)))
}

/// `SELECT setval('sequence', next, false)`. None: the table has no serial column.
pub(crate) fn set_serial_text(
    alloc: Global,
    tables: &Catalogue,
    table: u8,
    next: i64,
) -> Result<Option<Text>, NoMemory>
    ensures { IfOk result (λ text. text ≡ set_by (sequence_of (slice_get tables.now table)) next) }
{
    let Some(name) = sequence(alloc, tables, table)? else {
        return Ok(None);
    };
    let mut quoted = String::new(alloc);
    push_name(name.as_str(), &mut quoted)?;
    let mut text = String::from_str(alloc, "SELECT setval(")?;
    push_string(quoted.as_str(), &mut text)?;
    let number = format!(in alloc; "{next}")?;
    text.push_str(", ")?;
    text.push_str(number.as_str())?;
    text.push_str(", false)")?;
    Ok(Some(Text::from_string(text)))
}
