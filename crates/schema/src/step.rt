//! Where a token leads the reader of a schema.
ghost use Rattle.std.specs.Prelude.{◌≡◌, ◌&&◌, IfOk, None, not, is_some, OnOk, option_map};
ghost use Rattle.schema.specs.Open.{has_table, has_column, empty_table, bare_column, may_take_type, may_take_key, may_take_fill, with_not_null, with_key, with_fill, fill_by, whole_column, number_or, with_column, whole_table};
ghost use Rattle.schema.specs.Steps.{Gives, create_at, table_at, table_name_at, columns_at, end_at, column_name_at, type_at, column_type_at, ended_at, part_at, null_at, key_at, filled, filled_with, is_now, value_at, number_at, open_at, close_at, column_at, step_at, when, with_tables};
ghost use Rattle.schema.specs.Values.{is_moment};

use crate::catalogue::{ColumnDef, Fill, TableDef};
use crate::column_type::{ColumnType, is_serial, kind_of, may_be_key, type_named};
use crate::constant::{is_moment, is_number, negated, number_value, truth_value};
use crate::fault::Stop;
use crate::open::{Due, OpenColumn, OpenTable, Place};
use named_list::NamedList;
use pg_values::{ColType, Value};
use pool_base::{NoMemory, Text};
use sql_tokens::{Mark, Name, Token, Word};
use std::alloc::Global;

/// A schema has at most so many tables.
const MOST_TABLES: usize = 64;

/// A table has at most so many columns.
const MOST_COLUMNS: usize = 32;

fn has_table(name: &str, tables: &NamedList<TableDef>) -> bool
    ensures { result ≡ has_table name.now tables.now }
{
    tables.has(name)
}

fn has_column(name: &str, columns: &NamedList<ColumnDef>) -> bool
    ensures { result ≡ has_column name.now columns.now }
{
    columns.has(name)
}

fn create(tables: &NamedList<TableDef>, token: &Token) -> Result<Place, Stop>
    ensures { Gives result (create_at tables.now token.now) }
{
    match token {
        Token::Word(Word::Create) if tables.len() < MOST_TABLES => Ok(Place::Table),
        _ => Err(Stop::Refused),
    }
}

fn table(token: &Token) -> Result<Place, Stop>
    ensures { Gives result (table_at token.now) }
{
    match token {
        Token::Word(Word::Table) => Ok(Place::TableName),
        _ => Err(Stop::Refused),
    }
}

fn table_name(tables: &NamedList<TableDef>, token: &Token) -> Result<Place, Stop>
    ensures { Gives result (table_name_at tables.now token.now) }
{
    match token {
        Token::Name(name) => {
            if has_table(name.text.as_str(), tables) {
                return Err(Stop::Refused);
            }
            Ok(Place::Columns(name.text.clone()?))
        }
        _ => Err(Stop::Refused),
    }
}

fn columns(alloc: Global, name: Text, token: &Token) -> Result<Place, Stop>
    ensures { Gives result (columns_at name token.now) }
{
    match token {
        Token::Mark(Mark::Open) => Ok(Place::ColumnName(OpenTable {
            name,
            columns: NamedList::new(alloc),
            key: None,
            serial: None,
        })),
        _ => Err(Stop::Refused),
    }
}

fn column_name(table: OpenTable, token: &Token) -> Result<Place, Stop>
    ensures { Gives result (column_name_at table token.now) }
{
    match token {
        Token::Name(name) => {
            let count = table.columns.len();
            if count >= MOST_COLUMNS || has_column(name.text.as_str(), &table.columns) {
                drop(table);
                return Err(Stop::Refused);
            }
            match name.text.clone() {
                Ok(name) => Ok(Place::ColumnType {
                    table,
                    number: count as u8,
                    name,
                }),
                Err(_) => {
                    drop(table);
                    Err(Stop::NoMemory)
                }
            }
        }
        _ => {
            drop(table);
            Err(Stop::Refused)
        }
    }
}

/// The type that a token names.
fn type_of(token: &Token) -> Option<ColumnType>
    ensures { result ≡ type_at token.now }
{
    match token {
        Token::Word(Word::Timestamptz) => Some(ColumnType::Moment),
        Token::Name(name) => {
            if name.quoted {
                return None;
            }
            type_named(name.text.as_str())
        }
        _ => None,
    }
}

fn column_type(table: OpenTable, number: u8, name: Text, token: &Token) -> Result<Place, Stop>
    ensures { Gives result (column_type_at table number name token.now) }
{
    let Some(kind) = type_of(token) else {
        drop(table);
        return Err(Stop::Refused);
    };
    if is_serial(kind) && table.serial.is_some() {
        drop(table);
        return Err(Stop::Refused);
    }
    let column = OpenColumn {
        number,
        name,
        kind,
        not_null: false,
        key: false,
        fill: None,
    };
    Ok(Place::Column {
        table,
        column,
        due: Due::Part,
    })
}

/// What a cell has that an INSERT leaves out.
fn fill_of(kind: ColumnType, fill: Option<Fill>) -> Fill
    ensures { result ≡ fill_by kind fill }
{
    if is_serial(kind) {
        return Fill::Serial;
    }
    match fill {
        Some(fill) => fill,
        None => Fill::Nothing,
    }
}

/// The column that was read.
fn whole_column(column: OpenColumn) -> ColumnDef
    ensures { result ≡ whole_column column }
{
    let OpenColumn {
        number: _,
        name,
        kind,
        not_null,
        key,
        fill,
    } = column;
    ColumnDef {
        name,
        kind: kind_of(kind),
        not_null: not_null || key || is_serial(kind),
        fill: fill_of(kind, fill),
    }
}

/// The number where the test holds, and else what was there.
fn number_or(test: bool, number: u8, other: Option<u8>) -> Option<u8>
    ensures { result ≡ number_or test number other }
{
    if test { Some(number) } else { other }
}

/// The table with one column more.
fn with_column(table: OpenTable, column: OpenColumn) -> Result<OpenTable, NoMemory>
    ensures { IfOk result (λ made. made ≡ with_column table column) }
{
    let key = number_or(column.key, column.number, table.key);
    let serial = number_or(is_serial(column.kind), column.number, table.serial);
    let OpenTable {
        name,
        mut columns,
        key: _,
        serial: _,
    } = table;
    columns.push(whole_column(column))?;
    Ok(OpenTable {
        name,
        columns,
        key,
        serial,
    })
}

/// The end of a table, which has a key.
fn ended(table: OpenTable) -> Result<Place, Stop>
    ensures { Gives result (ended_at table) }
{
    let Some(key) = table.key else {
        drop(table);
        return Err(Stop::Refused);
    };
    Ok(Place::End(TableDef {
        name: table.name,
        columns: table.columns,
        key,
        serial: table.serial,
    }))
}

/// PRIMARY KEY may stand there.
fn may_take_key(table: &OpenTable, column: &OpenColumn) -> bool
    ensures { result ≡ may_take_key table.now column.now }
{
    may_be_key(column.kind) && !(column.key || table.key.is_some())
}

/// DEFAULT may stand there.
fn may_take_fill(column: &OpenColumn) -> bool
    ensures { result ≡ may_take_fill column.now }
{
    !(is_serial(column.kind) || column.fill.is_some())
}

/// The token is refused behind the type of a column: what was read is let go.
fn refused(table: OpenTable, column: OpenColumn) -> Result<Place, Stop>
    ensures { Gives result None }
{
    drop(table);
    drop(column);
    Err(Stop::Refused)
}

/// The place behind a word that begins a part.
fn begun(table: OpenTable, column: OpenColumn, due: Due, may: bool) -> Result<Place, Stop>
    ensures { Gives result (when may (Place.Column table column due)) }
{
    if !may {
        return refused(table, column);
    }
    Ok(Place::Column { table, column, due })
}

fn part(table: OpenTable, column: OpenColumn, token: &Token) -> Result<Place, Stop>
    ensures { Gives result (part_at table column token.now) }
{
    match token {
        Token::Word(Word::Not) => {
            let may = !column.not_null;
            begun(table, column, Due::Null, may)
        }
        Token::Word(Word::Primary) => {
            let may = may_take_key(&table, &column);
            begun(table, column, Due::Key, may)
        }
        Token::Word(Word::Default) => {
            let may = may_take_fill(&column);
            begun(table, column, Due::Value, may)
        }
        Token::Mark(Mark::Comma) => Ok(Place::ColumnName(with_column(table, column)?)),
        Token::Mark(Mark::Close) => ended(with_column(table, column)?),
        _ => refused(table, column),
    }
}

fn null(table: OpenTable, mut column: OpenColumn, token: &Token) -> Result<Place, Stop>
    ensures { Gives result (null_at table column token.now) }
{
    match token {
        Token::Word(Word::Null) => {
            column.not_null = true;
            Ok(Place::Column {
                table,
                column,
                due: Due::Part,
            })
        }
        _ => refused(table, column),
    }
}

fn key(table: OpenTable, mut column: OpenColumn, token: &Token) -> Result<Place, Stop>
    ensures { Gives result (key_at table column token.now) }
{
    match token {
        Token::Word(Word::Key) => {
            column.key = true;
            Ok(Place::Column {
                table,
                column,
                due: Due::Part,
            })
        }
        _ => refused(table, column),
    }
}

/// The place behind a DEFAULT that was read.
fn filled(table: OpenTable, mut column: OpenColumn, fill: Fill) -> Place
    ensures { result ≡ filled table column fill }
{
    column.fill = Some(fill);
    Place::Column {
        table,
        column,
        due: Due::Part,
    }
}

/// The place behind a constant, if it is a value of the column's type.
fn filled_with(table: OpenTable, column: OpenColumn, value: Option<Value>) -> Result<Place, Stop>
    ensures { Gives result (filled_with table column value) }
{
    match value {
        Some(value) => Ok(filled(table, column, Fill::Constant(value))),
        None => refused(table, column),
    }
}

fn is_now(name: &Name) -> bool
    ensures { result ≡ is_now name.now }
{
    !name.quoted && name.text.as_str() == "now"
}

fn value(
    table: OpenTable,
    column: OpenColumn,
    read: Option<Value>,
    token: &Token,
) -> Result<Place, Stop>
    ensures { Gives result (value_at table column read token.now) }
{
    let kind = kind_of(column.kind);
    match token {
        Token::Number(number) => filled_with(table, column, number_value(kind, *number)),
        Token::Str(_) => filled_with(table, column, read),
        Token::Mark(Mark::Minus) => begun(table, column, Due::Number, is_number(kind)),
        Token::Word(Word::True) => filled_with(table, column, truth_value(kind, true)),
        Token::Word(Word::False) => filled_with(table, column, truth_value(kind, false)),
        Token::Word(Word::Null) => Ok(filled(table, column, Fill::Constant(Value::Null))),
        Token::Word(Word::CurrentTimestamp) => moment(table, column, kind),
        Token::Name(name) => begun(table, column, Due::Open, is_moment(kind) && is_now(name)),
        _ => refused(table, column),
    }
}

/// The place behind CURRENT_TIMESTAMP.
fn moment(table: OpenTable, column: OpenColumn, kind: ColType) -> Result<Place, Stop>
    ensures { Gives result (when
        (is_moment kind) (filled table column Fill.Now)) }
{
    if !is_moment(kind) {
        return refused(table, column);
    }
    Ok(filled(table, column, Fill::Now))
}

fn open(table: OpenTable, column: OpenColumn, token: &Token) -> Result<Place, Stop>
    ensures { Gives result (open_at table column token.now) }
{
    match token {
        Token::Mark(Mark::Open) => Ok(Place::Column {
            table,
            column,
            due: Due::Close,
        }),
        _ => refused(table, column),
    }
}

fn close(table: OpenTable, column: OpenColumn, token: &Token) -> Result<Place, Stop>
    ensures { Gives result (close_at table column token.now) }
{
    match token {
        Token::Mark(Mark::Close) => Ok(filled(table, column, Fill::Now)),
        _ => refused(table, column),
    }
}

/// What stands behind the type of a column.
fn column(
    table: OpenTable,
    column: OpenColumn,
    due: Due,
    read: Option<Value>,
    token: &Token,
) -> Result<Place, Stop>
    ensures { Gives result (column_at table column due read token.now) }
{
    match due {
        Due::Part => part(table, column, token),
        Due::Null => null(table, column, token),
        Due::Key => key(table, column, token),
        Due::Value => value(table, column, read, token),
        Due::Number => {
            let value = negated(kind_of(column.kind), token);
            filled_with(table, column, value)
        }
        Due::Open => open(table, column, token),
        Due::Close => close(table, column, token),
    }
}

/// The end of a table.
fn end(tables: &mut NamedList<TableDef>, table: TableDef, token: &Token) -> Result<Place, Stop>
    ensures { Gives (with_tables tables.new result)
        (option_map (λ more. (more, Place.Create)) (end_at tables.old table token.now)) }
{
    match token {
        Token::Mark(Mark::Semicolon) => {
            tables.push(table)?;
            Ok(Place::Create)
        }
        _ => Err(Stop::Refused),
    }
}

/// Where a token leads. `read` is what a string behind DEFAULT is read as.
pub(crate) fn step(
    alloc: Global,
    tables: &mut NamedList<TableDef>,
    place: Place,
    read: Option<Value>,
    token: &Token,
) -> Result<Place, Stop>
    ensures { Gives (with_tables tables.new result)
        (step_at tables.old place read token.now) }
{
    match place {
        Place::Create => create(tables, token),
        Place::Table => table(token),
        Place::TableName => table_name(tables, token),
        Place::Columns(name) => columns(alloc, name, token),
        Place::ColumnName(table) => column_name(table, token),
        Place::ColumnType {
            table,
            number,
            name,
        } => column_type(table, number, name, token),
        Place::Column {
            table,
            column: read_column,
            due,
        } => column(table, read_column, due, read, token),
        Place::End(table) => end(tables, table, token),
    }
}
