//! INSERT.
ghost use Rattle.std.specs.Prelude.{◌≡◌, ◌≤◌, [], ◌∷◌, ◌++◌, IfOk, length, map, set, suc, slice_get};
ghost use Rattle.std.specs.Option.{option_map};
ghost use Rattle.typed_sql.specs.Meaning.{Finds, scope_of};
ghost use Rattle.typed_sql.specs.Steps.{Answers, Each, Walk};
ghost use Rattle.catalogue.specs.Statements.{CellAt, CellIn, ColumnsOf, InsertInto, Name, RowOf, column_at, default_cell, first_columns, first_length, numbered_from, put_cells, whole_row};
ghost use Rattle.catalogue.specs.Targets.{target_of};

use crate::checked::{CheckedBody, CheckedInsert, ColumnDesc, TypedCell};
use pg_values::{ColType, Value};
use pool_base::{List, NoMemory, Text};
use schema::{ColumnDef, Fill, TableDef};
use sql_tree::{Cell, Insert};
use std::alloc::{AllocError, Global};
use std::mem;
use typed_sql::{
    Check, CheckFault, Known, Scope, TypedExpr, TypedForm, asks_column, column_twice, typed_at,
    wrong_number,
};

/// A column that is given values, and its number.
#[derive(Clone, Copy)]
pub(crate) struct Target<'a> {
    pub(crate) number: u8,
    pub(crate) column: &'a ColumnDef,
}

/// What a column's cell has that is left out.
fn default_cell(column: &ColumnDef) -> Result<TypedCell, AllocError>
    ensures { IfOk result (λ cell. cell ≡ default_cell column.now) }
{
    let value = match &column.fill {
        Fill::Serial => return Ok(TypedCell::Serial),
        Fill::Now => return Ok(TypedCell::Now),
        Fill::Nothing => Value::Null,
        Fill::Constant(value) => value.clone()?,
    };
    Ok(TypedCell::Given(TypedExpr {
        kind: column.kind,
        form: TypedForm::Literal(value),
    }))
}

/// A cell, whose column is given.
fn cell_in(
    check: &Check<'_>,
    column: &ColumnDef,
    cell: &Cell,
    known: &mut Known,
) -> Result<TypedCell, CheckFault>
    ensures { Answers (λ c. c) result known.new.items
        (CellIn (scope_of check.now.scope) column.now cell.now known.old.items) }
{
    match cell {
        Cell::Fill => Ok(default_cell(column)?),
        Cell::Given(expr) => {
            let typed = typed_at(check, asks_column(column.kind), expr, known)?;
            Ok(TypedCell::Given(typed))
        }
    }
}

/// A cell at its place: one too many has no column.
fn cell_at(
    check: &Check<'_>,
    target: Option<&Target<'_>>,
    cell: &Cell,
    known: &mut Known,
) -> Result<TypedCell, CheckFault>
    ensures { Answers (λ c. c) result known.new.items
        (CellAt (scope_of check.now.scope) (option_map (λ t. t.now.column.now) target.entry)
        cell.now known.old.items) }
{
    match target {
        Some(target) => cell_in(check, target.column, cell, known),
        None => Err(wrong_number(check.alloc)),
    }
}

/// The column at a place, if there is one.
fn target_at<'a, 'b>(given: &'b [Target<'a>], at: usize) -> Option<&'b Target<'a>>
    ensures { option_map (λ t. t.now) result ≡ slice_get given.now at }
{
    given.get(at)
}

/// The cells of a row, up to the first that is one too many.
fn cells_of(
    check: &Check<'_>,
    given: &[Target<'_>],
    row: &[Cell],
    known: &mut Known,
) -> Result<List<TypedCell>, CheckFault>
    ensures { Answers (λ cells. cells) result known.new.items
        (Walk (λ at cell. CellAt (scope_of check.now.scope) (column_at (slice_get
        (map target_of given.now) at)) cell)
        (λ at cell. suc at) 0 row.now known.old.items) }
{
    let mut cells = List::new(check.alloc);
    for cell in row {
        let target = target_at(given, cells.len());
        let made = cell_at(check, target, cell, known)?;
        cells.push(made)?;
    }
    Ok(cells)
}

/// What each column of a table is filled with.
fn default_cells(alloc: Global, columns: &[ColumnDef]) -> Result<Vec<TypedCell>, NoMemory>
    ensures { IfOk result (λ cells. cells.items ≡ map default_cell columns.now) }
{
    let mut cells = Vec::new(alloc);
    for column in columns {
        let cell = default_cell(column)?;
        cells.push(cell)?;
    }
    Ok(cells)
}

/// Puts a cell at a column's number.
fn put_cell(row: &mut Vec<TypedCell>, number: u8, cell: TypedCell)
    ensures { row.new.items ≡ set row.old.items number cell }
{
    match row.get_mut(number as usize) {
        Some(place) => drop(mem::replace(place, cell)),
        None => drop(cell),
    }
}

/// Puts cells at their columns.
fn put_cells(given: &[Target<'_>], cells: List<TypedCell>, row: &mut Vec<TypedCell>)
    ensures { row.new.items ≡ put_cells (map target_of given.now) cells row.old.items }
{
    let mut left = cells.into_vec().into_iter();
    for target in given {
        match left.next() {
            Some(cell) => put_cell(row, target.number, cell),
            None => return,
        }
    }
}

/// A row with its cells at their columns, if there is one for each.
fn whole_row(
    alloc: Global,
    columns: &[ColumnDef],
    given: &[Target<'_>],
    cells: List<TypedCell>,
) -> Result<List<TypedCell>, CheckFault>
    ensures { Finds (λ row. row) result (whole_row columns.now (map target_of given.now) cells) }
{
    if cells.len() != given.len() {
        return Err(wrong_number(alloc));
    }
    let mut row = default_cells(alloc, columns)?;
    put_cells(given, cells, &mut row);
    Ok(List::from_vec(row))
}

/// A row.
fn row_of(
    check: &Check<'_>,
    columns: &[ColumnDef],
    given: &[Target<'_>],
    row: &[Cell],
    known: &mut Known,
) -> Result<List<TypedCell>, CheckFault>
    ensures { Answers (λ r. r) result known.new.items
        (RowOf (scope_of check.now.scope) columns.now (map target_of given.now) row.now
        known.old.items) }
{
    let cells = cells_of(check, given, row, known)?;
    whole_row(check.alloc, columns, given, cells)
}

/// The rows, up to the first fault.
fn rows_of(
    check: &Check<'_>,
    columns: &[ColumnDef],
    given: &[Target<'_>],
    rows: &[List<Cell>],
    known: &mut Known,
) -> Result<List<List<TypedCell>>, CheckFault>
    ensures { Answers (λ rs. rs) result known.new.items
        (Each (RowOf (scope_of check.now.scope) columns.now (map target_of given.now)) rows.now
        known.old.items) }
{
    let mut made = List::new(check.alloc);
    for row in rows {
        let cells = row.as_slice();
        let filled = row_of(check, columns, given, cells, known)?;
        made.push(filled)?;
    }
    Ok(made)
}

/// A column of that name, behind others that were named.
fn name_of<'a>(
    check: &Check<'a>,
    before: &[u8],
    name: &Text,
    known: &[Option<ColType>],
) -> Result<Target<'a>, CheckFault>
    ensures { Answers target_of result known.now
        (Name (scope_of check.now.scope) before.now name.now known.now) }
{
    let (number, column) = check.scope.column_meant(&None, name)?;
    if before.contains(&number) {
        return Err(column_twice(name));
    }
    Ok(Target { number, column })
}

/// The columns that are named.
fn names_of<'a>(
    check: &Check<'a>,
    names: &[Text],
    known: &[Option<ColType>],
) -> Result<List<Target<'a>>, CheckFault>
    ensures { Answers (λ given. map target_of given) result known.now
        (Walk (Name (scope_of check.now.scope)) (λ before x. before ++ x.0 ∷ []) [] names.now
        known.now) }
{
    let mut before = List::new(check.alloc);
    let mut given = List::new(check.alloc);
    for name in names {
        let target = name_of(check, before.as_slice(), name, known)?;
        before.push(target.number)?;
        given.push(target)?;
    }
    Ok(given)
}

/// How many cells the first row has.
fn first_length(rows: &[List<Cell>]) -> usize
    ensures { result ≡ first_length rows.now }
{
    match rows {
        [] => 0,
        [row, ..] => row.len(),
    }
}

/// Columns with their numbers, from 0 on.
fn numbered<'a>(alloc: Global, columns: &'a [ColumnDef]) -> Result<List<Target<'a>>, NoMemory>
    requires { length columns.now ≤ 32 }
    ensures { IfOk result (λ given. map target_of given ≡ numbered_from 0 columns.now) }
{
    let mut given = List::new(alloc);
    let mut number = 0;
    for column in columns {
        given.push(Target { number, column })?;
        number += 1;
    }
    Ok(given)
}

/// The first columns, as many as the first row has cells.
fn first_columns<'a>(
    alloc: Global,
    columns: &'a [ColumnDef],
    rows: &[List<Cell>],
) -> Result<List<Target<'a>>, NoMemory>
    requires { length columns.now ≤ 32 }
    ensures { IfOk result (λ given. map target_of given ≡ first_columns columns.now rows.now) }
{
    let count = first_length(rows).min(columns.len());
    numbered(alloc, &columns[..count])
}

/// The columns that are given values: those that are named, and else the first ones.
fn columns_of<'a>(
    check: &Check<'a>,
    columns: &'a [ColumnDef],
    insert: &Insert,
    known: &[Option<ColType>],
) -> Result<List<Target<'a>>, CheckFault>
    requires { length columns.now ≤ 32 }
    ensures { Answers (λ given. map target_of given) result known.now
        (ColumnsOf (scope_of check.now.scope) columns.now insert.now insert.now.columns
        known.now) }
{
    match &insert.columns {
        Some(names) => names_of(check, names.as_slice(), known),
        None => Ok(first_columns(check.alloc, columns, insert.rows.as_slice())?),
    }
}

/// What an INSERT into a table is.
pub(crate) fn insert_of(
    alloc: Global,
    parameters: bool,
    insert: &Insert,
    table: (u8, &TableDef),
    known: &mut Known,
) -> Result<(CheckedBody, List<ColumnDesc>), CheckFault>
    requires { length table.1.now.columns ≤ 32 }
    ensures { Answers (λ b. b) result known.new.items
        (InsertInto parameters insert.now (table.entry.0, table.entry.1.now) known.old.items) }
{
    let (number, table) = table;
    let columns = table.columns.as_slice();
    let named = Check {
        alloc,
        scope: Scope::over(table, parameters),
    };
    let kinds = known.as_slice();
    let given = columns_of(&named, columns, insert, kinds)?;
    let check = Check {
        alloc,
        scope: Scope::beside(table, parameters),
    };
    let targets = given.as_slice();
    let cells = insert.rows.as_slice();
    let rows = rows_of(&check, columns, targets, cells, known)?;
    let insert = CheckedInsert {
        table: number,
        rows,
    };
    Ok((CheckedBody::Insert(insert), List::new(alloc)))
}
