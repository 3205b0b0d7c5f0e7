//! Statements at a moment.
ghost use Rattle.std.specs.Prelude.{◌≡◌, ◌↔◌, IfOk, OnOk, Err, true, map};
ghost use Rattle.pg_values.specs.Range.{IsMoment};
ghost use Rattle.pg_values.specs.declared.col_type.ColType.TheVariants as kind;
ghost use Rattle.pg_values.specs.declared.value.Value.TheVariants as value;
ghost use Rattle.typed_sql.specs.Typing.{literal};
ghost use Rattle.time_rewrite.specs.declared.fault.RewriteFault.TheVariants.{MomentOutOfRange};
ghost use Rattle.time_rewrite.specs.Rewriting.{cell_at, set_at, body_at, at_moment};
ghost use Rattle.time_rewrite.specs.Timeless.{is_timeless};

use crate::expression::{all_at, expr_at, some_at};
use crate::fault::RewriteFault;
use crate::moment::is_moment;
use catalogue::{
    Checked, CheckedBody, CheckedChange, CheckedInsert, CheckedRead, CheckedRemove, ColumnDesc,
    TypedCell, TypedSet,
};
use pg_values::{ColType, Value};
use pool_base::{List, NoMemory};
use typed_sql::{TypedExpr, TypedForm};

/// A statement at a moment: the moment stands in place of its time functions and of the cells that
/// take it, and all else stays.
///
/// Units: `moment` is in microseconds since 2000-01-01 00:00 UTC.
/// Source: PostgreSQL 15, "Date/Time Functions and Operators", "Current Date/Time": a transaction
/// has one moment. House rule: reads are rewritten too.
pub fn rewrite(checked: &Checked, moment: i64) -> Result<Checked, RewriteFault>
    ensures at { IfOk result (λ made. made ≡ at_moment moment checked.now) }
    ensures timeless { IfOk result (λ made. is_timeless made ≡ true) }
    ensures in_range { OnOk result (IsMoment moment) }
    ensures out_of_range { (result ≡ Err MomentOutOfRange) ↔ ¬ (IsMoment moment) }
{
    if !is_moment(moment) {
        return Err(RewriteFault::MomentOutOfRange);
    }
    Ok(checked_at(moment, checked)?)
}

fn checked_at(moment: i64, checked: &Checked) -> Result<Checked, NoMemory>
    ensures { IfOk result (λ made. made ≡ at_moment moment checked.now) }
{
    let kinds = kinds_again(&checked.kinds)?;
    let columns = columns_again(&checked.columns)?;
    let body = body_at(moment, &checked.body)?;
    Ok(Checked {
        body,
        columns,
        kinds,
    })
}

fn body_at(moment: i64, body: &CheckedBody) -> Result<CheckedBody, NoMemory>
    ensures { IfOk result (λ made. made ≡ body_at moment body.now) }
{
    match body {
        CheckedBody::Read(read) => {
            let list = all_at(moment, &read.list)?;
            let order = List::from_slice(read.order.allocator(), read.order.as_slice())?;
            let filter = some_at(moment, &read.filter)?;
            match some_at(moment, &read.limit) {
                Ok(limit) => Ok(CheckedBody::Read(CheckedRead {
                    table: read.table,
                    count: read.count,
                    list,
                    filter,
                    order,
                    limit,
                    for_update: read.for_update,
                })),
                Err(full) => {
                    drop(filter);
                    Err(full)
                }
            }
        }
        CheckedBody::Insert(insert) => Ok(CheckedBody::Insert(CheckedInsert {
            table: insert.table,
            rows: rows_at(moment, &insert.rows)?,
        })),
        CheckedBody::Change(change) => Ok(CheckedBody::Change(CheckedChange {
            table: change.table,
            sets: sets_at(moment, &change.sets)?,
            filter: some_at(moment, &change.filter)?,
        })),
        CheckedBody::Remove(remove) => Ok(CheckedBody::Remove(CheckedRemove {
            table: remove.table,
            filter: some_at(moment, &remove.filter)?,
        })),
    }
}

fn rows_at(moment: i64, rows: &List<List<TypedCell>>) -> Result<List<List<TypedCell>>, NoMemory>
    ensures { IfOk result (λ made. made ≡ map (map (cell_at moment)) rows.now) }
{
    let mut made = List::new(rows.allocator());
    for row in rows.as_slice() {
        made.push(row_at(moment, row)?)?;
    }
    Ok(made)
}

fn row_at(moment: i64, cells: &List<TypedCell>) -> Result<List<TypedCell>, NoMemory>
    ensures { IfOk result (λ made. made ≡ map (cell_at moment) cells.now) }
{
    let mut made = List::new(cells.allocator());
    for cell in cells.as_slice() {
        made.push(cell_at(moment, cell)?)?;
    }
    Ok(made)
}

fn cell_at(moment: i64, cell: &TypedCell) -> Result<TypedCell, NoMemory>
    ensures { IfOk result (λ made. made ≡ cell_at moment cell.now) }
{
    match cell {
        TypedCell::Serial => Ok(TypedCell::Serial),
        TypedCell::Now => Ok(TypedCell::Given(moment_literal(moment))),
        TypedCell::Given(expr) => Ok(TypedCell::Given(expr_at(moment, expr)?)),
    }
}

fn moment_literal(moment: i64) -> TypedExpr
    ensures { result ≡ literal kind.Moment (value.Moment moment) }
{
    TypedExpr {
        kind: ColType::Moment,
        form: TypedForm::Literal(Value::Moment(moment)),
    }
}

fn sets_at(moment: i64, sets: &List<TypedSet>) -> Result<List<TypedSet>, NoMemory>
    ensures { IfOk result (λ made. made ≡ map (set_at moment) sets.now) }
{
    let mut made = List::new(sets.allocator());
    for set in sets.as_slice() {
        made.push(TypedSet {
            column: set.column,
            expr: expr_at(moment, &set.expr)?,
        })?;
    }
    Ok(made)
}

fn column_again(column: &ColumnDesc) -> Result<ColumnDesc, NoMemory>
    ensures { IfOk result (λ made. made ≡ column.now) }
{
    let name = column.name.clone()?;
    Ok(ColumnDesc {
        name,
        kind: column.kind,
    })
}

fn columns_again(columns: &List<ColumnDesc>) -> Result<List<ColumnDesc>, NoMemory>
    ensures { IfOk result (λ made. made ≡ columns.now) }
{
    let mut made = List::new(columns.allocator());
    for column in columns.as_slice() {
        made.push(column_again(column)?)?;
    }
    Ok(made)
}

fn kinds_again(kinds: &List<ColType>) -> Result<List<ColType>, NoMemory>
    ensures { IfOk result (λ made. made ≡ kinds.now) }
{
    List::from_slice(kinds.allocator(), kinds.as_slice())
}
