//! A table for trials, and statements over it.
ghost use Rattle.std.specs.Prelude.{IfOk};
ghost use Rattle.classifier.specs.Classes.{WritesOneOf64};
ghost use Rattle.schema.specs.Allowed.{AreAllowed};
ghost use Rattle.schema.specs.Ranges.{AreInRange};

use catalogue::{
    Catalogue, Checked, CheckedBody, CheckedChange, CheckedInsert, CheckedRead, CheckedRemove,
    ColumnDesc, OrderKey, SchemaFault, TypedCell, TypedExpr, TypedForm, TypedSet, read_schema,
};
use pg_values::{ColType, Value};
use pool_base::{Boxed, List, NoMemory, Text};
use sql_tree::Comparison;
use std::alloc::Global;

/// The number of the table.
const TABLE: u8 = 0;

/// The table `t`: the key `id` of serial, and `v` of int8.
pub fn trial_tables(alloc: Global) -> Result<Catalogue, NoMemory>
    ensures in_range { IfOk result (λ tables. AreInRange tables) }
    ensures allowed { IfOk result (λ tables. AreAllowed tables) }
{
    let text = "CREATE TABLE t (id serial PRIMARY KEY, v int8);\n";
    match read_schema(alloc, text.as_bytes()) {
        Ok(tables) => Ok(tables),
        Err(SchemaFault::NoMemory) => Err(NoMemory),
        Err(SchemaFault::BadLine(_)) => unreachable!(),
    }
}

fn literal(kind: ColType, value: Value) -> TypedExpr {
    TypedExpr {
        kind,
        form: TypedForm::Literal(value),
    }
}

fn column(kind: ColType, number: u8) -> TypedExpr {
    TypedExpr {
        kind,
        form: TypedForm::Column(number),
    }
}

/// An INSERT of one row of these cells.
fn insert_of_row(alloc: Global, cells: List<TypedCell>) -> Result<Checked, NoMemory>
    ensures { IfOk result (λ statement. WritesOneOf64 statement.body) }
{
    let mut rows = List::new(alloc);
    rows.push(cells)?;
    Ok(Checked {
        body: CheckedBody::Insert(CheckedInsert { table: TABLE, rows }),
        columns: List::new(alloc),
        kinds: List::new(alloc),
    })
}

/// `INSERT INTO t (id, v) VALUES (key, value)`
pub fn insert_of(alloc: Global, key: i32, value: i64) -> Result<Checked, NoMemory>
    ensures { IfOk result (λ statement. WritesOneOf64 statement.body) }
{
    let mut cells = List::new(alloc);
    cells.push(TypedCell::Given(literal(ColType::Int4, Value::Int4(key))))?;
    cells.push(TypedCell::Given(literal(ColType::Int8, Value::Int8(value))))?;
    insert_of_row(alloc, cells)
}

/// `INSERT INTO t (v) VALUES (value)`, whose key is drawn.
pub fn serial_insert_of(alloc: Global, value: i64) -> Result<Checked, NoMemory>
    ensures { IfOk result (λ statement. WritesOneOf64 statement.body) }
{
    let mut cells = List::new(alloc);
    cells.push(TypedCell::Serial)?;
    cells.push(TypedCell::Given(literal(ColType::Int8, Value::Int8(value))))?;
    insert_of_row(alloc, cells)
}

/// The two columns as a result has them.
fn described(alloc: Global) -> Result<List<ColumnDesc>, NoMemory> {
    let mut columns = List::new(alloc);
    columns.push(ColumnDesc {
        name: Text::from_str(alloc, "id")?,
        kind: ColType::Int4,
    })?;
    columns.push(ColumnDesc {
        name: Text::from_str(alloc, "v")?,
        kind: ColType::Int8,
    })?;
    Ok(columns)
}

/// `id = key`
fn key_is(alloc: Global, key: i32) -> Result<Option<TypedExpr>, NoMemory> {
    let id = Boxed::new(alloc, column(ColType::Int4, 0))?;
    let key = Boxed::new(alloc, literal(ColType::Int4, Value::Int4(key)))?;
    Ok(Some(TypedExpr {
        kind: ColType::Bool,
        form: TypedForm::Compare(Comparison::Equal, id, key),
    }))
}

/// `UPDATE t SET v = value WHERE id = key`
pub fn update_of(alloc: Global, key: i32, value: i64) -> Result<Checked, NoMemory>
    ensures { IfOk result (λ statement. WritesOneOf64 statement.body) }
{
    let mut sets = List::new(alloc);
    sets.push(TypedSet {
        column: 1,
        expr: literal(ColType::Int8, Value::Int8(value)),
    })?;
    Ok(Checked {
        body: CheckedBody::Change(CheckedChange {
            table: TABLE,
            sets,
            filter: key_is(alloc, key)?,
        }),
        columns: List::new(alloc),
        kinds: List::new(alloc),
    })
}

/// `DELETE FROM t WHERE id = key`
pub fn delete_of(alloc: Global, key: i32) -> Result<Checked, NoMemory>
    ensures { IfOk result (λ statement. WritesOneOf64 statement.body) }
{
    Ok(Checked {
        body: CheckedBody::Remove(CheckedRemove {
            table: TABLE,
            filter: key_is(alloc, key)?,
        }),
        columns: List::new(alloc),
        kinds: List::new(alloc),
    })
}

/// `SELECT id, v FROM t WHERE id = key`, with FOR UPDATE or without.
pub fn select_of(alloc: Global, key: i32, for_update: bool) -> Result<Checked, NoMemory>
    ensures { IfOk result (λ statement. WritesOneOf64 statement.body) }
{
    let mut list = List::new(alloc);
    list.push(column(ColType::Int4, 0))?;
    list.push(column(ColType::Int8, 1))?;
    let mut order = List::new(alloc);
    order.push(OrderKey {
        column: 0,
        falling: false,
    })?;
    let columns = described(alloc)?;
    Ok(Checked {
        body: CheckedBody::Read(CheckedRead {
            table: Some(TABLE),
            count: false,
            list,
            filter: key_is(alloc, key)?,
            order,
            limit: None,
            for_update,
        }),
        columns,
        kinds: List::new(alloc),
    })
}
