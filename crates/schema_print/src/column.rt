//! The text of a column.
ghost use Rattle.std.specs.Prelude.{◌≡◌, ◌++◌, OnOk, IfOk, Some, string_bytes};
ghost use Rattle.pg_values.specs.Text.{IsTextOf};
ghost use Rattle.schema_print.specs.Printed.{Adds, IsColumnText, IsConstantText, IsFillText, comma, kind_text, rule_text, serial_text, truth_text, type_text};
ghost use Rattle.schema.specs.Ranges.{IsConstantInRange, IsFillInRange, IsMomentInRange};
ghost use Rattle.schema.specs.Allowed.{is_serial};

use pg_values::{ColType, Value, text_of};
use pool_base::{NoMemory, Text};
use schema::{ColumnDef, Fill};
use sql_print::{push_name, push_string};
use std::alloc::Global;
use std::fmt::Write;

/// What stands before a column of that number.
pub(crate) fn push_comma(number: usize, onto: &mut String) -> Result<(), NoMemory>
    ensures { OnOk result (string_bytes onto.new ≡ string_bytes onto.old ++ comma number) }
{
    if number > 0 {
        onto.push_str(", ")?;
    }
    Ok(())
}

/// A column, which may be the key.
pub(crate) fn push_column(
    is_key: bool,
    column: &ColumnDef,
    onto: &mut String,
) -> Result<(), NoMemory>
    requires { IsFillInRange column.now.fill }
    ensures { OnOk result (Adds (string_bytes onto.old) (string_bytes onto.new)
        (λ text. IsColumnText is_key column.now text)) }
{
    push_name(column.name.as_str(), onto)?;
    onto.push_str(" ")?;
    onto.push_str(type_text(column))?;
    onto.push_str(rule_text(is_key, column))?;
    push_fill(&column.fill, onto)
}

/// The column has numbers of its own.
fn is_serial(fill: &Fill) -> bool
    ensures { result ≡ is_serial fill.now }
{
    match fill {
        Fill::Serial => true,
        Fill::Nothing | Fill::Now | Fill::Constant(_) => false,
    }
}

fn type_text(column: &ColumnDef) -> &'static str
    ensures { result.now ≡ type_text column.now }
{
    if is_serial(&column.fill) {
        serial_text(column.kind)
    } else {
        kind_text(column.kind)
    }
}

fn serial_text(kind: ColType) -> &'static str
    ensures { result.now ≡ serial_text kind }
{
    match kind {
        ColType::Int8 => "bigserial",
        ColType::Bool | ColType::Int4 | ColType::Text | ColType::Moment => "serial",
    }
}

fn kind_text(kind: ColType) -> &'static str
    ensures { result.now ≡ kind_text kind }
{
    match kind {
        ColType::Bool => "bool",
        ColType::Int4 => "int4",
        ColType::Int8 => "int8",
        ColType::Text => "text",
        ColType::Moment => "timestamptz",
    }
}

/// PRIMARY KEY or NOT NULL, where it is one of them.
fn rule_text(is_key: bool, column: &ColumnDef) -> &'static str
    ensures { result.now ≡ rule_text is_key column.now }
{
    if is_key {
        " PRIMARY KEY"
    } else if column.not_null && !is_serial(&column.fill) {
        " NOT NULL"
    } else {
        ""
    }
}

/// The DEFAULT, where there is one.
fn push_fill(fill: &Fill, onto: &mut String) -> Result<(), NoMemory>
    requires { IsFillInRange fill.now }
    ensures { OnOk result (Adds (string_bytes onto.old) (string_bytes onto.new)
        (λ text. IsFillText fill.now text)) }
{
    match fill {
        Fill::Nothing | Fill::Serial => Ok(()),
        Fill::Now => {
            onto.push_str(" DEFAULT now()")?;
            Ok(())
        }
        Fill::Constant(value) => {
            onto.push_str(" DEFAULT ")?;
            push_constant(value, onto)
        }
    }
}

fn push_constant(value: &Value, onto: &mut String) -> Result<(), NoMemory>
    requires { IsConstantInRange value.now }
    ensures { OnOk result (Adds (string_bytes onto.old) (string_bytes onto.new)
        (λ text. IsConstantText value.now text)) }
{
    match value {
        Value::Null => onto.push_str("NULL")?,
        Value::Bool(truth) => onto.push_str(truth_text(*truth))?,
        Value::Int4(number) => write!(onto, "{number}")?,
        Value::Int8(number) => write!(onto, "{number}")?,
        Value::Text(text) => push_string(text.as_str(), onto)?,
        Value::Moment(_) => push_moment(value, onto)?,
    }
    Ok(())
}

fn truth_text(truth: bool) -> &'static str
    ensures { result.now ≡ truth_text truth }
{
    if truth { "TRUE" } else { "FALSE" }
}

/// The text form of a moment, as a string.
fn push_moment(value: &Value, onto: &mut String) -> Result<(), NoMemory>
    requires { IsMomentInRange value.now }
    ensures { OnOk result (Adds (string_bytes onto.old) (string_bytes onto.new)
        (λ text. IsConstantText value.now text)) }
{
    let printed = moment_text(*onto.allocator(), value)?;
    push_string(printed.as_str(), onto)
}

/// The text form of a moment.
fn moment_text(alloc: Global, value: &Value) -> Result<Text, NoMemory>
    requires { IsMomentInRange value.now }
    ensures { IfOk result (λ text. IsTextOf value.now (Some text)) }
{
    match text_of(alloc, value)? {
        Some(text) => Ok(text),
        None => unreachable!(),
    }
}
