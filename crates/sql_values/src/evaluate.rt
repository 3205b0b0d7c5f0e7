//! What an expression comes to on a row: from left to right, up to the first fault.
ghost use Rattle.std.specs.Prelude.{◌≡◌, Ok, true, map, slice_get};
ghost use Rattle.sql_tree.specs.declared.expr.Comparison.TheVariants.{Equal};
ghost use Rattle.sql_values.specs.Outcome.{Gives, behind, made, or_null};
ghost use Rattle.sql_values.specs.Logic.{among, junction, opposite, opposite_if, tested};
ghost use Rattle.sql_values.specs.Arithmetic.{negative};
ghost use Rattle.sql_values.specs.Order.{compared};
ghost use Rattle.sql_values.specs.Meaning.{around_of, parameter_of, joined_to, sum_of, product_of, text_of, value_in};

use crate::arithmetic::{multiplied, negative, summed};
use crate::around::Around;
use crate::fault::ExprFault;
use crate::logic::{is_known, is_truth, opposite, opposite_if, tested};
use crate::order::{compared, is_null, joined};
use pg_values::Value;
use sql_tree::Comparison;
use typed_sql::{TypedExpr, TypedForm, TypedProductPart, TypedSumPart};

/// The value of that number, from 0, or Null where there is none.
fn value_at(values: &[Value], at: usize) -> Result<Value, ExprFault>
    ensures { Gives result (Ok (or_null (slice_get values.now at))) }
{
    match values.get(at) {
        Some(value) => Ok(value.clone()?),
        None => Ok(Value::Null),
    }
}

/// The value of a parameter, from 1, or Null where there is none.
fn parameter(parameters: &[Value], number: u32) -> Result<Value, ExprFault>
    ensures { Gives result (Ok (parameter_of parameters.now number)) }
{
    if number == 0 {
        return Ok(Value::Null);
    }
    value_at(parameters, number as usize - 1)
}

/// What an expression comes to on a row: its value, or the first fault of its evaluation from
/// left to right.
///
/// Errors: `22003` a number is out of the range of its type, `22012` a divisor is 0, `54000` a text
/// is longer than 1000000 bytes.
/// Source: PostgreSQL 15, "Value Expressions", "Logical Operators", "Mathematical Functions and
/// Operators".
#[cycle(value)]
#[tactic(auto, using(crate::proofs::Forms::forms))]
pub fn value_of(around: &Around<'_>, expr: &TypedExpr) -> Result<Value, ExprFault>
    ensures { Gives result (value_in (around_of around.now) expr.now) }
{
    match &expr.form {
        TypedForm::Or(parts) => junction(around, true, parts.as_slice()),
        TypedForm::And(parts) => junction(around, false, parts.as_slice()),
        TypedForm::Not(of) => negation(around, of.get()),
        TypedForm::IsNull { of, tests } => null_tests(around, of.get(), tests.as_slice()),
        TypedForm::Compare(how, left, right) => {
            let left = value_of(around, left.get())?;
            compared_with(around, *how, &left, right.get())
        }
        TypedForm::Member { of, negated, list } => {
            let of = value_of(around, of.get())?;
            found_among(around, *negated, &of, list.as_slice())
        }
        TypedForm::Concat(parts) => text_of(around, parts.as_slice()),
        TypedForm::Sum(first, parts) => {
            let first = value_of(around, first.get())?;
            sum_of(around, first, parts.as_slice())
        }
        TypedForm::Product(first, parts) => {
            let first = value_of(around, first.get())?;
            product_of(around, first, parts.as_slice())
        }
        TypedForm::Minus(of) => minus(around, of.get()),
        TypedForm::Literal(value) => Ok(value.clone()?),
        TypedForm::Param(number) => parameter(around.parameters, *number),
        TypedForm::Column(number) => value_at(around.row, *number as usize),
        TypedForm::CurrentTimestamp => Ok(Value::Moment(around.moment)),
        TypedForm::Now => Ok(Value::Moment(around.moment)),
        TypedForm::TransactionTimestamp => Ok(Value::Moment(around.moment)),
    }
}

#[cycle(value)]
fn negation(around: &Around<'_>, of: &TypedExpr) -> Result<Value, ExprFault>
    ensures { Gives result (made opposite (value_in (around_of around.now) of.now)) }
{
    let value = value_of(around, of)?;
    Ok(opposite(value))
}

#[cycle(value)]
fn null_tests(around: &Around<'_>, of: &TypedExpr, tests: &[bool]) -> Result<Value, ExprFault>
    ensures { Gives result (made (λ v. tested v tests.now)
        (value_in (around_of around.now) of.now)) }
{
    let value = value_of(around, of)?;
    Ok(tested(value, tests))
}

#[cycle(value)]
fn minus(around: &Around<'_>, of: &TypedExpr) -> Result<Value, ExprFault>
    ensures { Gives result (behind (value_in (around_of around.now) of.now) negative) }
{
    let value = value_of(around, of)?;
    negative(&value)
}

/// A comparison behind its left operand.
#[cycle(value)]
fn compared_with(
    around: &Around<'_>,
    how: Comparison,
    left: &Value,
    right: &TypedExpr,
) -> Result<Value, ExprFault>
    ensures { Gives result (made (compared how left.now)
        (value_in (around_of around.now) right.now)) }
{
    let value = value_of(around, right)?;
    Ok(compared(how, left, &value))
}

/// IN, and NOT IN where it is negated, behind its operand.
#[cycle(value)]
fn found_among(
    around: &Around<'_>,
    negated: bool,
    of: &Value,
    entries: &[TypedExpr],
) -> Result<Value, ExprFault>
    ensures { Gives result (made (opposite_if negated)
        (among of.now (map (value_in (around_of around.now)) entries.now))) }
{
    if is_null(of) {
        return Ok(Value::Null);
    }
    let value = among(around, of, entries)?;
    Ok(opposite_if(negated, value))
}

/// The parts of AND, where false decides, or of OR, where true does.
#[cycle(value)]
fn junction(around: &Around<'_>, stop: bool, parts: &[TypedExpr]) -> Result<Value, ExprFault>
    ensures { Gives result (junction stop (map (value_in (around_of around.now)) parts.now)) }
{
    let mut unknown = false;
    for part in parts {
        let value = value_of(around, part)?;
        if is_truth(stop, &value) {
            return Ok(value);
        }
        if !is_known(&value) {
            unknown = true;
        }
    }
    Ok(if unknown {
        Value::Null
    } else {
        Value::Bool(!stop)
    })
}

/// Whether a value that is not Null is one of a list.
#[cycle(value)]
fn among(around: &Around<'_>, of: &Value, entries: &[TypedExpr]) -> Result<Value, ExprFault>
    ensures { Gives result (junction true
        (map (λ e. made (compared Equal of.now) (value_in (around_of around.now) e)) entries.now)) }
{
    let mut unknown = false;
    for entry in entries {
        let given = value_of(around, entry)?;
        let value = compared(Comparison::Equal, of, &given);
        if is_truth(true, &value) {
            return Ok(value);
        }
        if !is_known(&value) {
            unknown = true;
        }
    }
    Ok(if unknown {
        Value::Null
    } else {
        Value::Bool(false)
    })
}

/// The first text, or a text behind another.
fn text_with(front: Option<Value>, back: Value) -> Result<Value, ExprFault>
    ensures { Gives result (joined_to front back) }
{
    match front {
        None => Ok(back),
        Some(front) => joined(front, &back),
    }
}

/// Texts, each behind what stands to the left of it.
#[cycle(value)]
fn text_of(around: &Around<'_>, parts: &[TypedExpr]) -> Result<Value, ExprFault>
    ensures { Gives result (text_of (map (value_in (around_of around.now)) parts.now)) }
{
    let mut text = None;
    for part in parts {
        let back = value_of(around, part)?;
        let longer = text_with(text, back)?;
        text = Some(longer);
    }
    match text {
        None => Ok(Value::Null),
        Some(text) => Ok(text),
    }
}

/// A sum, behind its first summand.
#[cycle(value)]
fn sum_of(around: &Around<'_>, first: Value, parts: &[TypedSumPart]) -> Result<Value, ExprFault>
    ensures { Gives result (sum_of (Ok first)
        (map (λ s. (s.minus, value_in (around_of around.now) s.part)) parts.now)) }
{
    let mut sum = first;
    for part in parts {
        let summand = value_of(around, &part.part)?;
        let made = summed(part.minus, &sum, &summand)?;
        sum = made;
    }
    Ok(sum)
}

/// A product, behind its first factor.
#[cycle(value)]
fn product_of(
    around: &Around<'_>,
    first: Value,
    parts: &[TypedProductPart],
) -> Result<Value, ExprFault>
    ensures { Gives result (product_of (Ok first)
        (map (λ f. (f.sign, value_in (around_of around.now) f.part)) parts.now)) }
{
    let mut product = first;
    for part in parts {
        let factor = value_of(around, &part.part)?;
        let made = multiplied(part.sign, &product, &factor)?;
        product = made;
    }
    Ok(product)
}
