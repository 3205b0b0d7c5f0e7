//! Values as they stand in a statement.
ghost use Rattle.std.specs.Prelude.{◌≡◌, ◌↔◌, ◌∷◌, [], IfOk, IsTrue, pos, false, true};
ghost use Rattle.pg_values.specs.Range.{IsMoment};
ghost use Rattle.pg_values.specs.declared.value.Value.TheVariants as value;
ghost use Rattle.sql_tree.specs.declared.expr.Expr.TheVariants as expr;
ghost use Rattle.checked_print.specs.Moments.{IsShown, is_moment, moment_text, shown_text};
ghost use Rattle.checked_print.specs.Ranges.{is_held};
ghost use Rattle.checked_print.specs.Spelled.{at, fits_int4, int8_negated, int8_part, is_least_int4, is_plain, number, spelled_value, summand, widened};

use crate::place::Place;
use pg_values::{Value, text_of};
use pool_base::{Boxed, List, NoMemory, Text};
use sql_tree::{Expr, SumPart};
use std::alloc::Global;

/// The first and the last moment, in microseconds since 2000-01-01 00:00 UTC: those of the years 1
/// and 9999.
const FIRST_MOMENT: i64 = -63_082_281_600_000_000;

const LAST_MOMENT: i64 = 252_455_615_999_999_999;

const LEAST_INT8: i64 = -9_223_372_036_854_775_808;

const LEAST_INT4: i64 = -2_147_483_648;

const GREATEST_INT4: i64 = 2_147_483_647;

/// One more than the greatest int4.
const BEHIND_INT4: i64 = 2_147_483_648;

/// Whether it is a moment of the years 1 to 9999.
fn is_moment(micros: i64) -> bool
    ensures told { result ≡ is_moment micros }
    ensures range { IsTrue result ↔ IsMoment micros }
{
    FIRST_MOMENT <= micros && micros <= LAST_MOMENT
}

/// The text form of a moment.
#[tactic(auto, using(crate::proofs::Dates::shown))]
fn form_of(alloc: Global, moment: &Value) -> Result<Text, NoMemory>
    requires { IsShown moment.now }
    ensures { IfOk result (λ text. text ≡ shown_text moment.now) }
{
    match text_of(alloc, moment)? {
        Some(text) => Ok(text),
        None => unreachable!(),
    }
}

/// The text of a moment; one that is not of the years 1 to 9999 has none.
#[tactic(auto, using(crate::proofs::Dates::no_text))]
fn moment_text(alloc: Global, micros: i64) -> Result<Text, NoMemory>
    ensures { IfOk result (λ text. text ≡ moment_text micros) }
{
    if is_moment(micros) {
        let text = form_of(alloc, &Value::Moment(micros))?;
        Ok(text)
    } else {
        Text::from_str(alloc, "")
    }
}

/// Whether a number fits an int4.
fn fits_int4(number: i64) -> bool
    ensures { result ≡ fits_int4 number }
{
    LEAST_INT4 <= number && number <= GREATEST_INT4
}

/// Whether a number stands without a minus of its own: it is at least 0, or the least int8.
fn is_plain(number: i64) -> bool
    ensures { result ≡ is_plain number }
{
    0 <= number || number <= LEAST_INT8
}

/// A number, with a minus in front of it where it is negative.
fn number(alloc: Global, given: i64) -> Result<Expr, NoMemory>
    ensures { IfOk result (λ e. e ≡ number given) }
{
    if is_plain(given) {
        Ok(Expr::Int(given))
    } else {
        Ok(Expr::Minus(Boxed::new(alloc, Expr::Int(-given))?))
    }
}

/// A number as a further summand.
fn summand(minus: bool, given: i64) -> SumPart
    ensures { result ≡ summand minus (expr.Int given) }
{
    SumPart {
        minus,
        part: Expr::Int(given),
    }
}

/// A number that would be read as an int4, as a sum of int8.
fn widened(alloc: Global, given: i64) -> Result<Expr, NoMemory>
    ensures { IfOk result (λ e. e ≡ widened given) }
{
    let mut parts = List::new(alloc);
    parts.push(summand(false, BEHIND_INT4))?;
    parts.push(summand(true, BEHIND_INT4))?;
    let first = number(alloc, given)?;
    Ok(Expr::Sum(Boxed::new(alloc, first)?, parts))
}

/// An int8 within an expression.
fn int8_part(alloc: Global, given: i64) -> Result<Expr, NoMemory>
    ensures { IfOk result (λ e. e ≡ int8_part given) }
{
    if fits_int4(given) {
        widened(alloc, given)
    } else {
        number(alloc, given)
    }
}

/// Whether a number is 2147483648, which with a minus in front of it is int4.
fn is_least_int4(number: i64) -> bool
    ensures { result ≡ is_least_int4 number }
{
    BEHIND_INT4 <= number && number <= BEHIND_INT4
}

/// A number and 0, as a sum.
fn with_zero(alloc: Global, given: i64) -> Result<Expr, NoMemory>
    ensures { IfOk result (λ e. e
        ≡ expr.Sum (expr.Int given) (summand false (expr.Int (pos 0)) ∷ [])) }
{
    let mut parts = List::new(alloc);
    parts.push(summand(false, 0))?;
    Ok(Expr::Sum(Boxed::new(alloc, Expr::Int(given))?, parts))
}

/// An int8 directly behind a minus.
fn int8_negated(alloc: Global, given: i64) -> Result<Expr, NoMemory>
    ensures { IfOk result (λ e. e ≡ int8_negated given) }
{
    if is_least_int4(given) {
        with_zero(alloc, given)
    } else {
        int8_part(alloc, given)
    }
}

/// An int8 at a place.
fn int8_at(alloc: Global, place: Place, given: i64) -> Result<Expr, NoMemory>
    ensures { IfOk result (λ e. e ≡ at place (spelled_value (value.Int8 given))) }
{
    match place {
        Place::Part => int8_part(alloc, given),
        Place::Negated => int8_negated(alloc, given),
        Place::Whole => number(alloc, given),
    }
}

/// A value at a place.
#[tactic(auto, using(crate::proofs::Places::one_way, crate::proofs::Held::values))]
pub(crate) fn value_at(alloc: Global, place: Place, value: &Value) -> Result<Expr, NoMemory>
    ensures made { IfOk result (λ e. e ≡ at place (spelled_value value.now)) }
    ensures held { IfOk result (λ made. is_held value.now ≡ true) }
{
    match value {
        Value::Null => Ok(Expr::Null),
        Value::Bool(truth) => Ok(Expr::Bool(*truth)),
        Value::Int4(given) => number(alloc, *given as i64),
        Value::Int8(given) => int8_at(alloc, place, *given),
        Value::Text(text) => Ok(Expr::Str(text.clone()?)),
        Value::Moment(micros) => Ok(Expr::Moment(moment_text(alloc, *micros)?)),
    }
}
