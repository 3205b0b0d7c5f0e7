//! Arithmetic of whole numbers.
ghost use Rattle.std.specs.Prelude.{◌≡◌, ℤ, Ok, FitsSigned};
ghost use Rattle.std.specs.Int.{w64};
ghost use Rattle.std.specs.Option.{SomeIff};
ghost use Rattle.sql_tree.specs.declared.expr.ProductSign.TheVariants.{Over, Rest};
ghost use Rattle.sql_values.specs.Outcome.{Gives};
ghost use Rattle.sql_values.specs.Arithmetic.{whole, is_int4, as_int4, sized, calculated, summed, multiplied, negative};

use crate::fault::{BY_ZERO, ExprFault, OUT_OF_RANGE};
use pg_values::Value;
use sql_tree::ProductSign;

/// The number of an int4 or an int8.
fn whole(value: &Value) -> Option<i64>
    ensures { result ≡ whole value.now }
{
    match value {
        Value::Int4(number) => Some(*number as i64),
        Value::Int8(number) => Some(*number),
        _ => None,
    }
}

fn is_int4(value: &Value) -> bool
    ensures { result ≡ is_int4 value.now }
{
    matches!(value, Value::Int4(_))
}

fn as_int4(number: i64) -> Result<Value, ExprFault>
    ensures { Gives result (as_int4 number) }
{
    if number < -2_147_483_648 || number > 2_147_483_647 {
        return Err(ExprFault::Refused(OUT_OF_RANGE));
    }
    Ok(Value::Int4(number as i32))
}

/// A number in its type, which is given where an int8 holds it.
fn sized(narrow: bool, number: Option<i64>) -> Result<Value, ExprFault>
    ensures { (exact : ℤ) → SomeIff number (FitsSigned w64 exact) exact
        → Gives result (sized narrow (Ok exact)) }
{
    match number {
        None => Err(ExprFault::Refused(OUT_OF_RANGE)),
        Some(number) => {
            if narrow {
                as_int4(number)
            } else {
                Ok(Value::Int8(number))
            }
        }
    }
}

/// A summand, with its sign, and what stands to the left of it.
pub(crate) fn summed(minus: bool, a: &Value, b: &Value) -> Result<Value, ExprFault>
    ensures { Gives result (calculated (summed minus) a.now b.now) }
{
    let (Some(left), Some(right)) = (whole(a), whole(b)) else {
        return Ok(Value::Null);
    };
    let narrow = is_int4(a) && is_int4(b);
    if minus {
        return sized(narrow, left.checked_sub(right));
    }
    sized(narrow, left.checked_add(right))
}

fn quotient(narrow: bool, dividend: i64, divisor: i64) -> Result<Value, ExprFault>
    ensures { Gives result (sized narrow (multiplied Over dividend divisor)) }
{
    if divisor == 0 {
        return Err(ExprFault::Refused(BY_ZERO));
    }
    sized(narrow, dividend.checked_div(divisor))
}

fn rest(narrow: bool, dividend: i64, divisor: i64) -> Result<Value, ExprFault>
    ensures { Gives result (sized narrow (multiplied Rest dividend divisor)) }
{
    if divisor == 0 {
        return Err(ExprFault::Refused(BY_ZERO));
    }
    if divisor == -1 {
        return sized(narrow, Some(0));
    }
    sized(narrow, Some(dividend % divisor))
}

/// A factor, with its sign, and what stands to the left of it.
pub(crate) fn multiplied(sign: ProductSign, a: &Value, b: &Value) -> Result<Value, ExprFault>
    ensures { Gives result (calculated (multiplied sign) a.now b.now) }
{
    let (Some(left), Some(right)) = (whole(a), whole(b)) else {
        return Ok(Value::Null);
    };
    let narrow = is_int4(a) && is_int4(b);
    match sign {
        ProductSign::Times => sized(narrow, left.checked_mul(right)),
        ProductSign::Over => quotient(narrow, left, right),
        ProductSign::Rest => rest(narrow, left, right),
    }
}

/// A number with a minus in front of it.
pub(crate) fn negative(value: &Value) -> Result<Value, ExprFault>
    ensures { Gives result (negative value.now) }
{
    match value {
        Value::Int4(number) => as_int4(-(*number as i64)),
        Value::Int8(number) => sized(false, number.checked_neg()),
        _ => Ok(Value::Null),
    }
}
