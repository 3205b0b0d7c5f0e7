//! Values in place of the parameters of an expression.
ghost use Rattle.std.specs.Prelude.{◌≡◌, IfOk, map};
ghost use Rattle.std.specs.Option.{option_map};
ghost use Rattle.checked_sql.specs.Binding.{bound, bound_factor, bound_form, bound_summand, value_or, value_put};

use pg_values::Value;
use pool_base::{Boxed, List, NoMemory};
use typed_sql::{TypedExpr, TypedForm, TypedProductPart, TypedSumPart};

/// The value of that number, from 0, or the parameter where there is none.
fn value_or(value: Option<&Value>, number: u32) -> Result<TypedForm, NoMemory>
    ensures { IfOk result (λ form. form
        ≡ value_or number (option_map (λ v. v.now) value.entry)) }
{
    match value {
        Some(value) => Ok(TypedForm::Literal(value.clone()?)),
        None => Ok(TypedForm::Param(number)),
    }
}

/// The value of a parameter, from 1; where there is none it stays.
fn value_put(values: &[Value], number: u32) -> Result<TypedForm, NoMemory>
    ensures { IfOk result (λ form. form ≡ value_put values.now number) }
{
    if number == 0 {
        return Ok(TypedForm::Param(number));
    }
    value_or(values.get(number as usize - 1), number)
}

/// An expression with values in place of its parameters.
#[cycle(binding)]
#[tactic(auto, using(crate::proofs::Bound::bound_by_form))]
pub(crate) fn bound(values: &[Value], expr: &TypedExpr) -> Result<TypedExpr, NoMemory>
    ensures { IfOk result (λ e. e ≡ bound values.now expr.now) }
{
    let form = bound_form(values, &expr.form)?;
    Ok(TypedExpr {
        kind: expr.kind,
        form,
    })
}

#[cycle(binding)]
#[tactic(auto, using(crate::proofs::Bound::forms))]
fn bound_form(values: &[Value], form: &TypedForm) -> Result<TypedForm, NoMemory>
    ensures { IfOk result (λ f. f ≡ bound_form values.now form.now) }
{
    match form {
        TypedForm::Or(parts) => Ok(TypedForm::Or(bound_all(values, parts)?)),
        TypedForm::And(parts) => Ok(TypedForm::And(bound_all(values, parts)?)),
        TypedForm::Not(of) => Ok(TypedForm::Not(bound_box(values, of)?)),
        TypedForm::IsNull { of, tests } => Ok(TypedForm::IsNull {
            of: bound_box(values, of)?,
            tests: copied(tests)?,
        }),
        TypedForm::Compare(how, left, right) => Ok(TypedForm::Compare(
            *how,
            bound_box(values, left)?,
            bound_box(values, right)?,
        )),
        TypedForm::Member { of, negated, list } => Ok(TypedForm::Member {
            of: bound_box(values, of)?,
            negated: *negated,
            list: bound_all(values, list)?,
        }),
        TypedForm::Concat(parts) => Ok(TypedForm::Concat(bound_all(values, parts)?)),
        TypedForm::Sum(first, parts) => Ok(TypedForm::Sum(
            bound_box(values, first)?,
            bound_summands(values, parts)?,
        )),
        TypedForm::Product(first, parts) => Ok(TypedForm::Product(
            bound_box(values, first)?,
            bound_factors(values, parts)?,
        )),
        TypedForm::Minus(of) => Ok(TypedForm::Minus(bound_box(values, of)?)),
        TypedForm::Literal(value) => Ok(TypedForm::Literal(value.clone()?)),
        TypedForm::Param(number) => value_put(values, *number),
        TypedForm::Column(number) => Ok(TypedForm::Column(*number)),
        TypedForm::CurrentTimestamp => Ok(TypedForm::CurrentTimestamp),
        TypedForm::Now => Ok(TypedForm::Now),
        TypedForm::TransactionTimestamp => Ok(TypedForm::TransactionTimestamp),
    }
}

fn copied(tests: &List<bool>) -> Result<List<bool>, NoMemory>
    ensures { IfOk result (λ ts. ts ≡ tests.now) }
{
    List::from_slice(tests.allocator(), tests.as_slice())
}

#[cycle(binding)]
fn bound_box(values: &[Value], of: &Boxed<TypedExpr>) -> Result<Boxed<TypedExpr>, NoMemory>
    ensures { IfOk result (λ e. e ≡ bound values.now of.now) }
{
    Boxed::new(of.allocator(), bound(values, of.get())?)
}

#[cycle(binding)]
pub(crate) fn bound_all(
    values: &[Value],
    parts: &List<TypedExpr>,
) -> Result<List<TypedExpr>, NoMemory>
    ensures { IfOk result (λ es. es ≡ map (bound values.now) parts.now) }
{
    let mut made = List::new(parts.allocator());
    for part in parts.as_slice() {
        made.push(bound(values, part)?)?;
    }
    Ok(made)
}

#[cycle(binding)]
fn bound_summands(
    values: &[Value],
    parts: &List<TypedSumPart>,
) -> Result<List<TypedSumPart>, NoMemory>
    ensures { IfOk result (λ es. es ≡ map (bound_summand values.now) parts.now) }
{
    let mut made = List::new(parts.allocator());
    for part in parts.as_slice() {
        made.push(TypedSumPart {
            minus: part.minus,
            part: bound(values, &part.part)?,
        })?;
    }
    Ok(made)
}

#[cycle(binding)]
fn bound_factors(
    values: &[Value],
    parts: &List<TypedProductPart>,
) -> Result<List<TypedProductPart>, NoMemory>
    ensures { IfOk result (λ es. es ≡ map (bound_factor values.now) parts.now) }
{
    let mut made = List::new(parts.allocator());
    for part in parts.as_slice() {
        made.push(TypedProductPart {
            sign: part.sign,
            part: bound(values, &part.part)?,
        })?;
    }
    Ok(made)
}

/// An expression that may be left out.
pub(crate) fn bound_maybe(
    values: &[Value],
    expr: &Option<TypedExpr>,
) -> Result<Option<TypedExpr>, NoMemory>
    ensures { IfOk result (λ e. e ≡ option_map (bound values.now) expr.now) }
{
    match expr {
        Some(expr) => Ok(Some(bound(values, expr)?)),
        None => Ok(None),
    }
}
