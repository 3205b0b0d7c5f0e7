//! Expressions at a moment.
ghost use Rattle.std.specs.Prelude.{◌≡◌, IfOk, map, option_map};
ghost use Rattle.time_rewrite.specs.Rewriting.{form_at, expr_at, summand_at, factor_at};

use pg_values::Value;
use pool_base::{Boxed, List, NoMemory};
use typed_sql::{TypedExpr, TypedForm, TypedProductPart, TypedSumPart};

/// An expression with the moment in place of its time functions.
#[cycle(rewriting)]
pub(crate) fn expr_at(moment: i64, expr: &TypedExpr) -> Result<TypedExpr, NoMemory>
    ensures { IfOk result (λ e. e ≡ expr_at moment expr.now) }
{
    Ok(TypedExpr {
        kind: expr.kind,
        form: form_at(moment, &expr.form)?,
    })
}

#[cycle(rewriting)]
#[tactic(auto, using(crate::proofs::Forms::forms))]
fn form_at(moment: i64, form: &TypedForm) -> Result<TypedForm, NoMemory>
    ensures { IfOk result (λ f. f ≡ form_at moment form.now) }
{
    match form {
        TypedForm::Or(parts) => Ok(TypedForm::Or(all_at(moment, parts)?)),
        TypedForm::And(parts) => Ok(TypedForm::And(all_at(moment, parts)?)),
        TypedForm::Not(of) => Ok(TypedForm::Not(box_at(moment, of)?)),
        TypedForm::IsNull { of, tests } => Ok(TypedForm::IsNull {
            of: box_at(moment, of)?,
            tests: List::from_slice(tests.allocator(), tests.as_slice())?,
        }),
        TypedForm::Compare(how, left, right) => {
            Ok(TypedForm::Compare(*how, box_at(moment, left)?, box_at(moment, right)?))
        }
        TypedForm::Member { of, negated, list } => Ok(TypedForm::Member {
            of: box_at(moment, of)?,
            negated: *negated,
            list: all_at(moment, list)?,
        }),
        TypedForm::Concat(parts) => Ok(TypedForm::Concat(all_at(moment, parts)?)),
        TypedForm::Sum(first, parts) => {
            Ok(TypedForm::Sum(box_at(moment, first)?, sum_at(moment, parts)?))
        }
        TypedForm::Product(first, parts) => {
            Ok(TypedForm::Product(box_at(moment, first)?, product_at(moment, parts)?))
        }
        TypedForm::Minus(of) => Ok(TypedForm::Minus(box_at(moment, of)?)),
        TypedForm::Literal(value) => Ok(TypedForm::Literal(value.clone()?)),
        TypedForm::Param(number) => Ok(TypedForm::Param(*number)),
        TypedForm::Column(number) => Ok(TypedForm::Column(*number)),
        TypedForm::CurrentTimestamp => Ok(TypedForm::Literal(Value::Moment(moment))),
        TypedForm::Now => Ok(TypedForm::Literal(Value::Moment(moment))),
        TypedForm::TransactionTimestamp => Ok(TypedForm::Literal(Value::Moment(moment))),
    }
}

#[cycle(rewriting)]
fn box_at(moment: i64, of: &Boxed<TypedExpr>) -> Result<Boxed<TypedExpr>, NoMemory>
    ensures { IfOk result (λ e. e ≡ expr_at moment of.now) }
{
    Boxed::new(of.allocator(), expr_at(moment, of.get())?)
}

#[cycle(rewriting)]
pub(crate) fn all_at(moment: i64, parts: &List<TypedExpr>) -> Result<List<TypedExpr>, NoMemory>
    ensures { IfOk result (λ made. made ≡ map (expr_at moment) parts.now) }
{
    let mut made = List::new(parts.allocator());
    for part in parts.as_slice() {
        made.push(expr_at(moment, part)?)?;
    }
    Ok(made)
}

#[cycle(rewriting)]
fn sum_at(moment: i64, parts: &List<TypedSumPart>) -> Result<List<TypedSumPart>, NoMemory>
    ensures { IfOk result (λ made. made ≡ map (summand_at moment) parts.now) }
{
    let mut made = List::new(parts.allocator());
    for part in parts.as_slice() {
        made.push(TypedSumPart {
            minus: part.minus,
            part: expr_at(moment, &part.part)?,
        })?;
    }
    Ok(made)
}

#[cycle(rewriting)]
fn product_at(
    moment: i64,
    parts: &List<TypedProductPart>,
) -> Result<List<TypedProductPart>, NoMemory>
    ensures { IfOk result (λ made. made ≡ map (factor_at moment) parts.now) }
{
    let mut made = List::new(parts.allocator());
    for part in parts.as_slice() {
        made.push(TypedProductPart {
            sign: part.sign,
            part: expr_at(moment, &part.part)?,
        })?;
    }
    Ok(made)
}

/// An expression at a moment, where there is one.
pub(crate) fn some_at(moment: i64, expr: &Option<TypedExpr>) -> Result<Option<TypedExpr>, NoMemory>
    ensures { IfOk result (λ made. made ≡ option_map (expr_at moment) expr.now) }
{
    match expr {
        None => Ok(None),
        Some(expr) => Ok(Some(expr_at(moment, expr)?)),
    }
}
