//! Copies of typed expressions.
ghost use Rattle.std.specs.Prelude.{◌≡◌, IfOk};

use pool_base::{Boxed, List, NoMemory};
use typed_sql::{TypedExpr, TypedForm, TypedProductPart, TypedSumPart};

/// A copy of an expression.
#[cycle(copying)]
pub(crate) fn expr_copied(expr: &TypedExpr) -> Result<TypedExpr, NoMemory>
    ensures { IfOk result (λ copy. copy ≡ expr.now) }
{
    Ok(TypedExpr {
        kind: expr.kind,
        form: form_copied(&expr.form)?,
    })
}

#[cycle(copying)]
fn form_copied(form: &TypedForm) -> Result<TypedForm, NoMemory>
    ensures { IfOk result (λ copy. copy ≡ form.now) }
{
    match form {
        TypedForm::Or(parts) => Ok(TypedForm::Or(exprs_copied(parts)?)),
        TypedForm::And(parts) => Ok(TypedForm::And(exprs_copied(parts)?)),
        TypedForm::Not(of) => Ok(TypedForm::Not(box_copied(of)?)),
        TypedForm::IsNull { of, tests } => Ok(TypedForm::IsNull {
            of: box_copied(of)?,
            tests: List::from_slice(tests.allocator(), tests.as_slice())?,
        }),
        TypedForm::Compare(how, left, right) => {
            Ok(TypedForm::Compare(*how, box_copied(left)?, box_copied(right)?))
        }
        TypedForm::Member { of, negated, list } => Ok(TypedForm::Member {
            of: box_copied(of)?,
            negated: *negated,
            list: exprs_copied(list)?,
        }),
        TypedForm::Concat(parts) => Ok(TypedForm::Concat(exprs_copied(parts)?)),
        TypedForm::Sum(first, parts) => {
            Ok(TypedForm::Sum(box_copied(first)?, summands_copied(parts)?))
        }
        TypedForm::Product(first, parts) => {
            Ok(TypedForm::Product(box_copied(first)?, factors_copied(parts)?))
        }
        TypedForm::Minus(of) => Ok(TypedForm::Minus(box_copied(of)?)),
        TypedForm::Literal(value) => Ok(TypedForm::Literal(value.clone()?)),
        TypedForm::Param(number) => Ok(TypedForm::Param(*number)),
        TypedForm::Column(number) => Ok(TypedForm::Column(*number)),
        TypedForm::CurrentTimestamp => Ok(TypedForm::CurrentTimestamp),
        TypedForm::Now => Ok(TypedForm::Now),
        TypedForm::TransactionTimestamp => Ok(TypedForm::TransactionTimestamp),
    }
}

#[cycle(copying)]
fn box_copied(of: &Boxed<TypedExpr>) -> Result<Boxed<TypedExpr>, NoMemory>
    ensures { IfOk result (λ copy. copy ≡ of.now) }
{
    Boxed::new(of.allocator(), expr_copied(of.get())?)
}

/// Copies of expressions, in their order.
#[cycle(copying)]
pub(crate) fn exprs_copied(parts: &List<TypedExpr>) -> Result<List<TypedExpr>, NoMemory>
    ensures { IfOk result (λ copy. copy ≡ parts.now) }
{
    let mut made = List::new(parts.allocator());
    for part in parts.as_slice() {
        made.push(expr_copied(part)?)?;
    }
    Ok(made)
}

#[cycle(copying)]
fn summands_copied(parts: &List<TypedSumPart>) -> Result<List<TypedSumPart>, NoMemory>
    ensures { IfOk result (λ copy. copy ≡ parts.now) }
{
    let mut made = List::new(parts.allocator());
    for part in parts.as_slice() {
        made.push(TypedSumPart {
            minus: part.minus,
            part: expr_copied(&part.part)?,
        })?;
    }
    Ok(made)
}

#[cycle(copying)]
fn factors_copied(parts: &List<TypedProductPart>) -> Result<List<TypedProductPart>, NoMemory>
    ensures { IfOk result (λ copy. copy ≡ parts.now) }
{
    let mut made = List::new(parts.allocator());
    for part in parts.as_slice() {
        made.push(TypedProductPart {
            sign: part.sign,
            part: expr_copied(&part.part)?,
        })?;
    }
    Ok(made)
}

/// A copy of an expression, where there is one.
pub(crate) fn some_copied(expr: &Option<TypedExpr>) -> Result<Option<TypedExpr>, NoMemory>
    ensures { IfOk result (λ copy. copy ≡ expr.now) }
{
    match expr {
        None => Ok(None),
        Some(expr) => Ok(Some(expr_copied(expr)?)),
    }
}
