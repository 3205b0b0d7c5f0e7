//! Copies of expressions: a copy is the expression again.
ghost use Rattle.std.specs.Prelude.{◌≡◌, IfOk};

use crate::expr::{Expr, ProductPart, SumPart};
use pool_base::{Boxed, List, NoMemory, Text};
use std::alloc::AllocError;

impl Clone for Expr {
    ghost is_clone = { λ e copy. copy ≡ e };

    fn clone(&self) -> Result<Expr, AllocError> {
        copied(self).map_err(|_| AllocError)
    }
}

#[cycle(copying)]
fn copied(expr: &Expr) -> Result<Expr, NoMemory>
    ensures { IfOk result (λ e. e ≡ expr.now) }
{
    Ok(match expr {
        Expr::Or(parts) => Expr::Or(copied_all(parts)?),
        Expr::And(parts) => Expr::And(copied_all(parts)?),
        Expr::Not(of) => Expr::Not(copied_box(of)?),
        Expr::IsNull { of, tests } => Expr::IsNull {
            of: copied_box(of)?,
            tests: copied_tests(tests)?,
        },
        Expr::Compare(how, left, right) => {
            Expr::Compare(*how, copied_box(left)?, copied_box(right)?)
        }
        Expr::Member { of, negated, list } => Expr::Member {
            of: copied_box(of)?,
            negated: *negated,
            list: copied_all(list)?,
        },
        Expr::Concat(parts) => Expr::Concat(copied_all(parts)?),
        Expr::Sum(first, parts) => Expr::Sum(copied_box(first)?, copied_sum(parts)?),
        Expr::Product(first, parts) => Expr::Product(copied_box(first)?, copied_product(parts)?),
        Expr::Minus(of) => Expr::Minus(copied_box(of)?),
        Expr::Int(number) => Expr::Int(*number),
        Expr::Str(text) => Expr::Str(text.clone()?),
        Expr::Bool(truth) => Expr::Bool(*truth),
        Expr::Null => Expr::Null,
        Expr::Param(number) => Expr::Param(*number),
        Expr::Column { qualifier, name } => Expr::Column {
            qualifier: copied_name(qualifier)?,
            name: name.clone()?,
        },
        Expr::CurrentTimestamp => Expr::CurrentTimestamp,
        Expr::Now => Expr::Now,
        Expr::TransactionTimestamp => Expr::TransactionTimestamp,
        Expr::Moment(text) => Expr::Moment(text.clone()?),
    })
}

#[cycle(copying)]
fn copied_box(of: &Boxed<Expr>) -> Result<Boxed<Expr>, NoMemory>
    ensures { IfOk result (λ e. e ≡ of.now) }
{
    Boxed::new(of.allocator(), copied(of.get())?)
}

#[cycle(copying)]
fn copied_all(parts: &List<Expr>) -> Result<List<Expr>, NoMemory>
    ensures { IfOk result (λ es. es ≡ parts.now) }
{
    let mut copies = List::new(parts.allocator());
    for part in parts.as_slice() {
        copies.push(copied(part)?)?;
    }
    Ok(copies)
}

#[cycle(copying)]
fn copied_sum(parts: &List<SumPart>) -> Result<List<SumPart>, NoMemory>
    ensures { IfOk result (λ es. es ≡ parts.now) }
{
    let mut copies = List::new(parts.allocator());
    for part in parts.as_slice() {
        copies.push(SumPart {
            minus: part.minus,
            part: copied(&part.part)?,
        })?;
    }
    Ok(copies)
}

#[cycle(copying)]
fn copied_product(parts: &List<ProductPart>) -> Result<List<ProductPart>, NoMemory>
    ensures { IfOk result (λ es. es ≡ parts.now) }
{
    let mut copies = List::new(parts.allocator());
    for part in parts.as_slice() {
        copies.push(ProductPart {
            sign: part.sign,
            part: copied(&part.part)?,
        })?;
    }
    Ok(copies)
}

fn copied_tests(tests: &List<bool>) -> Result<List<bool>, NoMemory>
    ensures { IfOk result (λ ts. ts ≡ tests.now) }
{
    List::from_slice(tests.allocator(), tests.as_slice())
}

pub(crate) fn copied_name(name: &Option<Text>) -> Result<Option<Text>, NoMemory>
    ensures { IfOk result (λ n. n ≡ name.now) }
{
    match name {
        None => Ok(None),
        Some(text) => Ok(Some(text.clone()?)),
    }
}
