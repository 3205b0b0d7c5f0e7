//! Reads expressions from left to right, a function for each level of the grammar.
ghost use Rattle.std.specs.Prelude.{◌≡◌, ◌<◌, ◌≤◌, length, IfOk};
ghost use Rattle.sql_tokens.specs.Grammar.{part};
ghost use Rattle.sql_tokens.specs.Reading.{Gives, tails};
ghost use Rattle.sql_expr.specs.declared.opening.Opening.TheVariants.{Parenthesis};
ghost use Rattle.sql_expr.specs.Grammar.{sum_part, product_part};
ghost use Rattle.sql_expr.specs.Reading.{after_or, after_and, after_is, after_comma, after_bars, after_sign, after_factor_sign, nullity_at, named_with, prim_with, un_with, product_with, sum_with, cat_with, items_with, list_with, member_with, mem_rest, mem_with, compared_with, cmp_rest, cmp_with, test_with, not_with, and_with, or_with, minus_with, negated_with, behind};

use crate::front::in_front;
use crate::marks::{
    mark_and, mark_bars, mark_comma, mark_factor_sign, mark_is, mark_or, mark_sign,
};
use crate::opening::Opening;
use crate::words::{called, close, function_of, name, nullity, string, word_in};
use pool_base::{Boxed, List};
use sql_tokens::{Awaited, Fault, Mark, Name, ReadError, Token, Word, unexpected};
use sql_tree::{Comparison, Expr, ProductPart, SumPart};
use std::alloc::Global;

/// What stands behind a token that begins a nesting, where `depth` nestings may still begin.
#[cycle(reading)]
fn nested(
    alloc: Global,
    depth: u32,
    opening: Opening,
    tokens: &[Token],
) -> Result<(Expr, &[Token]), ReadError>
    ensures gives { Gives (λ x. (x.0, x.1.now)) result (behind depth opening tokens.now) }
    ensures shorter { IfOk result (λ x. length x.1.now < length tokens.now) }
{
    if depth == 0 {
        return Err(ReadError::Fault(Fault::TooDeep {
            left: tokens.len() + 1,
        }));
    }
    match opening {
        Opening::Minus => minus(alloc, depth - 1, tokens),
        Opening::Not => negated(alloc, depth - 1, tokens),
        Opening::Parenthesis => disjunction(alloc, depth - 1, tokens),
        Opening::Call(function) => called(function, tokens),
    }
}

/// What stands behind a name that is an operand, or calls a function.
#[cycle(reading)]
#[tactic(auto, unfolding(crate::specs::Reading::named_with))]
fn named<'a>(
    alloc: Global,
    depth: u32,
    first: &Name,
    tokens: &'a [Token],
) -> Result<(Expr, &'a [Token]), ReadError>
    ensures gives { Gives (λ x. (x.0, x.1.now)) result
        (named_with (behind depth) first.now tokens.now) }
    ensures no_longer { IfOk result (λ x. length x.1.now ≤ length tokens.now) }
{
    match tokens {
        [Token::Mark(Mark::Dot), after @ ..] => {
            let (name, rest) = name(after)?;
            let qualifier = Some(first.text.clone()?);
            Ok((Expr::Column { qualifier, name }, rest))
        }
        [Token::Mark(Mark::Open), after @ ..] => match function_of(first) {
            Some(function) => nested(alloc, depth, Opening::Call(function), after),
            None => {
                let name = first.text.clone()?;
                Ok((
                    Expr::Column {
                        qualifier: None,
                        name,
                    },
                    tokens,
                ))
            }
        },
        _ => {
            let (qualifier, name) = (None, first.text.clone()?);
            Ok((Expr::Column { qualifier, name }, tokens))
        }
    }
}

/// An operand that is no sign and what it stands before.
#[cycle(reading)]
#[tactic(auto, unfolding(crate::specs::Reading::prim_with))]
fn primary(alloc: Global, depth: u32, tokens: &[Token]) -> Result<(Expr, &[Token]), ReadError>
    ensures gives { Gives (λ x. (x.0, x.1.now)) result (prim_with (behind depth) tokens.now) }
    ensures shorter { IfOk result (λ x. length x.1.now < length tokens.now) }
{
    match tokens {
        [Token::Number(number), after @ ..] => Ok((Expr::Int(*number), after)),
        [Token::Str(text), after @ ..] => Ok((Expr::Str(text.clone()?), after)),
        [Token::Param(number), after @ ..] => Ok((Expr::Param(*number), after)),
        [Token::Name(name), after @ ..] => named(alloc, depth, name, after),
        [Token::Mark(Mark::Open), after @ ..] => {
            let (inner, rest) = nested(alloc, depth, Opening::Parenthesis, after)?;
            match close(rest) {
                Ok(rest) => Ok((inner, rest)),
                Err(fault) => {
                    drop(inner);
                    Err(fault)
                }
            }
        }
        [Token::Word(Word::True), after @ ..] => Ok((Expr::Bool(true), after)),
        [Token::Word(Word::False), after @ ..] => Ok((Expr::Bool(false), after)),
        [Token::Word(Word::Null), after @ ..] => Ok((Expr::Null, after)),
        [Token::Word(Word::CurrentTimestamp), after @ ..] => Ok((Expr::CurrentTimestamp, after)),
        [Token::Word(Word::Timestamptz), after @ ..] => {
            let (text, rest) = string(after)?;
            Ok((Expr::Moment(text), rest))
        }
        _ => Err(unexpected(tokens, Awaited::Operand)),
    }
}

/// An operand, with its sign if it has one.
#[cycle(reading)]
#[tactic(auto, unfolding(crate::specs::Reading::un_with))]
fn unary(alloc: Global, depth: u32, tokens: &[Token]) -> Result<(Expr, &[Token]), ReadError>
    ensures gives { Gives (λ x. (x.0, x.1.now)) result (un_with (behind depth) tokens.now) }
    ensures shorter { IfOk result (λ x. length x.1.now < length tokens.now) }
{
    match tokens {
        [Token::Mark(Mark::Minus), after @ ..] => nested(alloc, depth, Opening::Minus, after),
        _ => primary(alloc, depth, tokens),
    }
}

/// What stands behind a unary `-`, and the tree of both.
#[cycle(reading)]
#[tactic(auto, unfolding(crate::specs::Reading::minus_with))]
fn minus(alloc: Global, depth: u32, tokens: &[Token]) -> Result<(Expr, &[Token]), ReadError>
    ensures gives { Gives (λ x. (x.0, x.1.now)) result (minus_with (behind depth) tokens.now) }
    ensures shorter { IfOk result (λ x. length x.1.now < length tokens.now) }
{
    match tokens {
        [Token::Least, after @ ..] => Ok((Expr::Int(i64::MIN), after)),
        _ => {
            let (inner, rest) = unary(alloc, depth, tokens)?;
            Ok((Expr::Minus(Boxed::new(alloc, inner)?), rest))
        }
    }
}

/// The further factors of a product.
#[cycle(reading)]
fn factors(
    alloc: Global,
    depth: u32,
    tokens: &[Token],
) -> Result<(List<ProductPart>, &[Token]), ReadError>
    ensures gives { Gives (λ x. (x.0, x.1.now)) result
        (tails after_factor_sign product_part (un_with (behind depth)) tokens.now) }
    ensures no_longer { IfOk result (λ x. length x.1.now ≤ length tokens.now) }
{
    let mut parts = List::new(alloc);
    let mut rest = tokens;
    while let Some((sign, after)) = mark_factor_sign(rest) {
        let (part, after) = unary(alloc, depth, after)?;
        parts.push(ProductPart { sign, part })?;
        rest = after;
    }
    Ok((parts, rest))
}

/// Operands that are multiplied or divided.
#[cycle(reading)]
#[tactic(auto, unfolding(crate::specs::Reading::product_with))]
fn product(alloc: Global, depth: u32, tokens: &[Token]) -> Result<(Expr, &[Token]), ReadError>
    ensures gives { Gives (λ x. (x.0, x.1.now)) result (product_with (behind depth) tokens.now) }
    ensures shorter { IfOk result (λ x. length x.1.now < length tokens.now) }
{
    let (first, rest) = unary(alloc, depth, tokens)?;
    match factors(alloc, depth, rest) {
        Ok((others, rest)) => {
            if others.is_empty() {
                return Ok((first, rest));
            }
            Ok((Expr::Product(Boxed::new(alloc, first)?, others), rest))
        }
        Err(fault) => {
            drop(first);
            Err(fault)
        }
    }
}

/// The further parts of a sum.
#[cycle(reading)]
fn summands(
    alloc: Global,
    depth: u32,
    tokens: &[Token],
) -> Result<(List<SumPart>, &[Token]), ReadError>
    ensures gives { Gives (λ x. (x.0, x.1.now)) result
        (tails after_sign sum_part (product_with (behind depth)) tokens.now) }
    ensures no_longer { IfOk result (λ x. length x.1.now ≤ length tokens.now) }
{
    let mut parts = List::new(alloc);
    let mut rest = tokens;
    while let Some((minus, after)) = mark_sign(rest) {
        let (part, after) = product(alloc, depth, after)?;
        parts.push(SumPart { minus, part })?;
        rest = after;
    }
    Ok((parts, rest))
}

/// Products that are added or subtracted.
#[cycle(reading)]
#[tactic(auto, unfolding(crate::specs::Reading::sum_with))]
fn sum(alloc: Global, depth: u32, tokens: &[Token]) -> Result<(Expr, &[Token]), ReadError>
    ensures gives { Gives (λ x. (x.0, x.1.now)) result (sum_with (behind depth) tokens.now) }
    ensures shorter { IfOk result (λ x. length x.1.now < length tokens.now) }
{
    let (first, rest) = product(alloc, depth, tokens)?;
    match summands(alloc, depth, rest) {
        Ok((others, rest)) => {
            if others.is_empty() {
                return Ok((first, rest));
            }
            Ok((Expr::Sum(Boxed::new(alloc, first)?, others), rest))
        }
        Err(fault) => {
            drop(first);
            Err(fault)
        }
    }
}

/// The further parts with `||` before them.
#[cycle(reading)]
fn joined(alloc: Global, depth: u32, tokens: &[Token]) -> Result<(List<Expr>, &[Token]), ReadError>
    ensures gives { Gives (λ x. (x.0, x.1.now)) result
        (tails after_bars part (sum_with (behind depth)) tokens.now) }
    ensures no_longer { IfOk result (λ x. length x.1.now ≤ length tokens.now) }
{
    let mut parts = List::new(alloc);
    let mut rest = tokens;
    while let Some(after) = mark_bars(rest) {
        let (part, after) = sum(alloc, depth, after)?;
        parts.push(part)?;
        rest = after;
    }
    Ok((parts, rest))
}

/// Sums with `||` between them.
#[cycle(reading)]
#[tactic(auto, unfolding(crate::specs::Reading::cat_with))]
fn concatenation(alloc: Global, depth: u32, tokens: &[Token]) -> Result<(Expr, &[Token]), ReadError>
    ensures gives { Gives (λ x. (x.0, x.1.now)) result (cat_with (behind depth) tokens.now) }
    ensures shorter { IfOk result (λ x. length x.1.now < length tokens.now) }
{
    let (first, rest) = sum(alloc, depth, tokens)?;
    match joined(alloc, depth, rest) {
        Ok((others, rest)) => {
            if others.is_empty() {
                return Ok((first, rest));
            }
            Ok((Expr::Concat(in_front(alloc, first, others)?), rest))
        }
        Err(fault) => {
            drop(first);
            Err(fault)
        }
    }
}

/// The further items of a list.
#[cycle(reading)]
fn further_items(
    alloc: Global,
    depth: u32,
    tokens: &[Token],
) -> Result<(List<Expr>, &[Token]), ReadError>
    ensures gives { Gives (λ x. (x.0, x.1.now)) result
        (tails after_comma part (behind depth Parenthesis) tokens.now) }
    ensures no_longer { IfOk result (λ x. length x.1.now ≤ length tokens.now) }
{
    let mut parts = List::new(alloc);
    let mut rest = tokens;
    while let Some(after) = mark_comma(rest) {
        let (part, after) = nested(alloc, depth, Opening::Parenthesis, after)?;
        parts.push(part)?;
        rest = after;
    }
    Ok((parts, rest))
}

/// The items of a list, with commas between them.
#[cycle(reading)]
#[tactic(auto, unfolding(crate::specs::Reading::items_with))]
fn items(alloc: Global, depth: u32, tokens: &[Token]) -> Result<(List<Expr>, &[Token]), ReadError>
    ensures gives { Gives (λ x. (x.0, x.1.now)) result (items_with (behind depth) tokens.now) }
    ensures shorter { IfOk result (λ x. length x.1.now < length tokens.now) }
{
    let (first, rest) = nested(alloc, depth, Opening::Parenthesis, tokens)?;
    match further_items(alloc, depth, rest) {
        Ok((others, rest)) => Ok((in_front(alloc, first, others)?, rest)),
        Err(fault) => {
            drop(first);
            Err(fault)
        }
    }
}

/// The list behind IN.
#[cycle(reading)]
#[tactic(auto, unfolding(crate::specs::Reading::list_with))]
fn list(alloc: Global, depth: u32, tokens: &[Token]) -> Result<(List<Expr>, &[Token]), ReadError>
    ensures gives { Gives (λ x. (x.0, x.1.now)) result (list_with (behind depth) tokens.now) }
    ensures shorter { IfOk result (λ x. length x.1.now < length tokens.now) }
{
    match tokens {
        [Token::Mark(Mark::Open), after @ ..] => {
            let (items, rest) = items(alloc, depth, after)?;
            let rest = close(rest)?;
            Ok((items, rest))
        }
        _ => Err(unexpected(tokens, Awaited::Word)),
    }
}

/// A value that is, or is not, among those of a list.
#[cycle(reading)]
fn member(
    alloc: Global,
    depth: u32,
    of: Expr,
    negated: bool,
    tokens: &[Token],
) -> Result<(Expr, &[Token]), ReadError>
    ensures gives { Gives (λ x. (x.0, x.1.now)) result
        (member_with (behind depth) of negated tokens.now) }
    ensures shorter { IfOk result (λ x. length x.1.now < length tokens.now) }
{
    let of = Boxed::new(alloc, of)?;
    let (list, rest) = list(alloc, depth, tokens)?;
    Ok((Expr::Member { of, negated, list }, rest))
}

/// What stands behind a value that may be looked for in a list.
#[cycle(reading)]
#[tactic(auto, unfolding(crate::specs::Reading::mem_rest))]
fn member_or(
    alloc: Global,
    depth: u32,
    of: Expr,
    tokens: &[Token],
) -> Result<(Expr, &[Token]), ReadError>
    ensures gives { Gives (λ x. (x.0, x.1.now)) result (mem_rest (behind depth) of tokens.now) }
    ensures no_longer { IfOk result (λ x. length x.1.now ≤ length tokens.now) }
{
    match tokens {
        [Token::Word(Word::In), after @ ..] => member(alloc, depth, of, false, after),
        [Token::Word(Word::Not), after @ ..] => {
            match word_in(after) {
                Ok(after) => member(alloc, depth, of, true, after),
                Err(fault) => {
                    drop(of);
                    Err(fault)
                }
            }
        }
        _ => Ok((of, tokens)),
    }
}

/// A value, and the list that it is looked for in.
#[cycle(reading)]
#[tactic(auto, unfolding(crate::specs::Reading::mem_with))]
fn membership(alloc: Global, depth: u32, tokens: &[Token]) -> Result<(Expr, &[Token]), ReadError>
    ensures gives { Gives (λ x. (x.0, x.1.now)) result (mem_with (behind depth) tokens.now) }
    ensures shorter { IfOk result (λ x. length x.1.now < length tokens.now) }
{
    let (of, rest) = concatenation(alloc, depth, tokens)?;
    member_or(alloc, depth, of, rest)
}

/// The right side of a comparison, and the tree of both.
#[cycle(reading)]
fn compared(
    alloc: Global,
    depth: u32,
    comparison: Comparison,
    left: Expr,
    tokens: &[Token],
) -> Result<(Expr, &[Token]), ReadError>
    ensures gives { Gives (λ x. (x.0, x.1.now)) result
        (compared_with (behind depth) comparison left tokens.now) }
    ensures shorter { IfOk result (λ x. length x.1.now < length tokens.now) }
{
    let left = Boxed::new(alloc, left)?;
    let (right, rest) = membership(alloc, depth, tokens)?;
    let right = Boxed::new(alloc, right)?;
    Ok((Expr::Compare(comparison, left, right), rest))
}

/// What stands behind a value that may be compared.
#[cycle(reading)]
#[tactic(auto, unfolding(crate::specs::Reading::cmp_rest))]
fn compared_or(
    alloc: Global,
    depth: u32,
    left: Expr,
    tokens: &[Token],
) -> Result<(Expr, &[Token]), ReadError>
    ensures gives { Gives (λ x. (x.0, x.1.now)) result (cmp_rest (behind depth) left tokens.now) }
    ensures no_longer { IfOk result (λ x. length x.1.now ≤ length tokens.now) }
{
    match tokens {
        [Token::Mark(Mark::Equal), after @ ..] => {
            compared(alloc, depth, Comparison::Equal, left, after)
        }
        [Token::Mark(Mark::Unequal), after @ ..] => {
            compared(alloc, depth, Comparison::Unequal, left, after)
        }
        [Token::Mark(Mark::Less), after @ ..] => {
            compared(alloc, depth, Comparison::Less, left, after)
        }
        [Token::Mark(Mark::AtMost), after @ ..] => {
            compared(alloc, depth, Comparison::AtMost, left, after)
        }
        [Token::Mark(Mark::Greater), after @ ..] => {
            compared(alloc, depth, Comparison::Greater, left, after)
        }
        [Token::Mark(Mark::AtLeast), after @ ..] => {
            compared(alloc, depth, Comparison::AtLeast, left, after)
        }
        _ => Ok((left, tokens)),
    }
}

/// A value, and the one that it is compared with.
#[cycle(reading)]
#[tactic(auto, unfolding(crate::specs::Reading::cmp_with))]
fn comparison(alloc: Global, depth: u32, tokens: &[Token]) -> Result<(Expr, &[Token]), ReadError>
    ensures gives { Gives (λ x. (x.0, x.1.now)) result (cmp_with (behind depth) tokens.now) }
    ensures shorter { IfOk result (λ x. length x.1.now < length tokens.now) }
{
    let (left, rest) = membership(alloc, depth, tokens)?;
    compared_or(alloc, depth, left, rest)
}

/// The tests behind a value.
fn tests(alloc: Global, tokens: &[Token]) -> Result<(List<bool>, &[Token]), ReadError>
    ensures gives { Gives (λ x. (x.0, x.1.now)) result (tails after_is part nullity_at tokens.now) }
    ensures no_longer { IfOk result (λ x. length x.1.now ≤ length tokens.now) }
{
    let mut parts = List::new(alloc);
    let mut rest = tokens;
    while let Some(after) = mark_is(rest) {
        let (part, after) = nullity(after)?;
        parts.push(part)?;
        rest = after;
    }
    Ok((parts, rest))
}

/// A value with tests for NULL behind it.
#[cycle(reading)]
#[tactic(auto, unfolding(crate::specs::Reading::test_with))]
fn test(alloc: Global, depth: u32, tokens: &[Token]) -> Result<(Expr, &[Token]), ReadError>
    ensures gives { Gives (λ x. (x.0, x.1.now)) result (test_with (behind depth) tokens.now) }
    ensures shorter { IfOk result (λ x. length x.1.now < length tokens.now) }
{
    let (of, rest) = comparison(alloc, depth, tokens)?;
    match tests(alloc, rest) {
        Ok((tests, rest)) => {
            if tests.is_empty() {
                return Ok((of, rest));
            }
            let of = Boxed::new(alloc, of)?;
            Ok((Expr::IsNull { of, tests }, rest))
        }
        Err(fault) => {
            drop(of);
            Err(fault)
        }
    }
}

/// What stands behind NOT, and the tree of both.
#[cycle(reading)]
fn negated(alloc: Global, depth: u32, tokens: &[Token]) -> Result<(Expr, &[Token]), ReadError>
    ensures gives { Gives (λ x. (x.0, x.1.now)) result (negated_with (behind depth) tokens.now) }
    ensures shorter { IfOk result (λ x. length x.1.now < length tokens.now) }
{
    let (inner, rest) = negation(alloc, depth, tokens)?;
    Ok((Expr::Not(Boxed::new(alloc, inner)?), rest))
}

/// A condition, with NOT if it has one.
#[cycle(reading)]
#[tactic(auto, unfolding(crate::specs::Reading::not_with))]
fn negation(alloc: Global, depth: u32, tokens: &[Token]) -> Result<(Expr, &[Token]), ReadError>
    ensures gives { Gives (λ x. (x.0, x.1.now)) result (not_with (behind depth) tokens.now) }
    ensures shorter { IfOk result (λ x. length x.1.now < length tokens.now) }
{
    match tokens {
        [Token::Word(Word::Not), after @ ..] => nested(alloc, depth, Opening::Not, after),
        _ => test(alloc, depth, tokens),
    }
}

/// The further parts with AND before them.
#[cycle(reading)]
fn conjuncts(
    alloc: Global,
    depth: u32,
    tokens: &[Token],
) -> Result<(List<Expr>, &[Token]), ReadError>
    ensures gives { Gives (λ x. (x.0, x.1.now)) result
        (tails after_and part (not_with (behind depth)) tokens.now) }
    ensures no_longer { IfOk result (λ x. length x.1.now ≤ length tokens.now) }
{
    let mut parts = List::new(alloc);
    let mut rest = tokens;
    while let Some(after) = mark_and(rest) {
        let (part, after) = negation(alloc, depth, after)?;
        parts.push(part)?;
        rest = after;
    }
    Ok((parts, rest))
}

/// Conditions with AND between them.
#[cycle(reading)]
#[tactic(auto, unfolding(crate::specs::Reading::and_with))]
fn conjunction(alloc: Global, depth: u32, tokens: &[Token]) -> Result<(Expr, &[Token]), ReadError>
    ensures gives { Gives (λ x. (x.0, x.1.now)) result (and_with (behind depth) tokens.now) }
    ensures shorter { IfOk result (λ x. length x.1.now < length tokens.now) }
{
    let (first, rest) = negation(alloc, depth, tokens)?;
    match conjuncts(alloc, depth, rest) {
        Ok((others, rest)) => {
            if others.is_empty() {
                return Ok((first, rest));
            }
            Ok((Expr::And(in_front(alloc, first, others)?), rest))
        }
        Err(fault) => {
            drop(first);
            Err(fault)
        }
    }
}

/// The further parts with OR before them.
#[cycle(reading)]
fn disjuncts(
    alloc: Global,
    depth: u32,
    tokens: &[Token],
) -> Result<(List<Expr>, &[Token]), ReadError>
    ensures gives { Gives (λ x. (x.0, x.1.now)) result
        (tails after_or part (and_with (behind depth)) tokens.now) }
    ensures no_longer { IfOk result (λ x. length x.1.now ≤ length tokens.now) }
{
    let mut parts = List::new(alloc);
    let mut rest = tokens;
    while let Some(after) = mark_or(rest) {
        let (part, after) = conjunction(alloc, depth, after)?;
        parts.push(part)?;
        rest = after;
    }
    Ok((parts, rest))
}

/// An expression: conjunctions with OR between them.
#[cycle(reading)]
#[tactic(auto, unfolding(crate::specs::Reading::or_with))]
pub(crate) fn disjunction(
    alloc: Global,
    depth: u32,
    tokens: &[Token],
) -> Result<(Expr, &[Token]), ReadError>
    ensures gives { Gives (λ x. (x.0, x.1.now)) result (or_with (behind depth) tokens.now) }
    ensures shorter { IfOk result (λ x. length x.1.now < length tokens.now) }
{
    let (first, rest) = conjunction(alloc, depth, tokens)?;
    match disjuncts(alloc, depth, rest) {
        Ok((others, rest)) => {
            if others.is_empty() {
                return Ok((first, rest));
            }
            Ok((Expr::Or(in_front(alloc, first, others)?), rest))
        }
        Err(fault) => {
            drop(first);
            Err(fault)
        }
    }
}
