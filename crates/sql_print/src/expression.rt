//! The tokens of expressions.
ghost use Rattle.std.specs.Prelude.{◌≡◌, ◌∷◌, ◌++◌, OnOk};
ghost use Rattle.std.specs.List.{flat_map};
ghost use Rattle.sql_tokens.specs.declared.mark.Mark.TheVariants.{Comma};
ghost use Rattle.sql_tokens.specs.declared.word.Word.TheVariants as words;
ghost use Rattle.sql_print.specs.Spelling.{mark, sign, word};
ghost use Rattle.sql_print.specs.Between.{between_token};
ghost use Rattle.sql_print.specs.Printed.{compares, enclosed, expr_tokens, factor_tokens, joined, negation, part_tokens, printed, summand_tokens, test};
ghost use Rattle.sql_print.specs.Writing.{after, state};

use crate::between::{Between, write_before};
use crate::leaf::{
    adds, compares, multiplies, write_call, write_column, write_moment, write_negation,
    write_number, write_tests, write_truth,
};
use crate::writer::Writer;
use pool_base::NoMemory;
use sql_tokens::{Mark, Word};
use sql_tree::{Comparison, Expr, ProductPart, SumPart};

/// An expression that is no part of another.
#[cycle(printing)]
#[tactic(auto, using(crate::proofs::Forms::layers, crate::proofs::Steps::after_append))]
pub(crate) fn write_expr(expr: &Expr, onto: &mut Writer) -> Result<(), NoMemory>
    ensures { OnOk result (state onto.new ≡ after (state onto.old) (expr_tokens expr.now)) }
{
    match expr {
        Expr::Or(parts) => write_parts(Between::Or, parts.as_slice(), onto),
        Expr::And(parts) => write_parts(Between::And, parts.as_slice(), onto),
        Expr::Not(of) => write_not(of.get(), onto),
        Expr::IsNull { of, tests } => write_tested(of.get(), tests.as_slice(), onto),
        Expr::Compare(how, left, right) => {
            write_part(left.get(), onto)?;
            write_compared(*how, right.get(), onto)
        }
        Expr::Member { of, negated, list } => {
            write_part(of.get(), onto)?;
            write_entries(*negated, list.as_slice(), onto)
        }
        Expr::Concat(parts) => write_parts(Between::Bars, parts.as_slice(), onto),
        Expr::Sum(first, parts) => {
            write_part(first.get(), onto)?;
            write_summands(parts.as_slice(), onto)
        }
        Expr::Product(first, parts) => {
            write_part(first.get(), onto)?;
            write_factors(parts.as_slice(), onto)
        }
        Expr::Minus(of) => write_minus(of.get(), onto),
        Expr::Int(number) => write_number(*number, onto),
        Expr::Str(text) => onto.string(text.as_str()),
        Expr::Bool(truth) => write_truth(*truth, onto),
        Expr::Null => onto.word(Word::Null),
        Expr::Param(number) => onto.param(*number),
        Expr::Column { qualifier, name } => write_column(qualifier, name, onto),
        Expr::CurrentTimestamp => onto.word(Word::CurrentTimestamp),
        Expr::Now => write_call("now", onto),
        Expr::TransactionTimestamp => write_call("transaction_timestamp", onto),
        Expr::Moment(text) => write_moment(text, onto),
    }
}

/// An expression that is a part of another.
#[cycle(printing)]
#[tactic(auto, using(crate::proofs::Steps::after_append))]
fn write_part(expr: &Expr, onto: &mut Writer) -> Result<(), NoMemory>
    ensures { OnOk result (state onto.new ≡ after (state onto.old) (part_tokens expr.now)) }
{
    if is_compound(expr) {
        onto.mark(Mark::Open)?;
        write_expr(expr, onto)?;
        onto.mark(Mark::Close)
    } else {
        write_expr(expr, onto)
    }
}

/// As a part of another, the expression stands in parentheses.
#[tactic(auto, using(crate::proofs::Forms::layers))]
fn is_compound(expr: &Expr) -> bool
    ensures { result ≡ (printed expr.now).compound }
{
    match expr {
        Expr::Or(_) => true,
        Expr::And(_) => true,
        Expr::Not(_) => true,
        Expr::IsNull { .. } => true,
        Expr::Compare(_, _, _) => true,
        Expr::Member { .. } => true,
        Expr::Concat(_) => true,
        Expr::Sum(_, _) => true,
        Expr::Product(_, _) => true,
        Expr::Minus(_) => true,
        Expr::Int(number) => *number < 0,
        Expr::Str(_) => false,
        Expr::Bool(_) => false,
        Expr::Null => false,
        Expr::Param(_) => false,
        Expr::Column { .. } => false,
        Expr::CurrentTimestamp => false,
        Expr::Now => false,
        Expr::TransactionTimestamp => false,
        Expr::Moment(_) => false,
    }
}

/// Parts with a token between two.
#[cycle(printing)]
fn write_parts(between: Between, parts: &[Expr], onto: &mut Writer) -> Result<(), NoMemory>
    ensures { OnOk result (state onto.new
        ≡ after (state onto.old) (joined (between_token between) part_tokens parts.now)) }
{
    let mut before = None;
    for part in parts {
        write_before(before, onto)?;
        write_part(part, onto)?;
        before = Some(between);
    }
    Ok(())
}

#[cycle(printing)]
fn write_not(of: &Expr, onto: &mut Writer) -> Result<(), NoMemory>
    ensures { OnOk result (state onto.new
        ≡ after (state onto.old) (word words.Not ∷ part_tokens of.now)) }
{
    onto.word(Word::Not)?;
    write_part(of, onto)
}

#[cycle(printing)]
#[tactic(auto, using(crate::proofs::Steps::after_append))]
fn write_tested(of: &Expr, tests: &[bool], onto: &mut Writer) -> Result<(), NoMemory>
    ensures { OnOk result (state onto.new
        ≡ after (state onto.old) (part_tokens of.now ++ flat_map test tests.now)) }
{
    write_part(of, onto)?;
    write_tests(tests, onto)
}

/// The mark of a comparison and its right side.
#[cycle(printing)]
fn write_compared(how: Comparison, right: &Expr, onto: &mut Writer) -> Result<(), NoMemory>
    ensures { OnOk result (state onto.new
        ≡ after (state onto.old) (mark (compares how) ∷ part_tokens right.now)) }
{
    onto.mark(compares(how))?;
    write_part(right, onto)
}

/// IN, or NOT IN, and its list.
#[cycle(printing)]
#[tactic(auto, using(crate::proofs::Steps::after_append))]
fn write_entries(negated: bool, entries: &[Expr], onto: &mut Writer) -> Result<(), NoMemory>
    ensures { OnOk result (state onto.new ≡ after (state onto.old) (negation negated
        ++ word words.In ∷ enclosed (joined (mark Comma) part_tokens entries.now))) }
{
    write_negation(negated, onto)?;
    onto.word(Word::In)?;
    onto.mark(Mark::Open)?;
    write_parts(Between::Comma, entries, onto)?;
    onto.mark(Mark::Close)
}

#[cycle(printing)]
fn write_summands(summands: &[SumPart], onto: &mut Writer) -> Result<(), NoMemory>
    ensures { OnOk result (state onto.new
        ≡ after (state onto.old) (flat_map summand_tokens summands.now)) }
{
    for summand in summands {
        onto.mark(adds(summand.minus))?;
        write_part(&summand.part, onto)?;
    }
    Ok(())
}

#[cycle(printing)]
fn write_factors(factors: &[ProductPart], onto: &mut Writer) -> Result<(), NoMemory>
    ensures { OnOk result (state onto.new
        ≡ after (state onto.old) (flat_map factor_tokens factors.now)) }
{
    for factor in factors {
        onto.mark(multiplies(factor.sign))?;
        write_part(&factor.part, onto)?;
    }
    Ok(())
}

#[cycle(printing)]
fn write_minus(of: &Expr, onto: &mut Writer) -> Result<(), NoMemory>
    ensures { OnOk result (state onto.new ≡ after (state onto.old) (sign ∷ part_tokens of.now)) }
{
    onto.sign()?;
    write_part(of, onto)
}
