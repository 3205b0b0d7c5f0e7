//! Reads DELETE and UPDATE, behind the word that begins each.
ghost use Rattle.std.specs.Prelude.{◌≡◌, ◌<◌, ◌≤◌, length, IfOk};
ghost use Rattle.sql_tokens.specs.Grammar.{part};
ghost use Rattle.sql_tokens.specs.Reading.{Gives, tails};
ghost use Rattle.sql_expr.specs.Reading.{after_comma};
ghost use Rattle.sql_reader.specs.Steps.{listed};
ghost use Rattle.sql_reader.specs.Reading.{filter_at, delete_at, set_at, update_at};

use crate::front::in_front;
use crate::marks::{mark_comma, mark_where};
use crate::words::{mark_equal, name, word_from, word_set};
use pool_base::List;
use sql_expr::read_front;
use sql_tokens::{ReadError, Token};
use sql_tree::{Delete, Expr, SetItem, Statement, Update};
use std::alloc::Global;

/// The condition of the rows, if there is one.
pub(crate) fn filter(alloc: Global, tokens: &[Token]) -> Result<(Option<Expr>, &[Token]), ReadError>
    ensures gives { Gives (λ x. (x.0, x.1.now)) result (filter_at 64 tokens.now) }
    ensures no_longer { IfOk result (λ x. length x.1.now ≤ length tokens.now) }
{
    match mark_where(tokens) {
        Some(after) => {
            let (condition, rest) = read_front(alloc, after)?;
            Ok((Some(condition), rest))
        }
        None => Ok((None, tokens)),
    }
}

/// A deletion, behind DELETE.
pub(crate) fn delete(alloc: Global, tokens: &[Token]) -> Result<(Statement, &[Token]), ReadError>
    ensures gives { Gives (λ x. (x.0, x.1.now)) result (delete_at 64 tokens.now) }
    ensures shorter { IfOk result (λ x. length x.1.now < length tokens.now) }
{
    let rest = word_from(tokens)?;
    let (table, rest) = name(rest)?;
    let (filter, rest) = filter(alloc, rest)?;
    Ok((Statement::Delete(Delete { table, filter }), rest))
}

/// A column and its new value.
fn set(alloc: Global, tokens: &[Token]) -> Result<(SetItem, &[Token]), ReadError>
    ensures gives { Gives (λ x. (x.0, x.1.now)) result (set_at 64 tokens.now) }
    ensures shorter { IfOk result (λ x. length x.1.now < length tokens.now) }
{
    let (column, rest) = name(tokens)?;
    let rest = mark_equal(rest)?;
    let (expr, rest) = read_front(alloc, rest)?;
    Ok((SetItem { column, expr }, rest))
}

/// The further columns and their values.
fn further_sets(alloc: Global, tokens: &[Token]) -> Result<(List<SetItem>, &[Token]), ReadError>
    ensures gives { Gives (λ x. (x.0, x.1.now)) result
        (tails after_comma part (set_at 64) tokens.now) }
    ensures no_longer { IfOk result (λ x. length x.1.now ≤ length tokens.now) }
{
    let mut parts = List::new(alloc);
    let mut rest = tokens;
    while let Some(after) = mark_comma(rest) {
        let (part, after) = set(alloc, after)?;
        parts.push(part)?;
        rest = after;
    }
    Ok((parts, rest))
}

/// The columns and their new values.
fn sets(alloc: Global, tokens: &[Token]) -> Result<(List<SetItem>, &[Token]), ReadError>
    ensures gives { Gives (λ x. (x.0, x.1.now)) result (listed after_comma (set_at 64) tokens.now) }
    ensures shorter { IfOk result (λ x. length x.1.now < length tokens.now) }
{
    let (first, rest) = set(alloc, tokens)?;
    match further_sets(alloc, rest) {
        Ok((others, rest)) => Ok((in_front(alloc, first, others)?, rest)),
        Err(fault) => {
            drop(first);
            Err(fault)
        }
    }
}

/// A change, behind UPDATE.
pub(crate) fn update(alloc: Global, tokens: &[Token]) -> Result<(Statement, &[Token]), ReadError>
    ensures gives { Gives (λ x. (x.0, x.1.now)) result (update_at 64 tokens.now) }
    ensures shorter { IfOk result (λ x. length x.1.now < length tokens.now) }
{
    let (table, rest) = name(tokens)?;
    let rest = word_set(rest)?;
    let (sets, rest) = sets(alloc, rest)?;
    let (filter, rest) = filter(alloc, rest)?;
    Ok((
        Statement::Update(Update {
            table,
            sets,
            filter,
        }),
        rest,
    ))
}
