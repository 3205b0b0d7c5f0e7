//! Reads SELECT, behind the word that begins it.
ghost use Rattle.std.specs.Prelude.{◌≡◌, ◌<◌, ◌≤◌, length, IfOk, Some};
ghost use Rattle.sql_tokens.specs.Grammar.{part};
ghost use Rattle.sql_tokens.specs.Reading.{Gives, tails};
ghost use Rattle.sql_expr.specs.Reading.{after_comma};
ghost use Rattle.sql_reader.specs.Steps.{listed, done, maybe};
ghost use Rattle.sql_reader.specs.Words.{after_as, after_dot, after_direction};
ghost use Rattle.sql_reader.specs.Reading.{name_at, item_at, counted_at, list_at, order_item_at, order_at, limit_at, for_update_at, source_at, select_at};
ghost use Rattle.sql_reader.specs.Grammar.{select_of};
ghost use Rattle.sql_reader.specs.Sources.{source_of};

use crate::front::in_front;
use crate::marks::{
    mark_as, mark_comma, mark_count, mark_direction, mark_dot, mark_for, mark_from, mark_limit,
    mark_order,
};
use crate::reading::filter;
use crate::words::{item_name, mark_all, mark_close, name, size, word_by, word_update};
use pool_base::{List, Text};
use sql_expr::read_front;
use sql_tokens::{Awaited, Mark, ReadError, Token};
use sql_tree::{Expr, OrderItem, Select, SelectItem, SelectList, Statement};
use std::alloc::Global;

/// The name that AS gives, if it stands there.
fn alias(tokens: &[Token]) -> Result<(Option<Text>, &[Token]), ReadError>
    ensures gives { Gives (λ x. (x.0, x.1.now)) result (maybe after_as (λ _. name_at) tokens.now) }
    ensures no_longer { IfOk result (λ x. length x.1.now ≤ length tokens.now) }
{
    match mark_as(tokens) {
        Some(after) => {
            let (name, rest) = name(after)?;
            Ok((Some(name), rest))
        }
        None => Ok((None, tokens)),
    }
}

/// An expression and its name.
fn item(alloc: Global, tokens: &[Token]) -> Result<(SelectItem, &[Token]), ReadError>
    ensures gives { Gives (λ x. (x.0, x.1.now)) result (item_at 64 tokens.now) }
    ensures shorter { IfOk result (λ x. length x.1.now < length tokens.now) }
{
    let (expr, rest) = read_front(alloc, tokens)?;
    match alias(rest) {
        Ok((name, rest)) => Ok((SelectItem { expr, name }, rest)),
        Err(fault) => {
            drop(expr);
            Err(fault)
        }
    }
}

/// The further expressions and their names.
fn further_items(alloc: Global, tokens: &[Token]) -> Result<(List<SelectItem>, &[Token]), ReadError>
    ensures gives { Gives (λ x. (x.0, x.1.now)) result
        (tails after_comma part (item_at 64) tokens.now) }
    ensures no_longer { IfOk result (λ x. length x.1.now ≤ length tokens.now) }
{
    let mut parts = List::new(alloc);
    let mut rest = tokens;
    while let Some(after) = mark_comma(rest) {
        let (part, after) = item(alloc, after)?;
        parts.push(part)?;
        rest = after;
    }
    Ok((parts, rest))
}

/// The expressions and their names.
fn items(alloc: Global, tokens: &[Token]) -> Result<(List<SelectItem>, &[Token]), ReadError>
    ensures gives { Gives (λ x. (x.0, x.1.now)) result
        (listed after_comma (item_at 64) tokens.now) }
    ensures shorter { IfOk result (λ x. length x.1.now < length tokens.now) }
{
    let (first, rest) = item(alloc, tokens)?;
    match further_items(alloc, rest) {
        Ok((others, rest)) => Ok((in_front(alloc, first, others)?, rest)),
        Err(fault) => {
            drop(first);
            Err(fault)
        }
    }
}

/// The count of rows, behind `count(`.
fn counted(tokens: &[Token]) -> Result<(SelectList, &[Token]), ReadError>
    ensures gives { Gives (λ x. (x.0, x.1.now)) result (counted_at tokens.now) }
    ensures shorter { IfOk result (λ x. length x.1.now < length tokens.now) }
{
    let rest = mark_all(tokens)?;
    let rest = mark_close(rest, Awaited::Statement)?;
    Ok((SelectList::Count, rest))
}

/// What a SELECT gives.
fn list(alloc: Global, tokens: &[Token]) -> Result<(SelectList, &[Token]), ReadError>
    ensures gives { Gives (λ x. (x.0, x.1.now)) result (list_at 64 tokens.now) }
    ensures shorter { IfOk result (λ x. length x.1.now < length tokens.now) }
{
    match tokens {
        [Token::Mark(Mark::Star), after @ ..] => Ok((SelectList::Star, after)),
        _ => match mark_count(tokens) {
            Some(after) => counted(after),
            None => {
                let (items, rest) = items(alloc, tokens)?;
                Ok((SelectList::Items(items), rest))
            }
        },
    }
}

/// What a point brings behind a name.
fn field(tokens: &[Token]) -> Result<(Option<Text>, &[Token]), ReadError>
    ensures gives { Gives (λ x. (x.0, x.1.now)) result
        (maybe after_dot (λ _. name_at) tokens.now) }
    ensures no_longer { IfOk result (λ x. length x.1.now ≤ length tokens.now) }
{
    match mark_dot(tokens) {
        Some(after) => {
            let (name, rest) = name(after)?;
            Ok((Some(name), rest))
        }
        None => Ok((None, tokens)),
    }
}

/// Whether rows rise or fall, if it stands there.
fn direction(tokens: &[Token]) -> Result<(Option<bool>, &[Token]), ReadError>
    ensures gives { Gives (λ x. (x.0, x.1.now)) result (maybe after_direction done tokens.now) }
    ensures no_longer { IfOk result (λ x. length x.1.now ≤ length tokens.now) }
{
    match mark_direction(tokens) {
        Some((falling, after)) => Ok((Some(falling), after)),
        None => Ok((None, tokens)),
    }
}

/// A column that rows are ordered by.
fn order_item(tokens: &[Token]) -> Result<(OrderItem, &[Token]), ReadError>
    ensures gives { Gives (λ x. (x.0, x.1.now)) result (order_item_at tokens.now) }
    ensures shorter { IfOk result (λ x. length x.1.now < length tokens.now) }
{
    let (first, rest) = item_name(tokens)?;
    let (second, rest) = field(rest)?;
    let (falling, rest) = direction(rest)?;
    let falling = match falling {
        Some(falling) => falling,
        None => false,
    };
    let item = match second {
        Some(column) => OrderItem {
            qualifier: Some(first),
            column,
            falling,
        },
        None => OrderItem {
            qualifier: None,
            column: first,
            falling,
        },
    };
    Ok((item, rest))
}

/// The further columns that rows are ordered by.
fn further_orders(alloc: Global, tokens: &[Token]) -> Result<(List<OrderItem>, &[Token]), ReadError>
    ensures gives { Gives (λ x. (x.0, x.1.now)) result
        (tails after_comma part order_item_at tokens.now) }
    ensures no_longer { IfOk result (λ x. length x.1.now ≤ length tokens.now) }
{
    let mut parts = List::new(alloc);
    let mut rest = tokens;
    while let Some(after) = mark_comma(rest) {
        let (part, after) = order_item(after)?;
        parts.push(part)?;
        rest = after;
    }
    Ok((parts, rest))
}

/// The columns that rows are ordered by.
fn orders(alloc: Global, tokens: &[Token]) -> Result<(List<OrderItem>, &[Token]), ReadError>
    ensures gives { Gives (λ x. (x.0, x.1.now)) result
        (listed after_comma order_item_at tokens.now) }
    ensures shorter { IfOk result (λ x. length x.1.now < length tokens.now) }
{
    let (first, rest) = order_item(tokens)?;
    let (others, rest) = further_orders(alloc, rest)?;
    Ok((in_front(alloc, first, others)?, rest))
}

/// The order of the rows, if it stands there.
fn order(alloc: Global, tokens: &[Token]) -> Result<(Option<List<OrderItem>>, &[Token]), ReadError>
    ensures gives { Gives (λ x. (x.0, x.1.now)) result (order_at tokens.now) }
    ensures no_longer { IfOk result (λ x. length x.1.now ≤ length tokens.now) }
{
    match mark_order(tokens) {
        Some(after) => {
            let rest = word_by(after)?;
            let (items, rest) = orders(alloc, rest)?;
            Ok((Some(items), rest))
        }
        None => Ok((None, tokens)),
    }
}

/// The limit of the number of rows, if it stands there.
fn limit(alloc: Global, tokens: &[Token]) -> Result<(Option<Expr>, &[Token]), ReadError>
    ensures gives { Gives (λ x. (x.0, x.1.now)) result (limit_at tokens.now) }
    ensures no_longer { IfOk result (λ x. length x.1.now ≤ length tokens.now) }
{
    match mark_limit(tokens) {
        Some(after) => {
            let (size, rest) = size(alloc, after)?;
            Ok((Some(size), rest))
        }
        None => Ok((None, tokens)),
    }
}

/// Whether FOR UPDATE stands there.
fn for_update(tokens: &[Token]) -> Result<(Option<()>, &[Token]), ReadError>
    ensures gives { Gives (λ x. (x.0, x.1.now)) result (for_update_at tokens.now) }
    ensures no_longer { IfOk result (λ x. length x.1.now ≤ length tokens.now) }
{
    match mark_for(tokens) {
        Some(after) => {
            let rest = word_update(after)?;
            Ok((Some(()), rest))
        }
        None => Ok((None, tokens)),
    }
}

/// What stands behind FROM.
#[derive(Drop)]
struct Source {
    table: Text,
    filter: Option<Expr>,
    order: Option<List<OrderItem>>,
    limit: Option<Expr>,
    for_update: Option<()>,
}

/// The table, and what is said of its rows, behind FROM.
fn behind_from(alloc: Global, tokens: &[Token]) -> Result<(Source, &[Token]), ReadError>
    ensures gives { Gives (λ x. (source_of x.0, x.1.now)) result (source_at 64 tokens.now) }
    ensures no_longer { IfOk result (λ x. length x.1.now ≤ length tokens.now) }
{
    let (table, rest) = name(tokens)?;
    let (filter, rest) = filter(alloc, rest)?;
    let (order, rest) = match order(alloc, rest) {
        Ok(found) => found,
        Err(fault) => {
            drop(filter);
            return Err(fault);
        }
    };
    let (limit, rest) = match limit(alloc, rest) {
        Ok(found) => found,
        Err(fault) => {
            drop(filter);
            return Err(fault);
        }
    };
    match for_update(rest) {
        Ok((for_update, rest)) => {
            let source = Source {
                table,
                filter,
                order,
                limit,
                for_update,
            };
            Ok((source, rest))
        }
        Err(fault) => {
            drop(filter);
            drop(limit);
            Err(fault)
        }
    }
}

/// The SELECT of a list from a table.
fn of_source(alloc: Global, list: SelectList, source: Source) -> Statement
    ensures { result ≡ select_of (list, Some (source_of source)) }
{
    let Source {
        table,
        filter,
        order,
        limit,
        for_update,
    } = source;
    let order = match order {
        Some(items) => items,
        None => List::new(alloc),
    };
    Statement::Select(Select {
        list,
        table: Some(table),
        filter,
        order,
        limit,
        for_update: for_update.is_some(),
    })
}

/// What is read from a table, behind SELECT.
pub(crate) fn select(alloc: Global, tokens: &[Token]) -> Result<(Statement, &[Token]), ReadError>
    ensures gives { Gives (λ x. (x.0, x.1.now)) result (select_at 64 tokens.now) }
    ensures no_longer { IfOk result (λ x. length x.1.now ≤ length tokens.now) }
{
    let (list, rest) = list(alloc, tokens)?;
    match mark_from(rest) {
        Some(after) => {
            let (source, rest) = behind_from(alloc, after)?;
            Ok((of_source(alloc, list, source), rest))
        }
        None => {
            let select = Select {
                list,
                table: None,
                filter: None,
                order: List::new(alloc),
                limit: None,
                for_update: false,
            };
            Ok((Statement::Select(select), rest))
        }
    }
}
