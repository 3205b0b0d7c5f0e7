//! One token that may stand at the front.
ghost use Rattle.std.specs.Prelude.{◌≡◌, ◌<◌, length, IfSome, Some, None};
ghost use Rattle.std.specs.Option.{option_map};
ghost use Rattle.sql_expr.specs.Reading.{after_comma};
ghost use Rattle.sql_reader.specs.Words.{after_where, after_isolation, after_open, after_default, after_as, after_dot, after_from, after_order, after_limit, after_for, after_work, after_direction, after_count, after_verb};

use crate::verb::Verb;
use crate::words::is_plain;
use sql_tokens::{Mark, Token, Word};

/// What follows WHERE at the front.
pub(crate) fn mark_where(tokens: &[Token]) -> Option<&[Token]>
    ensures gives { option_map (λ ts. (tt, ts.now)) result ≡ after_where tokens.now }
    ensures shorter { IfSome result (λ ts. length ts.now < length tokens.now) }
{
    match tokens {
        [Token::Word(Word::Where), after @ ..] => Some(after),
        _ => None,
    }
}

/// What follows `,` at the front.
pub(crate) fn mark_comma(tokens: &[Token]) -> Option<&[Token]>
    ensures gives { option_map (λ ts. (tt, ts.now)) result ≡ after_comma tokens.now }
    ensures shorter { IfSome result (λ ts. length ts.now < length tokens.now) }
{
    match tokens {
        [Token::Mark(Mark::Comma), after @ ..] => Some(after),
        _ => None,
    }
}

/// What follows ISOLATION at the front.
pub(crate) fn mark_isolation(tokens: &[Token]) -> Option<&[Token]>
    ensures gives { option_map (λ ts. (tt, ts.now)) result ≡ after_isolation tokens.now }
    ensures shorter { IfSome result (λ ts. length ts.now < length tokens.now) }
{
    match tokens {
        [Token::Word(Word::Isolation), after @ ..] => Some(after),
        _ => None,
    }
}

/// What follows `(` at the front.
pub(crate) fn mark_open(tokens: &[Token]) -> Option<&[Token]>
    ensures gives { option_map (λ ts. (tt, ts.now)) result ≡ after_open tokens.now }
    ensures shorter { IfSome result (λ ts. length ts.now < length tokens.now) }
{
    match tokens {
        [Token::Mark(Mark::Open), after @ ..] => Some(after),
        _ => None,
    }
}

/// What follows DEFAULT at the front.
pub(crate) fn mark_default(tokens: &[Token]) -> Option<&[Token]>
    ensures gives { option_map (λ ts. (tt, ts.now)) result ≡ after_default tokens.now }
    ensures shorter { IfSome result (λ ts. length ts.now < length tokens.now) }
{
    match tokens {
        [Token::Word(Word::Default), after @ ..] => Some(after),
        _ => None,
    }
}

/// What follows AS at the front.
pub(crate) fn mark_as(tokens: &[Token]) -> Option<&[Token]>
    ensures gives { option_map (λ ts. (tt, ts.now)) result ≡ after_as tokens.now }
    ensures shorter { IfSome result (λ ts. length ts.now < length tokens.now) }
{
    match tokens {
        [Token::Word(Word::As), after @ ..] => Some(after),
        _ => None,
    }
}

/// What follows `.` at the front.
pub(crate) fn mark_dot(tokens: &[Token]) -> Option<&[Token]>
    ensures gives { option_map (λ ts. (tt, ts.now)) result ≡ after_dot tokens.now }
    ensures shorter { IfSome result (λ ts. length ts.now < length tokens.now) }
{
    match tokens {
        [Token::Mark(Mark::Dot), after @ ..] => Some(after),
        _ => None,
    }
}

/// What follows FROM at the front.
pub(crate) fn mark_from(tokens: &[Token]) -> Option<&[Token]>
    ensures gives { option_map (λ ts. (tt, ts.now)) result ≡ after_from tokens.now }
    ensures shorter { IfSome result (λ ts. length ts.now < length tokens.now) }
{
    match tokens {
        [Token::Word(Word::From), after @ ..] => Some(after),
        _ => None,
    }
}

/// What follows ORDER at the front.
pub(crate) fn mark_order(tokens: &[Token]) -> Option<&[Token]>
    ensures gives { option_map (λ ts. (tt, ts.now)) result ≡ after_order tokens.now }
    ensures shorter { IfSome result (λ ts. length ts.now < length tokens.now) }
{
    match tokens {
        [Token::Word(Word::Order), after @ ..] => Some(after),
        _ => None,
    }
}

/// What follows LIMIT at the front.
pub(crate) fn mark_limit(tokens: &[Token]) -> Option<&[Token]>
    ensures gives { option_map (λ ts. (tt, ts.now)) result ≡ after_limit tokens.now }
    ensures shorter { IfSome result (λ ts. length ts.now < length tokens.now) }
{
    match tokens {
        [Token::Word(Word::Limit), after @ ..] => Some(after),
        _ => None,
    }
}

/// What follows FOR at the front.
pub(crate) fn mark_for(tokens: &[Token]) -> Option<&[Token]>
    ensures gives { option_map (λ ts. (tt, ts.now)) result ≡ after_for tokens.now }
    ensures shorter { IfSome result (λ ts. length ts.now < length tokens.now) }
{
    match tokens {
        [Token::Word(Word::For), after @ ..] => Some(after),
        _ => None,
    }
}

/// Whether TRANSACTION and not WORK is at the front, and what follows it.
pub(crate) fn mark_work(tokens: &[Token]) -> Option<(bool, &[Token])>
    ensures gives { option_map (λ m. (m.0, m.1.now)) result ≡ after_work tokens.now }
    ensures shorter { IfSome result (λ m. length m.1.now < length tokens.now) }
{
    match tokens {
        [Token::Word(Word::Work), after @ ..] => Some((false, after)),
        [Token::Word(Word::Transaction), after @ ..] => Some((true, after)),
        _ => None,
    }
}

/// Whether DESC and not ASC is at the front, and what follows it.
pub(crate) fn mark_direction(tokens: &[Token]) -> Option<(bool, &[Token])>
    ensures gives { option_map (λ m. (m.0, m.1.now)) result ≡ after_direction tokens.now }
    ensures shorter { IfSome result (λ m. length m.1.now < length tokens.now) }
{
    match tokens {
        [Token::Word(Word::Asc), after @ ..] => Some((false, after)),
        [Token::Word(Word::Desc), after @ ..] => Some((true, after)),
        _ => None,
    }
}

/// What follows `count` and `(` at the front.
pub(crate) fn mark_count(tokens: &[Token]) -> Option<&[Token]>
    ensures gives { option_map (λ ts. (tt, ts.now)) result ≡ after_count tokens.now }
    ensures shorter { IfSome result (λ ts. length ts.now < length tokens.now) }
{
    match tokens {
        [Token::Name(name), Token::Mark(Mark::Open), after @ ..] => {
            if is_plain(name, "count") {
                Some(after)
            } else {
                None
            }
        }
        _ => None,
    }
}

/// The word that begins a statement, and what follows it.
pub(crate) fn mark_verb(tokens: &[Token]) -> Option<(Verb, &[Token])>
    ensures gives { option_map (λ m. (m.0, m.1.now)) result ≡ after_verb tokens.now }
    ensures shorter { IfSome result (λ m. length m.1.now < length tokens.now) }
{
    match tokens {
        [Token::Word(Word::Select), after @ ..] => Some((Verb::Select, after)),
        [Token::Word(Word::Insert), after @ ..] => Some((Verb::Insert, after)),
        [Token::Word(Word::Update), after @ ..] => Some((Verb::Update, after)),
        [Token::Word(Word::Delete), after @ ..] => Some((Verb::Delete, after)),
        [Token::Word(Word::Begin), after @ ..] => Some((Verb::Begin, after)),
        [Token::Word(Word::Start), after @ ..] => Some((Verb::Start, after)),
        [Token::Word(Word::Commit), after @ ..] => Some((Verb::Commit, after)),
        [Token::Word(Word::End), after @ ..] => Some((Verb::End, after)),
        [Token::Word(Word::Rollback), after @ ..] => Some((Verb::Rollback, after)),
        [Token::Word(Word::Abort), after @ ..] => Some((Verb::Abort, after)),
        [Token::Word(Word::Show), after @ ..] => Some((Verb::Show, after)),
        [Token::Name(name), after @ ..] => {
            if is_plain(name, "pgpool") {
                Some((Verb::Pgpool, after))
            } else {
                None
            }
        }
        _ => None,
    }
}
