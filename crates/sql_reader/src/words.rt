//! One token that must stand at the front.
ghost use Rattle.std.specs.Prelude.{◌≡◌, ◌<◌, length, IfOk, codes};
ghost use Rattle.sql_tokens.specs.declared.fault.Awaited.TheVariants.{Statement as Wanted, Values, Star, Item};
ghost use Rattle.sql_tokens.specs.Reading.{Gives};
ghost use Rattle.sql_reader.specs.Steps.{needed, one_of, done};
ghost use Rattle.sql_reader.specs.Words.{after_from, after_set, after_equal, after_transaction, after_level, after_repeatable, after_read, after_into, after_values, after_open, after_by, after_update, after_star, after_close, after_name, after_plain, is_plain};
ghost use Rattle.sql_reader.specs.Reading.{name_at, backend_at, size_at, negative_at};

use pool_base::{Boxed, Text};
use sql_tokens::{Awaited, Mark, Name, ReadError, Token, Word, unexpected};
use sql_tree::Expr;
use std::alloc::Global;

/// What follows FROM.
pub(crate) fn word_from(tokens: &[Token]) -> Result<&[Token], ReadError>
    ensures gives { Gives (λ x. (tt, x.now)) result (needed after_from Wanted tokens.now) }
    ensures shorter { IfOk result (λ x. length x.now < length tokens.now) }
{
    match tokens {
        [Token::Word(Word::From), after @ ..] => Ok(after),
        _ => Err(unexpected(tokens, Awaited::Statement)),
    }
}

/// What follows SET.
pub(crate) fn word_set(tokens: &[Token]) -> Result<&[Token], ReadError>
    ensures gives { Gives (λ x. (tt, x.now)) result (needed after_set Wanted tokens.now) }
    ensures shorter { IfOk result (λ x. length x.now < length tokens.now) }
{
    match tokens {
        [Token::Word(Word::Set), after @ ..] => Ok(after),
        _ => Err(unexpected(tokens, Awaited::Statement)),
    }
}

/// What follows `=`.
pub(crate) fn mark_equal(tokens: &[Token]) -> Result<&[Token], ReadError>
    ensures gives { Gives (λ x. (tt, x.now)) result (needed after_equal Wanted tokens.now) }
    ensures shorter { IfOk result (λ x. length x.now < length tokens.now) }
{
    match tokens {
        [Token::Mark(Mark::Equal), after @ ..] => Ok(after),
        _ => Err(unexpected(tokens, Awaited::Statement)),
    }
}

/// What follows TRANSACTION.
pub(crate) fn word_transaction(tokens: &[Token]) -> Result<&[Token], ReadError>
    ensures gives { Gives (λ x. (tt, x.now)) result (needed after_transaction Wanted tokens.now) }
    ensures shorter { IfOk result (λ x. length x.now < length tokens.now) }
{
    match tokens {
        [Token::Word(Word::Transaction), after @ ..] => Ok(after),
        _ => Err(unexpected(tokens, Awaited::Statement)),
    }
}

/// What follows LEVEL.
pub(crate) fn word_level(tokens: &[Token]) -> Result<&[Token], ReadError>
    ensures gives { Gives (λ x. (tt, x.now)) result (needed after_level Wanted tokens.now) }
    ensures shorter { IfOk result (λ x. length x.now < length tokens.now) }
{
    match tokens {
        [Token::Word(Word::Level), after @ ..] => Ok(after),
        _ => Err(unexpected(tokens, Awaited::Statement)),
    }
}

/// What follows REPEATABLE.
pub(crate) fn word_repeatable(tokens: &[Token]) -> Result<&[Token], ReadError>
    ensures gives { Gives (λ x. (tt, x.now)) result (needed after_repeatable Wanted tokens.now) }
    ensures shorter { IfOk result (λ x. length x.now < length tokens.now) }
{
    match tokens {
        [Token::Word(Word::Repeatable), after @ ..] => Ok(after),
        _ => Err(unexpected(tokens, Awaited::Statement)),
    }
}

/// What follows READ.
pub(crate) fn word_read(tokens: &[Token]) -> Result<&[Token], ReadError>
    ensures gives { Gives (λ x. (tt, x.now)) result (needed after_read Wanted tokens.now) }
    ensures shorter { IfOk result (λ x. length x.now < length tokens.now) }
{
    match tokens {
        [Token::Word(Word::Read), after @ ..] => Ok(after),
        _ => Err(unexpected(tokens, Awaited::Statement)),
    }
}

/// What follows INTO.
pub(crate) fn word_into(tokens: &[Token]) -> Result<&[Token], ReadError>
    ensures gives { Gives (λ x. (tt, x.now)) result (needed after_into Wanted tokens.now) }
    ensures shorter { IfOk result (λ x. length x.now < length tokens.now) }
{
    match tokens {
        [Token::Word(Word::Into), after @ ..] => Ok(after),
        _ => Err(unexpected(tokens, Awaited::Statement)),
    }
}

/// What follows VALUES.
pub(crate) fn word_values(tokens: &[Token]) -> Result<&[Token], ReadError>
    ensures gives { Gives (λ x. (tt, x.now)) result (needed after_values Values tokens.now) }
    ensures shorter { IfOk result (λ x. length x.now < length tokens.now) }
{
    match tokens {
        [Token::Word(Word::Values), after @ ..] => Ok(after),
        _ => Err(unexpected(tokens, Awaited::Values)),
    }
}

/// What follows the `(` of a row.
pub(crate) fn mark_row(tokens: &[Token]) -> Result<&[Token], ReadError>
    ensures gives { Gives (λ x. (tt, x.now)) result (needed after_open Wanted tokens.now) }
    ensures shorter { IfOk result (λ x. length x.now < length tokens.now) }
{
    match tokens {
        [Token::Mark(Mark::Open), after @ ..] => Ok(after),
        _ => Err(unexpected(tokens, Awaited::Statement)),
    }
}

/// What follows BY.
pub(crate) fn word_by(tokens: &[Token]) -> Result<&[Token], ReadError>
    ensures gives { Gives (λ x. (tt, x.now)) result (needed after_by Wanted tokens.now) }
    ensures shorter { IfOk result (λ x. length x.now < length tokens.now) }
{
    match tokens {
        [Token::Word(Word::By), after @ ..] => Ok(after),
        _ => Err(unexpected(tokens, Awaited::Statement)),
    }
}

/// What follows UPDATE.
pub(crate) fn word_update(tokens: &[Token]) -> Result<&[Token], ReadError>
    ensures gives { Gives (λ x. (tt, x.now)) result (needed after_update Wanted tokens.now) }
    ensures shorter { IfOk result (λ x. length x.now < length tokens.now) }
{
    match tokens {
        [Token::Word(Word::Update), after @ ..] => Ok(after),
        _ => Err(unexpected(tokens, Awaited::Statement)),
    }
}

/// What follows the `*` of `count(`.
pub(crate) fn mark_all(tokens: &[Token]) -> Result<&[Token], ReadError>
    ensures gives { Gives (λ x. (tt, x.now)) result (needed after_star Star tokens.now) }
    ensures shorter { IfOk result (λ x. length x.now < length tokens.now) }
{
    match tokens {
        [Token::Mark(Mark::Star), after @ ..] => Ok(after),
        _ => Err(unexpected(tokens, Awaited::Star)),
    }
}

/// What follows `)`.
pub(crate) fn mark_close(tokens: &[Token], awaited: Awaited) -> Result<&[Token], ReadError>
    ensures gives { Gives (λ x. (tt, x.now)) result (needed after_close awaited tokens.now) }
    ensures shorter { IfOk result (λ x. length x.now < length tokens.now) }
{
    match tokens {
        [Token::Mark(Mark::Close), after @ ..] => Ok(after),
        _ => Err(unexpected(tokens, awaited)),
    }
}

/// The text of a name, and what follows it.
pub(crate) fn name(tokens: &[Token]) -> Result<(Text, &[Token]), ReadError>
    ensures gives { Gives (λ x. (x.0, x.1.now)) result (name_at tokens.now) }
    ensures shorter { IfOk result (λ x. length x.1.now < length tokens.now) }
{
    match tokens {
        [Token::Name(name), after @ ..] => Ok((name.text.clone()?, after)),
        _ => Err(unexpected(tokens, Awaited::Statement)),
    }
}

/// The name with which an item of ORDER BY begins, and what follows it.
pub(crate) fn item_name(tokens: &[Token]) -> Result<(Text, &[Token]), ReadError>
    ensures gives { Gives (λ x. (x.0, x.1.now)) result
        (one_of after_name Item (λ n. done n.text) tokens.now) }
    ensures shorter { IfOk result (λ x. length x.1.now < length tokens.now) }
{
    match tokens {
        [Token::Name(name), after @ ..] => Ok((name.text.clone()?, after)),
        _ => Err(unexpected(tokens, Awaited::Item)),
    }
}

/// What follows `pool_nodes`.
pub(crate) fn name_pool_nodes(tokens: &[Token]) -> Result<&[Token], ReadError>
    ensures gives { Gives (λ x. (tt, x.now)) result
        (needed (after_plain (codes "pool_nodes")) Wanted tokens.now) }
    ensures shorter { IfOk result (λ x. length x.now < length tokens.now) }
{
    match tokens {
        [Token::Name(name), after @ ..] if is_plain(name, "pool_nodes") => Ok(after),
        _ => Err(unexpected(tokens, Awaited::Statement)),
    }
}

/// What follows `recover`.
pub(crate) fn name_recover(tokens: &[Token]) -> Result<&[Token], ReadError>
    ensures gives { Gives (λ x. (tt, x.now)) result
        (needed (after_plain (codes "recover")) Wanted tokens.now) }
    ensures shorter { IfOk result (λ x. length x.now < length tokens.now) }
{
    match tokens {
        [Token::Name(name), after @ ..] if is_plain(name, "recover") => Ok(after),
        _ => Err(unexpected(tokens, Awaited::Statement)),
    }
}

/// Whether the name stands without quotes, and is this word.
pub(crate) fn is_plain(name: &Name, word: &str) -> bool
    ensures { result ≡ is_plain word.now name.now }
{
    !name.quoted && name.text.as_str() == word
}

/// The number of a backend, and what follows it.
#[tactic(auto, using(crate::proofs::Backends::backend_ok, crate::proofs::Backends::backend_no))]
pub(crate) fn backend(tokens: &[Token]) -> Result<(u8, &[Token]), ReadError>
    ensures gives { Gives (λ x. (x.0, x.1.now)) result (backend_at tokens.now) }
    ensures shorter { IfOk result (λ x. length x.1.now < length tokens.now) }
{
    match tokens {
        [Token::Number(number), after @ ..] => match u8::try_from(*number) {
            Ok(backend) => Ok((backend, after)),
            Err(_) => Err(unexpected(tokens, Awaited::Backend)),
        },
        _ => Err(unexpected(tokens, Awaited::Backend)),
    }
}

/// What stands behind the minus of a limit, and the tree of both.
fn negative(alloc: Global, tokens: &[Token]) -> Result<(Expr, &[Token]), ReadError>
    ensures gives { Gives (λ x. (x.0, x.1.now)) result (negative_at tokens.now) }
    ensures shorter { IfOk result (λ x. length x.1.now < length tokens.now) }
{
    match tokens {
        [Token::Number(number), after @ ..] => {
            let size = Boxed::new(alloc, Expr::Int(*number))?;
            Ok((Expr::Minus(size), after))
        }
        [Token::Least, after @ ..] => Ok((Expr::Int(i64::MIN), after)),
        _ => Err(unexpected(tokens, Awaited::Statement)),
    }
}

/// The number of rows of a limit, and what follows it.
pub(crate) fn size(alloc: Global, tokens: &[Token]) -> Result<(Expr, &[Token]), ReadError>
    ensures gives { Gives (λ x. (x.0, x.1.now)) result (size_at tokens.now) }
    ensures shorter { IfOk result (λ x. length x.1.now < length tokens.now) }
{
    match tokens {
        [Token::Number(number), after @ ..] => Ok((Expr::Int(*number), after)),
        [Token::Mark(Mark::Minus), after @ ..] => negative(alloc, after),
        [Token::Word(Word::Null), after @ ..] => Ok((Expr::Null, after)),
        [Token::Param(number), after @ ..] => Ok((Expr::Param(*number), after)),
        _ => Err(unexpected(tokens, Awaited::Statement)),
    }
}
