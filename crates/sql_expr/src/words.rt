//! One or two tokens that must stand at the front.
ghost use Rattle.std.specs.Prelude.{◌≡◌, ◌<◌, length, IfOk};
ghost use Rattle.sql_tokens.specs.Reading.{Gives};
ghost use Rattle.sql_expr.specs.Reading.{close_at, in_at, null_at, name_at, string_at, nullity_at, called_at, function_of};

use crate::opening::Function;
use pool_base::Text;
use sql_tokens::{Awaited, Mark, Name, ReadError, Token, Word, unexpected};
use sql_tree::Expr;

/// What follows the `)` of an expression.
pub(crate) fn close(tokens: &[Token]) -> Result<&[Token], ReadError>
    ensures gives { Gives (λ x. (tt, x.now)) result (close_at tokens.now) }
    ensures shorter { IfOk result (λ x. length x.now < length tokens.now) }
{
    match tokens {
        [Token::Mark(Mark::Close), after @ ..] => Ok(after),
        _ => Err(unexpected(tokens, Awaited::Close)),
    }
}

/// What follows IN.
pub(crate) fn word_in(tokens: &[Token]) -> Result<&[Token], ReadError>
    ensures gives { Gives (λ x. (tt, x.now)) result (in_at tokens.now) }
    ensures shorter { IfOk result (λ x. length x.now < length tokens.now) }
{
    match tokens {
        [Token::Word(Word::In), after @ ..] => Ok(after),
        _ => Err(unexpected(tokens, Awaited::Word)),
    }
}

/// What follows NULL.
pub(crate) fn word_null(tokens: &[Token]) -> Result<&[Token], ReadError>
    ensures gives { Gives (λ x. (tt, x.now)) result (null_at tokens.now) }
    ensures shorter { IfOk result (λ x. length x.now < length tokens.now) }
{
    match tokens {
        [Token::Word(Word::Null), after @ ..] => Ok(after),
        _ => Err(unexpected(tokens, Awaited::Word)),
    }
}

/// The text of a name, and what follows it.
pub(crate) fn name(tokens: &[Token]) -> Result<(Text, &[Token]), ReadError>
    ensures gives { Gives (λ x. (x.0, x.1.now)) result (name_at tokens.now) }
    ensures shorter { IfOk result (λ x. length x.1.now < length tokens.now) }
{
    match tokens {
        [Token::Name(name), after @ ..] => Ok((name.text.clone()?, after)),
        _ => Err(unexpected(tokens, Awaited::Word)),
    }
}

/// A string, and what follows it.
pub(crate) fn string(tokens: &[Token]) -> Result<(Text, &[Token]), ReadError>
    ensures gives { Gives (λ x. (x.0, x.1.now)) result (string_at tokens.now) }
    ensures shorter { IfOk result (λ x. length x.1.now < length tokens.now) }
{
    match tokens {
        [Token::Str(text), after @ ..] => Ok((text.clone()?, after)),
        _ => Err(unexpected(tokens, Awaited::Word)),
    }
}

/// Whether NOT NULL and no NULL alone stands there, and what follows.
pub(crate) fn nullity(tokens: &[Token]) -> Result<(bool, &[Token]), ReadError>
    ensures gives { Gives (λ x. (x.0, x.1.now)) result (nullity_at tokens.now) }
    ensures shorter { IfOk result (λ x. length x.1.now < length tokens.now) }
{
    match tokens {
        [Token::Word(Word::Null), after @ ..] => Ok((false, after)),
        [Token::Word(Word::Not), after @ ..] => {
            let after = word_null(after)?;
            Ok((true, after))
        }
        _ => Err(unexpected(tokens, Awaited::Word)),
    }
}

/// The call of a function, behind its `(`.
pub(crate) fn called(function: Function, tokens: &[Token]) -> Result<(Expr, &[Token]), ReadError>
    ensures gives { Gives (λ x. (x.0, x.1.now)) result (called_at function tokens.now) }
    ensures shorter { IfOk result (λ x. length x.1.now < length tokens.now) }
{
    match tokens {
        [Token::Mark(Mark::Close), after @ ..] => {
            let call = match function {
                Function::Now => Expr::Now,
                Function::TransactionTimestamp => Expr::TransactionTimestamp,
            };
            Ok((call, after))
        }
        _ => Err(unexpected(tokens, Awaited::Arguments)),
    }
}

/// The function that a name calls where `(` follows it.
pub(crate) fn function_of(name: &Name) -> Option<Function>
    ensures { result ≡ function_of name.now }
{
    if name.quoted {
        return None;
    }
    let text = name.text.as_str();
    if text == "now" {
        return Some(Function::Now);
    }
    if text == "transaction_timestamp" {
        return Some(Function::TransactionTimestamp);
    }
    None
}
