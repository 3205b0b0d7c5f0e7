//! The marks between the parts of a chain.
ghost use Rattle.std.specs.Prelude.{◌≡◌, ◌<◌, length, IfSome, Some, None};
ghost use Rattle.std.specs.Option.{option_map};
ghost use Rattle.sql_expr.specs.Reading.{after_or, after_and, after_is, after_comma, after_bars, after_sign, after_factor_sign};

use sql_tokens::{Mark, Token, Word};
use sql_tree::ProductSign;

/// What follows OR at the front.
pub(crate) fn mark_or(tokens: &[Token]) -> Option<&[Token]>
    ensures gives { option_map (λ ts. (tt, ts.now)) result ≡ after_or tokens.now }
    ensures shorter { IfSome result (λ ts. length ts.now < length tokens.now) }
{
    match tokens {
        [Token::Word(Word::Or), after @ ..] => Some(after),
        _ => None,
    }
}

/// What follows AND at the front.
pub(crate) fn mark_and(tokens: &[Token]) -> Option<&[Token]>
    ensures gives { option_map (λ ts. (tt, ts.now)) result ≡ after_and tokens.now }
    ensures shorter { IfSome result (λ ts. length ts.now < length tokens.now) }
{
    match tokens {
        [Token::Word(Word::And), after @ ..] => Some(after),
        _ => None,
    }
}

/// What follows IS at the front.
pub(crate) fn mark_is(tokens: &[Token]) -> Option<&[Token]>
    ensures gives { option_map (λ ts. (tt, ts.now)) result ≡ after_is tokens.now }
    ensures shorter { IfSome result (λ ts. length ts.now < length tokens.now) }
{
    match tokens {
        [Token::Word(Word::Is), after @ ..] => Some(after),
        _ => None,
    }
}

/// What follows `,` at the front.
pub(crate) fn mark_comma(tokens: &[Token]) -> Option<&[Token]>
    ensures gives { option_map (λ ts. (tt, ts.now)) result ≡ after_comma tokens.now }
    ensures shorter { IfSome result (λ ts. length ts.now < length tokens.now) }
{
    match tokens {
        [Token::Mark(Mark::Comma), after @ ..] => Some(after),
        _ => None,
    }
}

/// What follows `||` at the front.
pub(crate) fn mark_bars(tokens: &[Token]) -> Option<&[Token]>
    ensures gives { option_map (λ ts. (tt, ts.now)) result ≡ after_bars tokens.now }
    ensures shorter { IfSome result (λ ts. length ts.now < length tokens.now) }
{
    match tokens {
        [Token::Mark(Mark::Bars), after @ ..] => Some(after),
        _ => None,
    }
}

/// Whether `-` and not `+` is at the front, and what follows it.
pub(crate) fn mark_sign(tokens: &[Token]) -> Option<(bool, &[Token])>
    ensures gives { option_map (λ m. (m.0, m.1.now)) result ≡ after_sign tokens.now }
    ensures shorter { IfSome result (λ m. length m.1.now < length tokens.now) }
{
    match tokens {
        [Token::Mark(Mark::Plus), after @ ..] => Some((false, after)),
        [Token::Mark(Mark::Minus), after @ ..] => Some((true, after)),
        _ => None,
    }
}

/// The sign of a further factor at the front, and what follows it.
pub(crate) fn mark_factor_sign(tokens: &[Token]) -> Option<(ProductSign, &[Token])>
    ensures gives { option_map (λ m. (m.0, m.1.now)) result ≡ after_factor_sign tokens.now }
    ensures shorter { IfSome result (λ m. length m.1.now < length tokens.now) }
{
    match tokens {
        [Token::Mark(Mark::Star), after @ ..] => Some((ProductSign::Times, after)),
        [Token::Mark(Mark::Slash), after @ ..] => Some((ProductSign::Over, after)),
        [Token::Mark(Mark::Percent), after @ ..] => Some((ProductSign::Rest, after)),
        _ => None,
    }
}
