//! The rules that name what stands where a text fails.
ghost use Rattle.std.specs.Prelude.{◌≡◌, ◌∷◌, [], List as Sequence, reverse, MatchOption};
ghost use Rattle.sql_tokens.specs.declared.token.Token.{Token as AnyToken};
ghost use Rattle.std.specs.Option.{option_map};
ghost use Rattle.sql_reader.specs.Rules.{numeric_literal, in_order, is_apart, is_operand, callee, opened, called, joined, ordered_by_expression, behind_word, is_query, is_listed, listed_word, other_marks};

use sql_tokens::{Awaited, Mark, Token, TokenFault, Word};

/// The token that stands last, and those before it.
fn last(tokens: &[Token]) -> Option<(&Token, &[Token])>
    ensures { MatchOption result (reverse tokens.now ≡ [])
        (λ x. reverse tokens.now ≡ x.0.now ∷ reverse x.1.now) }
{
    tokens.split_last()
}

/// A number with a point or an exponent, or a whole number out of range.
pub(crate) fn numeric_literal(awaited: Awaited, token: &Token) -> Option<&'static str>
    ensures { option_map (λ s. s.now) result ≡ numeric_literal awaited token.now }
{
    match (awaited, token) {
        (_, Token::Fault(TokenFault::Fraction | TokenFault::OutOfRange) | Token::Least)
        | (Awaited::Backend, Token::Number(_)) => Some("numeric literal"),
        _ => None,
    }
}

/// Whether columns of an ORDER BY stand behind the token, from whether they stand before it.
fn in_order_behind(ordered: bool, token: &Token) -> bool
    ensures { (before : Sequence AnyToken) → in_order before ≡ ordered
        → in_order (token.now ∷ before) ≡ result }
{
    match token {
        Token::Word(Word::By) => true,
        Token::Word(Word::Asc | Word::Desc) => ordered,
        Token::Word(_) => false,
        _ => ordered,
    }
}

/// Whether columns of an ORDER BY stand here.
fn in_order(before: &[Token]) -> bool
    ensures { result ≡ in_order (reverse before.now) }
{
    let mut ordered = false;
    for token in before {
        ordered = in_order_behind(ordered, token);
    }
    ordered
}

/// Whether a name that stands here is none of an expression.
fn is_apart(before: &[Token]) -> bool
    ensures { result ≡ is_apart (reverse before.now) }
{
    match last(before) {
        Some((Token::Word(Word::As | Word::From | Word::Show), _)) => true,
        _ => in_order(before),
    }
}

/// Whether a name that stands here is one of an expression.
fn is_operand(awaited: Awaited, before: &[Token]) -> bool
    ensures { result ≡ is_operand awaited (reverse before.now) }
{
    match awaited {
        Awaited::Close => true,
        Awaited::End => !is_apart(before),
        Awaited::Operand
        | Awaited::Word
        | Awaited::Arguments
        | Awaited::Statement
        | Awaited::Item
        | Awaited::Star
        | Awaited::Values
        | Awaited::Backend => false,
    }
}

/// The word before `(` in an expression.
fn callee(awaited: Awaited, before: &[Token]) -> Option<&str>
    ensures { option_map (λ s. s.now) result ≡ callee awaited (reverse before.now) }
{
    match last(before) {
        Some((Token::Name(name), before)) if is_operand(awaited, before) => {
            Some(name.text.as_str())
        }
        Some((Token::Word(Word::CurrentTimestamp), _)) => Some(Word::CurrentTimestamp.spelling()),
        Some((Token::Word(Word::Timestamptz), _)) => Some(Word::Timestamptz.spelling()),
        _ => None,
    }
}

/// The name before the `(` that stands last.
fn opened(before: &[Token]) -> Option<&str>
    ensures { option_map (λ s. s.now) result ≡ opened (reverse before.now) }
{
    match last(before) {
        Some((Token::Mark(Mark::Open), before)) => match last(before) {
            Some((Token::Name(name), _)) => Some(name.text.as_str()),
            _ => None,
        },
        _ => None,
    }
}

/// The call of what is no function, or of a function with what it does not take.
pub(crate) fn called<'a>(awaited: Awaited, token: &Token, before: &'a [Token]) -> Option<&'a str>
    ensures { option_map (λ s. s.now) result ≡ called awaited token.now (reverse before.now) }
{
    match (awaited, token) {
        (Awaited::Star, _) => Some("count"),
        (Awaited::Arguments, _) => opened(before),
        (_, Token::Mark(Mark::Open)) => callee(awaited, before),
        _ => None,
    }
}

/// `,` directly behind the table of a FROM.
pub(crate) fn joined(token: &Token, before: &[Token]) -> Option<&'static str>
    ensures { option_map (λ s. s.now) result ≡ joined token.now (reverse before.now) }
{
    match (token, last(before)) {
        (Token::Mark(Mark::Comma), Some((Token::Name(_), before))) => match last(before) {
            Some((Token::Word(Word::From), _)) => Some("join"),
            _ => None,
        },
        _ => None,
    }
}

/// No name, where a column of an ORDER BY begins.
pub(crate) fn ordered_by_expression(awaited: Awaited) -> Option<&'static str>
    ensures { option_map (λ s. s.now) result ≡ ordered_by_expression awaited }
{
    match awaited {
        Awaited::Item => Some("order by expression"),
        Awaited::Operand
        | Awaited::Word
        | Awaited::Arguments
        | Awaited::Close
        | Awaited::End
        | Awaited::Statement
        | Awaited::Star
        | Awaited::Values
        | Awaited::Backend => None,
    }
}

/// SET or SHOW, directly behind it.
pub(crate) fn behind_word(before: &[Token]) -> Option<&'static str>
    ensures { option_map (λ s. s.now) result ≡ behind_word (reverse before.now) }
{
    match last(before) {
        Some((Token::Word(Word::Set), _)) => Some(Word::Set.spelling()),
        Some((Token::Word(Word::Show), _)) => Some(Word::Show.spelling()),
        _ => None,
    }
}

/// Whether a SELECT here stands within an expression, or in place of VALUES.
fn is_query(awaited: Awaited) -> bool
    ensures { result ≡ is_query awaited }
{
    match awaited {
        Awaited::Operand | Awaited::Word | Awaited::Arguments | Awaited::Close | Awaited::Values =>
            true,
        Awaited::End | Awaited::Statement | Awaited::Item | Awaited::Star | Awaited::Backend =>
            false,
    }
}

/// Whether the word is of the outside list, where this was awaited.
fn is_listed(awaited: Awaited, word: Word) -> bool
    ensures { result ≡ is_listed awaited word }
{
    match word {
        Word::Select => is_query(awaited),
        Word::Set | Word::Show => true,
        _ => word.is_outside(),
    }
}

/// A word of the outside list.
pub(crate) fn listed_word(awaited: Awaited, token: &Token) -> Option<&'static str>
    ensures { option_map (λ s. s.now) result ≡ listed_word awaited token.now }
{
    match token {
        Token::Word(word) if is_listed(awaited, *word) => Some(word.spelling()),
        _ => None,
    }
}

/// A run of marks that is no mark.
pub(crate) fn other_marks(token: &Token) -> Option<&str>
    ensures { option_map (λ s. s.now) result ≡ other_marks token.now }
{
    match token {
        Token::Fault(TokenFault::Run(run)) => Some(run.as_str()),
        _ => None,
    }
}
