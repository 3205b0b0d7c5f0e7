//! Texts and their tokens.
use crate::statements::{MOST_BYTES, one_of};
use case_lines::Told;
use pool_base::List;
use sql_profile::{Statement, tokens_again};
use sql_tokens::{Mark, Placed, Token, TokenFault, read_tokens};
use std::alloc::Global;

/// A mark as it is written.
fn spelling_of(mark: Mark) -> &'static str {
    match mark {
        Mark::Open => "(",
        Mark::Close => ")",
        Mark::Comma => ",",
        Mark::Semicolon => ";",
        Mark::Dot => ".",
        Mark::Star => "*",
        Mark::Slash => "/",
        Mark::Percent => "%",
        Mark::Plus => "+",
        Mark::Minus => "-",
        Mark::Equal => "=",
        Mark::Unequal => "<>",
        Mark::Less => "<",
        Mark::AtMost => "<=",
        Mark::Greater => ">",
        Mark::AtLeast => ">=",
        Mark::Bars => "||",
    }
}

fn put_fault(fault: &TokenFault, told: &mut Told) {
    told.put(match fault {
        TokenFault::Fraction => "!fraction",
        TokenFault::OutOfRange => "!range",
        TokenFault::Run(_) => "!run",
        TokenFault::Bad => "!bad",
        TokenFault::LongName => "!long-name",
        TokenFault::LargeParam => "!large-parameter",
        TokenFault::TooMany => "!too-many",
    });
    if let TokenFault::Run(run) = fault {
        told.put_one_line(run.as_str());
    }
}

/// A text between two marks.
fn put_between(front: &str, text: &str, back: &str, told: &mut Told) {
    told.put(front);
    told.put_one_line(text);
    told.put(back);
}

/// A word in angle brackets, a mark, a name, a string, a number or a parameter as it is written, a
/// fault behind `!`.
fn put_token(token: &Token, told: &mut Told) {
    match token {
        Token::Word(word) => put_between("<", word.spelling(), ">", told),
        Token::Mark(mark) => told.put(spelling_of(*mark)),
        Token::Name(name) => {
            let quote = if name.quoted { "\"" } else { "" };
            put_between(quote, name.text.as_str(), quote, told);
        }
        Token::Number(number) => told.put_signed(*number),
        Token::Least => told.put("9223372036854775808"),
        Token::Str(text) => put_between("'", text.as_str(), "'", told),
        Token::Param(number) => {
            told.put("$");
            told.put_number(u64::from(*number));
        }
        Token::Fault(fault) => put_fault(fault, told),
    }
}

fn put_placed(placed: &Placed, told: &mut Told) {
    told.put_gap();
    told.put_number(u64::from(placed.place));
    told.put(":");
    put_token(&placed.token, told);
}

/// The tokens with their places; of many their number and the last.
fn put_all(tokens: &[Placed], told: &mut Told) {
    let mut rest = tokens;
    if tokens.len() > 99 {
        told.put_shown(&tokens.len());
        told.put(" tokens, the last");
        rest = &tokens[tokens.len() - 1..];
    }
    for placed in rest {
        put_placed(placed, told);
    }
}

/// The tokens of a text, each behind its place.
pub(crate) fn put_tokens(alloc: Global, text: &str, told: &mut Told) {
    if text.len() > MOST_BYTES {
        return told.put("too long");
    }
    match read_tokens(alloc, text) {
        Ok(tokens) => put_all(tokens.as_slice(), told),
        Err(_) => told.put("no memory"),
    }
}

fn put_again(alloc: Global, statement: &Statement, told: &mut Told) {
    match tokens_again(alloc, statement) {
        Ok(tokens) => {
            for token in tokens.as_slice() {
                told.put_gap();
                put_token(token, told);
            }
        }
        Err(_) => told.put("no memory"),
    }
}

/// The tokens of the text that is printed of the one statement of a text.
pub(crate) fn put_spelling(alloc: Global, text: &str, told: &mut Told) {
    let mut read = List::new(alloc);
    match one_of(alloc, text, &mut read) {
        Some(statement) => put_again(alloc, statement, told),
        None => told.put("not one statement"),
    }
}
