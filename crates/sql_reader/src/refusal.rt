//! What a refused text is told.
ghost use Rattle.std.specs.Prelude.{◌≡◌, reverse, IfOk};
ghost use Rattle.std.specs.Option.{option_map, option_copied};
ghost use Rattle.sql_reader.specs.Refusal.{name_at, named, told_at, told, place_of, refusal_of};

use crate::refusal_rules::{
    behind_word, called, joined, listed_word, numeric_literal, ordered_by_expression, other_marks,
};
use pool_base::{NoMemory, Text};
use sql_tokens::{Awaited, Token, TokenFault};
use std::alloc::Global;

/// What a refused text is told. A place counts bytes, from 0.
#[derive(Debug, PartialEq, Eq, Drop)]
pub enum Refusal {
    /// No text goes on here, and no name says why.
    Syntax(u32),
    /// What this names is of SQL, and of no statement that is taken.
    Outside {
        /// A word in lower case, a name as it was read, marks, or a phrase for what has no word.
        name: Text,
        place: u32,
    },
    /// A limit is passed.
    TooLong,
}

/// The name of the first rule that fits a token.
fn name_at<'a>(awaited: Awaited, token: &'a Token, before: &'a [Token]) -> Option<&'a str>
    ensures { option_map (λ s. s.now) result ≡ name_at awaited token.now (reverse before.now) }
{
    if let Some(name) = numeric_literal(awaited, token) {
        return Some(name);
    }
    if let Some(name) = called(awaited, token, before) {
        return Some(name);
    }
    if let Some(name) = joined(token, before) {
        return Some(name);
    }
    if let Some(name) = ordered_by_expression(awaited) {
        return Some(name);
    }
    if let Some(name) = behind_word(before) {
        return Some(name);
    }
    if let Some(name) = listed_word(awaited, token) {
        return Some(name);
    }
    other_marks(token)
}

/// A name is told with its place, and else the place alone.
fn named(alloc: Global, name: Option<&str>, place: u32) -> Result<Refusal, NoMemory>
    ensures { IfOk result (λ said. said ≡ named (option_map (λ s. s.now) name.entry) place) }
{
    match name {
        Some(name) => {
            let name = Text::from_str(alloc, name)?;
            Ok(Refusal::Outside { name, place })
        }
        None => Ok(Refusal::Syntax(place)),
    }
}

/// What is told at a token.
fn told_at(
    alloc: Global,
    awaited: Awaited,
    token: &Token,
    before: &[Token],
    place: u32,
) -> Result<Refusal, NoMemory>
    ensures { IfOk result (λ said. said ≡ told_at awaited token.now (reverse before.now) place) }
{
    match token {
        Token::Fault(TokenFault::Bad) => Ok(Refusal::Syntax(place)),
        Token::Fault(TokenFault::LongName | TokenFault::LargeParam | TokenFault::TooMany) => {
            Ok(Refusal::TooLong)
        }
        _ => named(alloc, name_at(awaited, token, before), place),
    }
}

/// What is told at a token, or at the end of the text.
fn told(
    alloc: Global,
    awaited: Awaited,
    token: Option<&Token>,
    before: &[Token],
    place: u32,
) -> Result<Refusal, NoMemory>
    ensures { IfOk result
        (λ said. said ≡ told awaited (option_copied token.entry) (reverse before.now) place) }
{
    match token {
        Some(token) => told_at(alloc, awaited, token, before, place),
        None => named(alloc, behind_word(before), place),
    }
}

/// The place of the token from which on so many are left, or the end of the text where none is.
///
/// Units: places and `size`, the length of the text, are bytes; `left` is tokens.
pub fn place_at(places: &[u32], size: u32, left: usize) -> u32
    ensures { result ≡ place_of places.now size left }
{
    match places.get(places.len().saturating_sub(left)) {
        Some(place) => *place,
        None => size,
    }
}

/// What a text is told that fails where so many of its tokens are left.
///
/// Shape: `places` has the byte at which each token begins.
/// Units: places and `size`, the length of the text, are bytes; `left` is tokens.
pub fn refusal_at(
    alloc: Global,
    tokens: &[Token],
    places: &[u32],
    size: u32,
    left: usize,
    awaited: Awaited,
) -> Result<Refusal, NoMemory>
    ensures { IfOk result
        (λ said. said ≡ refusal_of tokens.now places.now size left awaited) }
{
    let at = tokens.len().saturating_sub(left);
    let place = place_at(places, size, left);
    told(alloc, awaited, tokens.get(at), &tokens[..at], place)
}
