//! Strings and names in quotes.
ghost use Rattle.std.specs.Prelude.{◌≡◌, ◌<◌, ◌++◌, IsUtf8, IfOk, OnOk, MatchOption, List, ℕ, string_bytes};
ghost use Rattle.sql_tokens.specs.declared.token.Token.TheVariants.{Str as StrToken};
ghost use Rattle.sql_tokens.specs.Pieces.{Closes, QuotedOf, quoted_name};
ghost use Rattle.sql_tokens.specs.Calls.{ChunkOf};

use crate::bytes::{Class, begins_with, split_run};
use crate::name::name_token;
use crate::piece::Piece;
use crate::sign::{behind_first, next};
use crate::{Token, TokenFault};
use pool_base::{NoMemory, Text};
use std::alloc::Global;
use std::str;

/// What stands next between quotes.
#[derive(Clone, Copy)]
pub enum Chunk<'a> {
    /// A part of the text, up to a doubled quote, and what follows.
    Part(&'a [u8], &'a [u8]),
    /// The last part, and what follows the quote that ends it.
    Last(&'a [u8], &'a [u8]),
    /// No quote is left.
    Unended,
}

/// Behind its first quote: the string, and what is read next.
pub(crate) fn read_string(alloc: Global, bytes: &[u8]) -> Result<(Piece, &[u8]), NoMemory>
    requires { IsUtf8 bytes.now }
    ensures { IfOk result (λ read. QuotedOf 39 StrToken bytes.now read.0 read.1.now) }
{
    match quoted(alloc, b'\'', bytes)? {
        Some((text, after)) => Ok((Piece::Token(Token::Str(text)), next(bytes, after))),
        None => Ok((Piece::Token(Token::Fault(TokenFault::Bad)), &[])),
    }
}

/// Behind its first quote: the name, and what is read next.
pub(crate) fn read_quoted_name(alloc: Global, bytes: &[u8]) -> Result<(Piece, &[u8]), NoMemory>
    requires { IsUtf8 bytes.now }
    ensures { IfOk result (λ read. QuotedOf 34 quoted_name bytes.now read.0 read.1.now) }
{
    match quoted(alloc, b'"', bytes)? {
        Some((text, after)) => Ok((Piece::Token(quoted_name(text)), next(bytes, after))),
        None => Ok((Piece::Token(Token::Fault(TokenFault::Bad)), &[])),
    }
}

/// The name in quotes, if it is neither empty nor too long.
fn quoted_name(text: Text) -> Token
    ensures { result ≡ quoted_name text }
{
    if text.is_empty() {
        Token::Fault(TokenFault::Bad)
    } else {
        name_token(text, true)
    }
}

/// The text behind its first quote, and what follows the quote that ends it. None: none ends it.
fn quoted(alloc: Global, quote: u8, bytes: &[u8]) -> Result<Option<(Text, &[u8])>, NoMemory>
    requires ascii { quote < 128 }
    requires text { IsUtf8 bytes.now }
    ensures { IfOk result (λ read. MatchOption read
        ((text after : List ℕ) → Closes quote bytes.now text after → ⊥)
        (λ found. Closes quote bytes.now found.0 found.1.now)) }
{
    let mut text = String::new(alloc);
    let mut left = bytes;
    loop {
        match next_chunk(quote, left) {
            Chunk::Part(part, rest) => {
                push_bytes(&mut text, part)?;
                left = rest;
            }
            Chunk::Last(part, after) => {
                push_bytes(&mut text, part)?;
                return Ok(Some((Text::from_string(text), after)));
            }
            Chunk::Unended => return Ok(None),
        }
    }
}

fn next_chunk(quote: u8, bytes: &[u8]) -> Chunk<'_>
    requires ascii { quote < 128 }
    requires text { IsUtf8 bytes.now }
    ensures { ChunkOf quote bytes.now result }
{
    let (part, rest) = split_run(Class::But(quote), bytes);
    if rest.is_empty() {
        return Chunk::Unended;
    }
    let after = behind_first(rest);
    if begins_with(quote, after) {
        let (part, _) = bytes.split_at(part.len() + 1);
        Chunk::Part(part, behind_first(after))
    } else {
        Chunk::Last(part, after)
    }
}

fn push_bytes(text: &mut String, part: &[u8]) -> Result<(), NoMemory>
    requires { IsUtf8 part.now }
    ensures { OnOk result (string_bytes text.new ≡ string_bytes text.old ++ part.now) }
{
    match str::from_utf8(part) {
        Ok(part) => text.push_str(part)?,
        Err(_) => unreachable!(),
    }
    Ok(())
}
