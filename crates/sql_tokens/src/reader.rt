//! The reader of tokens.
ghost use Rattle.std.specs.Prelude.{◌≡◌, ◌<◌, ◌^◌, length, IfOk, IsUtf8, List as Sequence};
ghost use Rattle.sql_tokens.specs.declared.token.Placed.{Placed as PlacedToken};
ghost use Rattle.sql_tokens.specs.Tokens.{TokensOf, past_limit, read_behind};

use crate::piece::{Piece, read_piece};
use crate::{Placed, Token, TokenFault};
use pool_base::{List, NoMemory};
use std::alloc::Global;

/// A text has at most so many tokens.
const MOST_TOKENS: usize = 65536;

/// Most texts have no more tokens than this. The list has room for them at once.
const MANY_TOKENS: usize = 16;

/// The tokens of a text with their places, up to its first fault.
///
/// Shape: docs/DECISIONS.md, "What does a fault in a SQL text look like?".
/// Units: a place counts bytes, from 0.
/// Source: PostgreSQL 15, "Lexical Structure", of which this is a part.
pub fn read_tokens(alloc: Global, text: &str) -> Result<List<Placed>, NoMemory>
    requires { length text.now < 2 ^ 32 }
    // What is read are the tokens of the text.
    ensures found { IfOk result (λ read. TokensOf text.now read) }
    // The tokens of the text are read, and no others.
    ensures only { (tokens : Sequence PlacedToken) → TokensOf text.now tokens
        → IfOk result (λ read. read ≡ tokens) }
{
    tokens_of(alloc, text.as_bytes())
}

fn tokens_of(alloc: Global, text: &[u8]) -> Result<List<Placed>, NoMemory>
    requires size { length text.now < 2 ^ 32 }
    requires text { IsUtf8 text.now }
    ensures { IfOk result (λ read. TokensOf text.now read) }
{
    let mut tokens = List::new(alloc);
    tokens.reserve(MANY_TOKENS)?;
    let mut left = text;
    while !left.is_empty() {
        let (piece, after) = read_piece(alloc, left)?;
        match piece {
            Piece::Gap => left = after,
            Piece::Token(token) => {
                let place = (text.len() - left.len()) as u32;
                if tokens.len() == MOST_TOKENS {
                    let token = past_limit(token);
                    tokens.push(Placed { token, place })?;
                    return Ok(tokens);
                }
                left = read_behind(&token, after);
                tokens.push(Placed { token, place })?;
            }
        }
    }
    Ok(tokens)
}

/// What is read behind a token: nothing behind a fault.
fn read_behind<'a>(token: &Token, after: &'a [u8]) -> &'a [u8]
    ensures { result.now ≡ read_behind token.now after.now }
{
    match token {
        Token::Fault(_) => &[],
        _ => after,
    }
}

/// What stands for a token for which there is no room: too many, but what is no token stays.
fn past_limit(token: Token) -> Token
    ensures { result ≡ past_limit token }
{
    match token {
        Token::Fault(TokenFault::Bad) => token,
        _ => Token::Fault(TokenFault::TooMany),
    }
}
