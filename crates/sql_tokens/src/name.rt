//! Words and names without quotes.
ghost use Rattle.std.specs.Prelude.{◌≡◌, ◌≢◌, map, Contains, IsAscii, IfOk, MatchOption};
ghost use Rattle.std.specs.Char.{to_ascii_lowercase};
ghost use Rattle.sql_tokens.specs.declared.word.Word.{Word as ReservedWord};
ghost use Rattle.sql_tokens.specs.Words.{spelling};
ghost use Rattle.sql_tokens.specs.Pieces.{IsCalled, NameOf, name_token};

use crate::bytes::{Class, split_run};
use crate::piece::Piece;
use crate::word::words_of;
use crate::{Name, Token, TokenFault, Word};
use pool_base::{NoMemory, Text};
use std::alloc::Global;

/// A name has at most so many bytes.
pub(crate) const LONGEST_NAME: usize = 63;

/// The word or the name at the front, and what follows it.
pub(crate) fn read_name(alloc: Global, bytes: &[u8]) -> Result<(Piece, &[u8]), NoMemory>
    ensures { IfOk result (λ read. NameOf bytes.now read.0 read.1.now) }
{
    let (run, after) = split_run(Class::Name, bytes);
    let token = called(lower(alloc, run)?);
    Ok((Piece::Token(token), after))
}

/// The text in lower case.
fn lower(alloc: Global, run: &[u8]) -> Result<Text, NoMemory>
    requires { IsAscii run.now }
    ensures { IfOk result (λ text. text ≡ map to_ascii_lowercase run.now) }
{
    Ok(ascii_text(lowered(alloc, run)?))
}

fn lowered(alloc: Global, run: &[u8]) -> Result<Vec<u8>, NoMemory>
    ensures { IfOk result (λ bytes. bytes.items ≡ map to_ascii_lowercase run.now) }
{
    let bytes: Vec<u8> = run
        .iter()
        .map(|byte| byte.to_ascii_lowercase())
        .collect(alloc)?;
    Ok(bytes)
}

/// The text of ASCII bytes.
pub(crate) fn ascii_text(bytes: Vec<u8>) -> Text
    requires { IsAscii bytes.items }
    ensures { result ≡ bytes.items }
{
    match String::from_utf8(bytes) {
        Ok(text) => Text::from_string(text),
        Err(_) => unreachable!(),
    }
}

/// The word or the name that a text in lower case is.
fn called(text: Text) -> Token
    ensures { IsCalled text result }
{
    match word_of(text.as_bytes()) {
        Some(word) => Token::Word(word),
        None => name_token(text, false),
    }
}

/// The reserved words that begin as the text does.
fn words_like(text: &[u8]) -> &'static [Word]
    ensures { (word : ReservedWord) → spelling word ≡ text.now → Contains result.now word }
{
    match text {
        [first, ..] => words_of(*first),
        [] => &[],
    }
}

/// The reserved word that is spelled so.
fn word_of(text: &[u8]) -> Option<Word>
    ensures { MatchOption result ((word : ReservedWord) → spelling word ≢ text.now)
        (λ word. spelling word ≡ text.now) }
{
    for word in words_like(text) {
        if word.spelling().as_bytes() == text {
            return Some(*word);
        }
    }
    None
}

/// The name, if it is not too long.
pub(crate) fn name_token(text: Text, quoted: bool) -> Token
    ensures { result ≡ name_token text quoted }
{
    if text.len() <= LONGEST_NAME {
        Token::Name(Name { text, quoted })
    } else {
        Token::Fault(TokenFault::LongName)
    }
}
