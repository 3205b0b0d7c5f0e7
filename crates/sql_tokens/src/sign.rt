//! Marks of more than one byte, and comments.
ghost use Rattle.std.specs.Prelude.{◌≡◌, ◌&&◌, IsAscii, IfOk, option_map, bytes_eq, codes, take, drop};
ghost use Rattle.sql_tokens.specs.declared.token.Token.TheVariants.{Fault};
ghost use Rattle.sql_tokens.specs.declared.token.TokenFault.TheVariants.{Run};
ghost use Rattle.sql_tokens.specs.Bytes.{begins_with};
ghost use Rattle.sql_tokens.specs.Pieces.{MinusOf, SlashOf, BlockOf, LessOf, GreaterOf, RunOf, after_end, next, EndsWith};

use crate::bytes::{Class, begins_with, skip_run};
use crate::name::{LONGEST_NAME, ascii_text};
use crate::piece::Piece;
use crate::{Mark, Token, TokenFault};
use pool_base::NoMemory;
use std::alloc::Global;

/// Behind `-`: the rest of a comment to the end of the line, or the mark.
pub(crate) fn read_minus(bytes: &[u8]) -> (Piece, &[u8])
    ensures { MinusOf bytes.now result.0 result.1.now }
{
    if begins_with(b'-', bytes) {
        (Piece::Gap, skip_run(Class::Line, bytes))
    } else {
        (Piece::Token(Token::Mark(Mark::Minus)), bytes)
    }
}

/// Behind `/`: the rest of a comment, or the mark.
pub(crate) fn read_slash(bytes: &[u8]) -> (Piece, &[u8])
    ensures { SlashOf bytes.now result.0 result.1.now }
{
    match bytes {
        [b'*', inside @ ..] => read_block(inside),
        _ => (Piece::Token(Token::Mark(Mark::Slash)), bytes),
    }
}

/// Behind `/*`: the rest of the comment.
fn read_block(bytes: &[u8]) -> (Piece, &[u8])
    ensures { BlockOf bytes.now result.0 result.1.now }
{
    match after_end(bytes) {
        Some(after) => (Piece::Gap, next(bytes, after)),
        None => (Piece::Token(Token::Fault(TokenFault::Bad)), &[]),
    }
}

/// What follows the first `*/`.
fn after_end(bytes: &[u8]) -> Option<&[u8]>
    ensures { option_map (λ after. after.now) result ≡ after_end bytes.now }
{
    let mut left = bytes;
    while let [first, rest @ ..] = left {
        if *first == b'*' && begins_with(b'/', rest) {
            return Some(behind_first(rest));
        }
        left = rest;
    }
    None
}

/// What is read next where `after` are the last of the bytes.
pub(crate) fn next<'a>(bytes: &'a [u8], after: &[u8]) -> &'a [u8]
    requires { EndsWith bytes.now after.now }
    ensures { result.now ≡ next bytes.now after.now }
{
    let (before, _) = bytes.split_at(bytes.len() - after.len());
    let zero = skip_run(Class::But(0), before);
    let (_, rest) = bytes.split_at(before.len() - zero.len());
    rest
}

/// Behind `<`: what the mark is, and what follows it.
pub(crate) fn read_less(bytes: &[u8]) -> (Piece, &[u8])
    ensures { LessOf bytes.now result.0 result.1.now }
{
    match bytes {
        [b'=', after @ ..] => (Piece::Token(Token::Mark(Mark::AtMost)), after),
        [b'>', after @ ..] => (Piece::Token(Token::Mark(Mark::Unequal)), after),
        _ => (Piece::Token(Token::Mark(Mark::Less)), bytes),
    }
}

/// Behind `>`: what the mark is, and what follows it.
pub(crate) fn read_greater(bytes: &[u8]) -> (Piece, &[u8])
    ensures { GreaterOf bytes.now result.0 result.1.now }
{
    match bytes {
        [b'=', after @ ..] => (Piece::Token(Token::Mark(Mark::AtLeast)), after),
        _ => (Piece::Token(Token::Mark(Mark::Greater)), bytes),
    }
}

/// The mark or the fault that a run of strange marks is, and what follows it.
pub(crate) fn read_run<'a>(
    alloc: Global,
    run: &[u8],
    after: &'a [u8],
) -> Result<(Piece, &'a [u8]), NoMemory>
    requires { IsAscii run.now }
    ensures { IfOk result (λ read. RunOf run.now after.now read.0 read.1.now) }
{
    if run == b"||".as_slice() {
        return Ok((Piece::Token(Token::Mark(Mark::Bars)), after));
    }
    if is_unequal(run, after) {
        return Ok((
            Piece::Token(Token::Mark(Mark::Unequal)),
            behind_first(after),
        ));
    }
    Ok((Piece::Token(strange(alloc, run)?), after))
}

/// The run is `!` alone, and `=` follows it.
fn is_unequal(run: &[u8], after: &[u8]) -> bool
    ensures { result ≡ (bytes_eq run.now (codes "!") && begins_with 61 after.now) }
{
    run == b"!".as_slice() && begins_with(b'=', after)
}

/// What stands behind the first byte.
pub(crate) fn behind_first(bytes: &[u8]) -> &[u8]
    ensures { result.now ≡ drop 1 bytes.now }
{
    match bytes {
        [_, rest @ ..] => rest,
        [] => bytes,
    }
}

/// The fault that a run of strange marks is.
fn strange(alloc: Global, run: &[u8]) -> Result<Token, NoMemory>
    requires { IsAscii run.now }
    ensures { IfOk result (λ token. token ≡ Fault (Run (take 63 run.now))) }
{
    let shown = &run[..LONGEST_NAME.min(run.len())];
    let text = ascii_text(Vec::from_slice(alloc, shown)?);
    Ok(Token::Fault(TokenFault::Run(text)))
}
