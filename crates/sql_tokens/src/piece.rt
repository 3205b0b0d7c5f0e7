//! What a text begins with.
ghost use Rattle.std.specs.Prelude.{◌≡◌, ◌<◌, length, IfOk};
ghost use Rattle.sql_tokens.specs.Pieces.{PieceOf, PieceBy, StrangeOf};
ghost use Rattle.sql_tokens.specs.Calls.{EndsText, IsTextBehind};

use crate::bytes::{Class, Kind, kind_of, split_run};
use crate::name::read_name;
use crate::number::{read_dot, read_number, read_param};
use crate::quoted::{read_quoted_name, read_string};
use crate::sign::{read_greater, read_less, read_minus, read_run, read_slash};
use crate::{Token, TokenFault};
use pool_base::NoMemory;
use std::alloc::Global;

/// A piece of a text.
#[derive(Drop)]
pub enum Piece {
    /// A space or a comment.
    Gap,
    Token(Token),
}

/// The piece at the front, and what follows it.
pub(crate) fn read_piece(alloc: Global, bytes: &[u8]) -> Result<(Piece, &[u8]), NoMemory>
    requires some { 0 < length bytes.now }
    requires text { EndsText bytes.now }
    ensures { IfOk result (λ read. PieceOf bytes.now read.0 read.1.now) }
{
    match bytes {
        [first, behind_first @ ..] => read_by(alloc, kind_of(*first), bytes, behind_first),
        [] => unreachable!(),
    }
}

/// The piece that begins with a byte of this kind, and what follows it.
fn read_by<'a>(
    alloc: Global,
    kind: Kind,
    bytes: &'a [u8],
    behind_first: &'a [u8],
) -> Result<(Piece, &'a [u8]), NoMemory>
    requires { IsTextBehind kind behind_first.now }
    ensures { IfOk result (λ read. PieceBy kind bytes.now behind_first.now read.0 read.1.now) }
{
    match kind {
        Kind::Letter => read_name(alloc, bytes),
        Kind::Strange => read_strange(alloc, bytes),
        Kind::Quote => read_string(alloc, behind_first),
        Kind::DoubleQuote => read_quoted_name(alloc, behind_first),
        Kind::Space => Ok((Piece::Gap, behind_first)),
        Kind::Digit => Ok(read_number(bytes)),
        Kind::Dollar => Ok(read_param(behind_first)),
        Kind::Dot => Ok(read_dot(behind_first)),
        Kind::Minus => Ok(read_minus(behind_first)),
        Kind::Slash => Ok(read_slash(behind_first)),
        Kind::Less => Ok(read_less(behind_first)),
        Kind::Greater => Ok(read_greater(behind_first)),
        Kind::Mark(mark) => Ok((Piece::Token(Token::Mark(mark)), behind_first)),
        Kind::Other => Ok((Piece::Token(Token::Fault(TokenFault::Bad)), behind_first)),
    }
}

/// The run of strange marks at the front, and what follows it.
fn read_strange(alloc: Global, bytes: &[u8]) -> Result<(Piece, &[u8]), NoMemory>
    ensures { IfOk result (λ read. StrangeOf bytes.now read.0 read.1.now) }
{
    let (run, after) = split_run(Class::Strange, bytes);
    read_run(alloc, run, after)
}
