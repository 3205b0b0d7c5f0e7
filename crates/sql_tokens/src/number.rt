//! Numbers and parameters.
ghost use Rattle.std.specs.Prelude.{◌≡◌, ◌-◌, ◌^◌, min};
ghost use Rattle.sql_tokens.specs.declared.bytes.Class.{Class as AnyClass};
ghost use Rattle.sql_tokens.specs.Bytes.{front, begins_digit};
ghost use Rattle.sql_tokens.specs.Pieces.{value_of, whole_token, param_token, begins_exponent, has_fraction, NumberOf, DotOf, ParamOf};

use crate::bytes::{Class, begins_digit, skip_run};
use crate::piece::Piece;
use crate::{Mark, Token, TokenFault};

/// The greatest parameter.
const LAST_PARAM: u64 = 1000;

/// The number at the front, and what follows its first digits.
pub(crate) fn read_number(bytes: &[u8]) -> (Piece, &[u8])
    ensures { NumberOf bytes.now result.0 result.1.now }
{
    let after = skip_run(Class::Digit, bytes);
    let token = if has_fraction(after) {
        Token::Fault(TokenFault::Fraction)
    } else {
        whole_token(value(bytes))
    };
    (Piece::Token(token), after)
}

/// The point, or the number that begins with it, and what follows the point.
pub(crate) fn read_dot(bytes: &[u8]) -> (Piece, &[u8])
    ensures { DotOf bytes.now result.0 result.1.now }
{
    let token = if begins_digit(bytes) {
        Token::Fault(TokenFault::Fraction)
    } else {
        Token::Mark(Mark::Dot)
    };
    (Piece::Token(token), bytes)
}

/// The parameter whose digits stand at the front, and what follows them.
pub(crate) fn read_param(bytes: &[u8]) -> (Piece, &[u8])
    ensures { ParamOf bytes.now result.0 result.1.now }
{
    let after = skip_run(Class::Digit, bytes);
    (Piece::Token(param_token(value(bytes))), after)
}

/// The number of the digits at the front, at most the greatest of its type.
fn value(bytes: &[u8]) -> u64
    ensures { result ≡ min (value_of (front AnyClass.Digit bytes.now)) (2 ^ 64 - 1) }
{
    let mut value: u64 = 0;
    let mut left = bytes;
    while let [digit, rest @ ..] = left {
        if !digit.is_ascii_digit() {
            return value;
        }
        value = value
            .saturating_mul(10)
            .saturating_add(u64::from(*digit - b'0'));
        left = rest;
    }
    value
}

fn whole_token(value: u64) -> Token
    ensures { result ≡ whole_token value }
{
    match i64::try_from(value) {
        Ok(number) => Token::Number(number),
        Err(_) if value == 1 << 63 => Token::Least,
        Err(_) => Token::Fault(TokenFault::OutOfRange),
    }
}

fn param_token(value: u64) -> Token
    ensures { result ≡ param_token value }
{
    if value == 0 {
        Token::Fault(TokenFault::Bad)
    } else if value <= LAST_PARAM {
        Token::Param(value as u32)
    } else {
        Token::Fault(TokenFault::LargeParam)
    }
}

/// Behind digits stands a point or an exponent.
fn has_fraction(bytes: &[u8]) -> bool
    ensures { result ≡ has_fraction bytes.now }
{
    match bytes {
        [first, rest @ ..] => {
            *first == b'.' || ((*first == b'e' || *first == b'E') && begins_exponent(rest))
        }
        [] => false,
    }
}

/// The exponent behind its `e`: a digit, or a sign and a digit.
fn begins_exponent(bytes: &[u8]) -> bool
    ensures { result ≡ begins_exponent bytes.now }
{
    match bytes {
        [first, rest @ ..] => {
            first.is_ascii_digit() || ((*first == b'+' || *first == b'-') && begins_digit(rest))
        }
        [] => false,
    }
}
