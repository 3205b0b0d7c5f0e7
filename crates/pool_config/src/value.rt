//! How a value is written, and what it is.
ghost use Rattle.std.specs.Prelude.{◌≡◌, IfOk};
ghost use Rattle.pool_config.specs.Form.{spelling_of};
ghost use Rattle.pool_config.specs.Value.{value_of, word_value, number_of};

use crate::line::Written;
use pool_base::{NoMemory, Text};
use std::alloc::Global;
use std::str;

/// A value of a parameter.
#[derive(Drop)]
pub enum Value {
    Text(Text),
    Number(u64),
    Truth(bool),
}

/// A number has at most so many digits.
const MOST_DIGITS: usize = 10;

#[tactic(auto, using(crate::proofs::Texts::string_good, crate::proofs::Texts::string_bad))]
/// The value that is written so, if there is one.
pub(crate) fn read_value(alloc: Global, written: Written) -> Result<Option<Value>, NoMemory>
    ensures { IfOk result (λ value. value ≡ value_of (spelling_of written.entry)) }
{
    match written {
        Written::Quoted(inner) => match str::from_utf8(inner) {
            Ok(text) => Ok(Some(Value::Text(Text::from_str(alloc, text)?))),
            Err(_) => Ok(None),
        },
        Written::Bare(word) => Ok(read_word(word)),
    }
}

/// The truth value or number that a word is.
fn read_word(word: &[u8]) -> Option<Value>
    ensures { result ≡ word_value word.now }
{
    if word == b"on".as_slice() || word == b"true".as_slice() {
        return Some(Value::Truth(true));
    }
    if word == b"off".as_slice() || word == b"false".as_slice() {
        return Some(Value::Truth(false));
    }
    match read_number(word) {
        Some(number) => Some(Value::Number(number)),
        None => None,
    }
}

#[tactic(auto, using(crate::proofs::Numbers::one_more))]
/// The number of one to ten decimal digits.
fn read_number(word: &[u8]) -> Option<u64>
    ensures { result ≡ number_of word.now }
{
    if word.is_empty() || word.len() > MOST_DIGITS {
        return None;
    }
    let mut number: u64 = 0;
    let mut left = word;
    while let [digit, rest @ ..] = left {
        if !digit.is_ascii_digit() {
            return None;
        }
        number = number * 10 + (*digit - b'0') as u64;
        left = rest;
    }
    Some(number)
}
