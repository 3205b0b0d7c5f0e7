//! The tokens of a text of SQL: words, names, numbers, strings, parameters and marks, each with its
//! place. What is read is the one list of tokens that the text has.
//!
//! What a grammar over tokens is, and what its readers owe: each text of it is read as its one
//! tree, and a fault is at the first token at which no text can go on.
#![tactic(auto)]

mod bytes;
mod fault;
mod mark;
mod name;
mod number;
mod piece;
mod quoted;
mod reader;
mod sign;
mod token;
mod word;

pub use fault::{Awaited, Fault, ReadError, unexpected};
pub use mark::Mark;
pub use reader::read_tokens;
pub use token::{Name, Placed, Token, TokenFault};
pub use word::{WORDS, Word, all_words};
