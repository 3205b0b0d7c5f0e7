//! The words of the command line, and which command they are.
//! The words are a command exactly where the grammar of command lines says so.
#![tactic(auto)]

mod command;
mod line;
mod read;

pub use command::Command;
pub use read::read_words;
