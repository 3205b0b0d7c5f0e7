//! Scripts that are played, and the lines of their transcripts.
#![tactic(auto)]

mod laws;
mod line;
mod lists;
mod message;
mod messages;
mod moments;
mod parts;
mod pieces;
mod print;
mod reader;
mod rendering;
mod script;
mod spelling;
mod stop;
mod words;

pub use laws::{lines_of_grammar, printed_again};
pub use line::{Mark, Script, ScriptLine, ScriptValue};
pub use message::message_of;
pub use print::{echo, print_line};
pub use rendering::render;
pub use script::{ScriptFault, read_script};
