//! Reads a text of SQL: its statements, or what its refusal is. What is of the grammar within the
//! limits is read, and what is refused is told by the first fault in the text.
//!
//! What a refused text of SQL is told: the name of what is not taken, or the place alone. The first
//! of six rules that fits the token at which the text fails decides.
//!
//! Reads a statement of SQL from its tokens: what is read is of the grammar, and what is of it up
//! to a `;` or the end is read, as that statement.
//!
//! Reads texts of SQL from their tokens: the statements between the `;` are read, in their order,
//! and the first fault in the order of the text is the one that is told.
#![tactic(auto)]

mod control;
mod fault;
mod front;
mod insert;
mod marks;
mod reader;
mod reading;
mod refusal;
mod refusal_rules;
mod select;
mod statement;
mod statements;
mod text;
mod text_fault;
mod text_rules;
mod verb;
mod words;

pub use fault::SqlFault;
pub use reader::read_statements;
pub use refusal::{Refusal, place_at, refusal_at};
pub use statement::{first_word, read_behind};
pub use statements::STATEMENT_LIMIT;
pub use text_fault::{TextError, TextFault};
pub use verb::Verb;
