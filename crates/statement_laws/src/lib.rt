//! What a check of a statement answers is of its catalogue: its numbers are there, each node has
//! the type that the rules give it, and its parts stand where they may.
//!
//! The laws of text forms: no text has two values of a type or two codes, or both.
//!
//! The laws of checks: of a statement a check may answer no two things.
//!
//! The names that refusals of texts of SQL tell are short.
//!
//! What a statement at a moment does to the rows that it sees: what the statement does at that
//! moment.
//!
//! Checked statements written and read again: what is read of a text and checked has the effect of
//! the statement that was written.
//!
//! What a text of SQL asks for can be run: the statement that it is, checked, at a moment.
#![tactic(auto)]

mod again;
mod one_answer;
mod one_value;
mod refused;
mod round;
mod runnable;
mod sound;
mod timed;

pub use again::{AgainFault, checked_again};
pub use one_answer::{checks_agree, none_is_checked_and_refused, refusals_agree};
pub use one_value::{a_text_has_one_code, a_text_has_one_value, no_text_is_read_and_refused};
pub use refused::names_are_short;
pub use round::{spelled_has_the_effect, spelled_is_of_the_grammar};
pub use runnable::can_be_run;
pub use sound::answers_are_of;
pub use timed::effects_at_moment;
