//! Requests to a PostgreSQL server as texts, and its replies as answers.
#![tactic(auto)]

mod answers;
mod size;
mod spelled;
mod talk;
mod texts;
mod welcome;

pub use answers::answer_of;
pub use spelled::{Ending, NotSpelled, Spelled, spell, spell_end, spell_next};
pub use talk::{Said, Talk};
pub use welcome::put_start;
