//! The configuration of the pool: its grammar, its table of parameters, and its one printed form.
//! What is read is what the text says; a text that says nothing is refused by its first fault.
#![tactic(auto)]

mod assemble;
mod config;
mod fault;
mod line;
mod parameter;
mod parse;
mod user;
mod user_names;
mod value;
mod write;

pub use config::{Config, Node, ScramUser, Sessions};
pub use fault::ConfigFault;
pub use parse::parse_config;
pub use user::UserNumber;
pub use user_names::user_at;
pub use write::write_config;
