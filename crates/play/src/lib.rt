//! One session, played from a script: lines in, bytes fed, statements run, and the transcript out.
#![tactic(auto)]

mod asked;
mod codes;
mod database;
mod play_fault;
mod player;
mod replies;
mod script;
mod session;

pub use database::Database;
pub use play_fault::PlayFault;
pub use player::play;
pub use script::is_session;
