//! Lines of a journal, followed through the replicated world: each is the line of an event that may
//! come where it stands.
#![tactic(auto)]

mod answers;
mod due;
mod events;
mod fault;
mod kind;
mod orders;
mod replies;
mod run;
mod run_fault;
mod values;
mod view;
mod words;

pub use run::check_events;
pub use run_fault::RunFault;
