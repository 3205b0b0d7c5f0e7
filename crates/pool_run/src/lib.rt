//! One run of `pool`: from the words of its command line to its status, over files, an output and
//! boxed backends. Each status comes with its cause; status 0 of one client's single statements
//! with the transcript of one store.
#![tactic(auto)]

mod asking;
mod backends;
mod drawing;
mod plan;
mod running;
mod schemas;
mod scripts;
mod served;
mod serving;
mod sessions;
mod shelf;
mod status;
mod stores;
mod telling;
mod texts;
mod top;
mod ways;

pub use served::Served;
pub use serving::ask_to_serve;
pub use shelf::put;
pub use status::Status;
pub use stores::run_over_stores;
pub use top::pool_run;
