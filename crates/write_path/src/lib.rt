//! A request that goes down the attached backends, one after another, and the judgement of their
//! answers.
#![tactic(auto)]

mod chain;
mod judged;
mod kind;
mod slots;

pub use chain::Chain;
pub use judged::Judged;
pub use kind::ChainKind;
