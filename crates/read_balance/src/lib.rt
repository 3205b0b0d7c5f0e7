//! The choice of the backend that answers a read: by weights, over the attached ones.
#![tactic(auto)]

mod choice;
#[cfg(test)]
mod tests;

pub use choice::pick;
