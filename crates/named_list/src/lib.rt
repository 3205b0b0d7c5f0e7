//! Lists of things with names, in which a name is found without a walk. What a look-up answers is
//! what a walk over the list would: the first thing of that name, and its number.
#![tactic(auto)]

mod list;
mod named;

pub use list::NamedList;
pub use named::Named;

#[cfg(test)]
mod tests;
