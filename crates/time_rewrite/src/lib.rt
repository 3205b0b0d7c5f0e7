//! A statement at a moment: the moment's literal stands in place of each time function and of each
//! cell that takes the moment. All else stays, and no time function is left.
#![tactic(auto)]

mod expression;
mod fault;
mod laws;
mod literal;
mod moment;
mod statement;

pub use fault::RewriteFault;
pub use laws::value_at_moment;
pub use literal::literal_of;
pub use statement::rewrite;
