//! What a typed expression comes to on a row: its value, or the code of its first fault.
//! Logic has three values, and operands are evaluated from left to right.
#![tactic(auto)]

mod arithmetic;
mod around;
mod evaluate;
mod fault;
mod logic;
mod order;

pub use around::Around;
pub use evaluate::value_of;
pub use fault::ExprFault;
pub use logic::is_true;
pub use order::{compared, is_null, standing};
