//! The messages of the extended query: a statement is prepared under a name, values make a portal
//! of it, and the portal runs.
#![tactic(auto)]

mod binding;
mod describing;
mod executing;
mod naming;
mod parsing;
mod replied;
mod values;

pub use binding::{Binding, bind_portal};
pub use describing::{describe_portal, describe_statement};
pub use executing::{Executed, execute, first_rows};
pub use parsing::parse;
pub use replied::Replied;
