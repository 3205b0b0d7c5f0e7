//! What a play keeps of its backends: what is known of each session at each, and the spares.
#![tactic(auto)]

mod known;
mod roll;
mod spares;

pub use known::{Awaits, Holds, Known};
pub use roll::Roll;
pub use spares::{Spare, Spares};
