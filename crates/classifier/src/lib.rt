//! What a checked statement needs of the backends: its class, the lock that it takes first, and the
//! tables that it changes.
#![tactic(auto)]

mod class;

pub use class::{Class, class_of, lock_of, tables_mask};
