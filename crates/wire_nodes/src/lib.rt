//! What `SHOW pool_nodes` tells: a row for each configured backend, exactly.
#![tactic(auto)]

mod nodes;

pub use nodes::nodes_bytes;
