//! A store in memory: what its sessions ask of it.
mod asking;
mod inserts;
mod timing;
mod turns;

pub use timing::run;
