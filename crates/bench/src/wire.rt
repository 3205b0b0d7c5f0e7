//! A client's wire: its bytes to orders, and outcomes to bytes.
mod answering;
mod client;
mod pieces;
mod sending;
mod timing;
mod world;

pub use timing::run;
