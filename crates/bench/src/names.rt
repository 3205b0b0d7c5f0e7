//! Names of tables and columns: finding them.
mod looking;
mod timing;
mod words;

pub use timing::run;
