//! Texts of SQL: reading them.
mod reading;
mod samples;
mod timing;

pub use timing::run;
