//! Messages of the protocol: reading a client's and writing a server's.
mod reading;
mod samples;
mod timing;
mod writing;

pub use timing::run;
