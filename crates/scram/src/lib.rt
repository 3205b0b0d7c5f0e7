//! SCRAM-SHA-256 without channel binding, for the server's side and for the client's: the messages
//! of an exchange, and who has shown that he knows a password.
//! Whatever is answered is what RFC 5802 says of the messages before.
#![tactic(auto)]

mod binding;
mod challenge;
mod client;
mod coding;
mod count;
mod fault;
mod keys;
mod laws;
mod mac;
mod opening;
mod pieces;
mod proof;
mod salting;
mod server;
mod stranger;
mod verdict;
mod verifier;
mod words;

pub use binding::Binding;
pub use client::ScramClient;
pub use coding::nonce_of;
pub use fault::ScramFault;
pub use laws::accept_each_other;
pub use opening::is_first;
pub use server::ScramServer;
pub use stranger::stand_in;
pub use verifier::{Verifier, is_verifier, make_verifier, read_verifier, write_verifier};
pub use words::{is_name, is_nonce, is_password};
