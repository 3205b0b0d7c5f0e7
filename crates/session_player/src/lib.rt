//! A script of up to 64 clients, played over one gate and the stores of a shelf. What is written
//! has the echo of each line in order, and whatever happens the shelf keeps as many boxes.
#![tactic(auto)]

mod client;
mod connecting;
mod deed;
mod fault;
mod feeding;
mod marks;
mod others;
mod player;
mod round;
mod slots;
mod writing;

pub use fault::PlayFault;
pub use player::play;
