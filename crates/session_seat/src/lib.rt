//! One step of one session of a play, over one gate and the backends of a shelf.
#![tactic(auto)]

mod book;
mod calls;
mod fault;
mod policy;
mod posting;
mod ready;
mod replies;
mod seat;
mod setting;
mod start;
mod step;
mod swapping;
mod talk;
mod world;

pub use book::{Book, Journal};
pub use calls::{mark_of, may_call};
pub use fault::StepFault;
pub use policy::policy_of;
pub use posting::Looked;
pub use replies::put_no_place;
pub use seat::{Seat, Turn};
pub use setting::Setting;
pub use step::{Step, take_step, tell};
pub use talk::{note_loss, put_detached};
pub use world::World;
