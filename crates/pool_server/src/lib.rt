//! The serving of a session: its client's bytes on one side, links to the backends on the other,
//! the machine of the session between them, and its pass at the gate. However it ends, the pass is
//! out.
#![tactic(auto)]

mod breaks;
mod departure;
mod end;
mod farewell;
mod footing;
mod laws;
mod noted;
mod outside;
mod parting;
mod policy;
mod seats;
mod serve;
mod session;
mod talk;
mod way_out;
mod work;

pub use end::EndCause;
pub use farewell::farewell_bytes;
pub use footing::{Footing, Phase};
pub use laws::deeds_are_a_run;
pub use noted::serve_noted;
pub use outside::{ClientSource, GatePass, Notices, Posture, Spell};
pub use policy::policy_of;
pub use seats::Seats;
pub use serve::{Around, serve_session};
