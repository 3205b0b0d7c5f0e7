//! What a session keeps of its client: prepared statements and portals by their names, the status
//! of its transaction, and whether messages are dropped up to the next Sync.
#![tactic(auto)]

mod portals;
mod refusal;
mod session;
mod statements;

pub use portals::{PORTAL_LIMIT, Portal, PortalState, Portals, bound_of};
pub use refusal::{Refusal, limit_passed, not_in_profile, refused};
pub use session::{Control, Session};
pub use statements::{Prepared, STATEMENT_NAME_LIMIT, Statements};
