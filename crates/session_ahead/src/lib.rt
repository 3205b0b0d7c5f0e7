//! Which requests of a session are fixed before it posts them, so that they can be sent ahead.
#![tactic(auto)]

mod asked;
mod first;
mod laws;
mod post;
mod posts;

pub use laws::{
    commits_are_entered, commits_are_kept, ends_are_kept, locks_wait, nothing_at_rest,
    only_fronts_are_posted, told_stays, writes_wait,
};
pub use post::Post;
pub use posts::coming;
