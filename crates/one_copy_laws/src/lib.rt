//! Every event of the replicated world keeps the invariant, so every schedule is of one store:
//! one copy, agreement, acknowledged commits. A law for each kind of event, and the induction over
//! them.
//!
//! What the replicated world keeps of its backends' contracts: each post that is due meets its
//! store's condition.
#![tactic(auto)]

mod acts;
mod awaited;
mod causes;
mod chains;
mod commits;
mod decided;
mod detachments;
mod draws;
mod falls;
mod gate;
mod induction;
mod inserts;
mod looks;
mod marks;
mod orders;
mod posts;
mod replies;
mod results;
mod runs;
mod splits;

pub use acts::{
    act_keeps, begin_keeps, commit_keeps, lock_keeps, refusal_keeps, result_keeps, rollback_keeps,
};
pub use awaited::{due_posts_meet, every_event_awaits, posts_meet_their_conditions};
pub use causes::machines_detach_with_cause;
pub use chains::{fault_keeps, take_keeps};
pub use commits::enter_commit_keeps;
pub use decided::{ends_decided_keeps, last_keeps, locks_decided_keeps, opens_decided_keeps};
pub use detachments::{detached_keeps, reads_agree, refuses_decided_keeps, result_decided_keeps};
pub use draws::{death_drawn, result_drawn};
pub use falls::{falls_keep, lost_keeps, split_next_keeps, split_on_keeps};
pub use gate::{enter_snapshot_keeps, finish_keeps, leave_commit_keeps, leave_snapshot_keeps};
pub use induction::{
    always_holds, calls_meet_their_conditions, commits_are_done, detachments_have_causes,
    every_event_keeps, one_copy, replicas_agree,
};
pub use inserts::{inserted_decided_keeps, inserted_keeps};
pub use looks::{
    chosen_keeps, ending_keeps, locked_keeps, next_keeps, opening_keeps, shown_keeps,
    stranded_keeps,
};
pub use marks::{crossings_carry, crossings_marked};
pub use orders::order_keeps;
pub use posts::{marks_keep, post_keeps};
pub use replies::{end_keeps, reply_keeps};
pub use results::{read_keeps, refused_keeps, refused_read_keeps, reread_keeps};
pub use runs::ran_keeps;
pub use splits::{split_keeps, stay_keeps};
