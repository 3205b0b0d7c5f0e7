//! Which changes that a recovery makes of the replicated world keep its invariant: a Swap, what a
//! copy writes, an Attach, a turn of the gate's quiet. And what follows over lists of steps.
//!
//! What the statements of a recovery's copy do at a store: the target has what the source has.
//!
//! The replicated world with recoveries: a layer over the world of the sessions. What takes place
//! in it, and laws: snapshots and commits are never under way together, and under entered quiet
//! nobody has a transaction, recoveries included.
#![tactic(auto)]

mod copies;
mod ends;
mod gate;
mod moves;
mod step;
mod steps;
mod touched;

pub use copies::{
    copies_can_be_run, copies_draw_no_numbers, deletes_empty_the_table, full_tables_are_copied,
    inserts_fill_the_table, reads_list_the_table,
};
pub use ends::{commits_leave_what_is_seen, numbers_are_set, snapshots_see_the_rows};
pub use gate::{
    a_recovery_takes_place, counts_are_of_both, held_off_is_blocked, never_together,
    quiet_is_of_one, quiet_is_still, without_recoveries,
};
pub use moves::{attach_keeps, detach_keeps, renew_keeps, spare_keeps, swap_keeps, turn_keeps};
pub use step::Step;
pub use steps::{always_holds, bases_are_right, quiet_adds_nothing, replicas_agree, steps_are_fit};
pub use touched::{changes_are_masked, untouched_rows_stay};
