//! The machine of one session: its state, its events, and the definitions of what it is due to do,
//! where each event leads it, and which event may happen.
#![tactic(auto)]

mod action;
mod answers;
mod class;
mod codes;
mod machine;
mod may;
mod rules;
mod status;
mod work;

pub use action::{Action, Cause, SessionEvent};
pub use answers::{
    counts, first_other, goes_on, is_kept, is_other, is_refusal, kept, lowest, next_of, reader,
};
pub use class::work_of;
pub use codes::{counts_spent, in_a_block, moment_out_of_range, no_backend, outside_a_block};
pub use machine::{Ending, GatePhase, Heard, Machine, Point, ReadPolicy, Session, Stage};
pub use may::{answers_call, fits, has_its_bit, is_of_stage, is_seen_or_granted, may_stop};
pub use rules::{
    commit_outcome, done_with, is_moment, phase_changed, refusal_of, request_of, rewritten,
    stage_posted, tables_of, tag_of,
};
pub use status::Status;
pub use work::{Class, Verb, Work};
