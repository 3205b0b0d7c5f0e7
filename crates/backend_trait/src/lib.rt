//! A database with all its sessions, as the pool sees it: what it is asked, what it may answer, and
//! what each answer leaves.
//!
//! The laws of effects: a write stays in its table, and an effect sees its table alone.
//!
//! The laws of types: what an expression comes to has its type, and what a statement leaves or
//! reads is of its table or of its result.
//!
//! The link of one session to a backend that lies elsewhere: what is asked over it, and what it may
//! answer.
#![tactic(auto)]

mod answer;
mod backend;
mod draws;
mod effects;
mod given;
mod link;
mod request;
mod rows;
mod runnable;
mod timeless;
mod types;

pub use answer::{Answer, Polled};
pub use backend::Backend;
pub use catalogue::{Catalogue, Checked};
pub use draws::{draws_few, next_behind};
pub use effects::{effects_see_their_table, writes_stay_in_their_table};
pub use given::is_of_run;
pub use link::Link;
pub use request::{Posted, Request};
pub use rows::has_columns;
pub use runnable::is_runnable;
pub use sql_eval::Row;
pub use types::{reads_have_their_columns, values_have_their_types, writes_are_stored};
