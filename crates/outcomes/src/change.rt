//! The sets in which transactions commit their changes.
use sql_eval::Change;

/// The changes of one transaction, oldest first: of two at one place the later counts.
#[derive(Drop)]
pub struct ChangeSet {
    pub changes: Vec<Change>,
}
