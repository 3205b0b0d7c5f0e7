//! The judgement of a chain's answers.

use pool_base::{BackendId, BackendSet};

/// The judgement of a chain's answers. The largest group of equal ones is kept; of two that are as
/// large, the one with the lowest number in it. `holder` is the lowest member of that group.
#[derive(Clone, Copy, Debug, PartialEq, Eq)]
pub enum Judged {
    /// All answers are equal.
    Agreed {
        holder: BackendId,
    },
    /// Two answers differ: these differ from the kept one.
    Split {
        holder: BackendId,
        differing: BackendSet,
    },
}
