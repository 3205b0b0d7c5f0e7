//! What the gate holds.
use pool_base::BackendSet;

/// What the gate holds. All but `attached` is 0 at the start.
#[derive(Clone, Copy, PartialEq, Eq)]
pub struct GateState {
    /// The attached backends.
    pub attached: BackendSet,
    /// How often a backend was attached or detached.
    pub epoch: u32,
    /// Sessions that take a snapshot.
    pub snaps: u16,
    /// Sessions that are in a commit.
    pub commits: u16,
    /// Sessions with a transaction under way, those in a commit among them.
    pub live: u16,
    /// How far a recovery is: 0 for none, 1 copying, 2 asked for quiet, 3 entered.
    pub quiet: u8,
    /// Commits that were left.
    pub done: u64,
    /// Bit n: a commit that changed table n was entered since the last recovery began to copy.
    pub touched: u64,
}
