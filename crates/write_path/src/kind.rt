//! The kinds of chains.

/// Where a chain ends.
#[derive(Clone, Copy, PartialEq, Eq)]
pub enum ChainKind {
    /// Where the lowest attached backend has refused, the others are not asked.
    StopAtRefusal,
    /// All are asked.
    All,
}
