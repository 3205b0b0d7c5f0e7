//! Where an expression stands.

/// A place of an expression in a statement.
#[derive(Clone, Copy)]
pub(crate) enum Place {
    /// A part of another, an item or a filter.
    Part,
    /// Directly behind a minus.
    Negated,
    /// A whole cell, a value of SET or a limit.
    Whole,
}
