//! What a place of an expression asks.
use pg_values::ColType;

/// What a string, NULL and a parameter of no type take at a place, and which types may stand there.
#[derive(Clone, Copy, PartialEq, Eq)]
pub struct Asks {
    pub leaf: ColType,
    pub takes: Takes,
}

/// Which types may stand at a place.
#[derive(Clone, Copy, PartialEq, Eq)]
pub enum Takes {
    Any,
    /// int4 and int8.
    Whole,
    /// One type with this one, int4 and int8 counting as one.
    Like(ColType),
}
