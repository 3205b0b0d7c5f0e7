//! What stands at the front of some bytes.

/// What a reader found at the front of the bytes. What follows a message is not looked at.
///
/// Units: `length` and `place` are bytes; `place` counts from 0.
#[derive(PartialEq, Eq, Drop)]
pub enum Read<T> {
    /// All of a message, which takes `length` bytes, its type included.
    Whole { message: T, length: usize },
    /// Too few bytes to tell: read more, and call again.
    More,
    /// The bytes are not of the grammar.
    Bad { place: usize },
    /// The message states a length above the limit.
    TooLong { stated: u32 },
}
