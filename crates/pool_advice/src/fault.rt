//! A line that is refused.

/// Why a line is refused.
#[derive(Clone, Copy, Debug, PartialEq, Eq, Drop)]
pub enum Refusal {
    /// It is none of the grammar's, or its value is not one that its parameter takes.
    Bad,
    /// No parameter has its name.
    UnknownName,
    /// It asks for another clustering mode.
    WrongMode,
}

/// A line that is refused. Lines count from 1.
#[derive(Clone, Copy, Drop)]
pub struct LineFault<'a> {
    pub number: u32,
    pub line: &'a [u8],
    pub refusal: Refusal,
}
