//! The fields that are printed of a moment.

/// A moment's date and time of day in UTC.
#[derive(Clone, Copy, PartialEq, Eq)]
pub struct Reading {
    pub year: u32,
    pub month: u32,
    pub day: u32,
    pub hour: u32,
    pub minute: u32,
    pub second: u32,
    pub micros: u32,
}
