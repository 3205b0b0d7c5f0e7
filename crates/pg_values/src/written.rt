//! A moment as it is written: its fields, as numbers.

/// Whether clocks are ahead of UTC or behind it.
#[derive(Clone, Copy, PartialEq, Eq)]
pub enum Sign {
    East,
    West,
}

/// An offset from UTC.
#[derive(Clone, Copy, PartialEq, Eq)]
pub struct Offset {
    pub sign: Sign,
    pub hours: u32,
    pub minutes: Option<u32>,
}

/// What stands behind the time of day.
#[derive(Clone, Copy, PartialEq, Eq)]
pub enum Zone {
    Unwritten,
    Zulu,
    Offset(Offset),
}

/// The digits behind the point of the seconds: how many, and their number.
#[derive(Clone, Copy, PartialEq, Eq)]
pub struct Fraction {
    pub digits: u32,
    pub number: u32,
}

#[derive(Clone, Copy, PartialEq, Eq)]
pub struct Seconds {
    pub second: u32,
    pub fraction: Option<Fraction>,
}

/// What stands between the date and the time of day.
#[derive(Clone, Copy, PartialEq, Eq)]
pub enum Separator {
    Space,
    LetterT,
}

#[derive(Clone, Copy, PartialEq, Eq)]
pub struct Clock {
    pub separator: Separator,
    pub hour: u32,
    pub minute: u32,
    pub seconds: Option<Seconds>,
    pub zone: Zone,
}

/// A date, and perhaps a time of day.
#[derive(Clone, Copy, PartialEq, Eq)]
pub struct Written {
    pub year: u32,
    pub month: u32,
    pub day: u32,
    pub clock: Option<Clock>,
}
