//! How a check ends.

/// How a check ends.
#[derive(Clone, Copy, Drop)]
pub enum Status {
    /// The events are a schedule.
    Done,
    /// The words are no command.
    NoCommand,
    /// A line is bad, or the journal is too long.
    BadLine,
    /// No event that may come was found with the line of an event.
    EventFails,
    /// The journal could not be read.
    FilesFailed,
    /// The output could not be written.
    SinkFailed,
    /// Memory was refused.
    NoMemory,
}

impl Status {
    /// The number that the program ends with.
    pub fn code(self) -> u8 {
        match self {
            Status::Done => 0,
            Status::NoCommand => 1,
            Status::BadLine => 2,
            Status::EventFails => 3,
            Status::FilesFailed => 4,
            Status::SinkFailed => 5,
            Status::NoMemory => 7,
        }
    }
}
