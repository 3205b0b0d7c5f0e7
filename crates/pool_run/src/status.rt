//! How a run ends.
ghost use Rattle.std.specs.Prelude.{◌≡◌};
ghost use Rattle.pool_run.specs.Status.{code_of};

/// How a run ends.
#[derive(Clone, Copy, Drop)]
pub enum Status {
    /// The script was played to its end.
    Done,
    /// The words are no command.
    NoCommand,
    /// The configuration or the schema is refused.
    Refused,
    /// The script is refused.
    ScriptRefused,
    /// A file could not be read.
    FilesFailed,
    /// The output could not be written.
    SinkFailed,
    /// Memory was refused.
    NoMemory,
    /// The words and the texts ask for what is not built yet.
    NotBuilt,
    /// A check inside the pool failed, and it stopped itself.
    Stopped,
    /// The script was played to its end, and no backend is attached.
    NoneLeft,
}

impl Status {
    /// The number that the program ends with.
    pub fn code(self) -> u8
        ensures { result ≡ code_of self }
    {
        match self {
            Status::Done => 0,
            Status::NoCommand => 1,
            Status::Refused => 2,
            Status::ScriptRefused => 3,
            Status::FilesFailed => 4,
            Status::SinkFailed => 5,
            Status::NoMemory => 7,
            Status::NotBuilt => 9,
            Status::Stopped => 10,
            Status::NoneLeft => 6,
        }
    }
}
