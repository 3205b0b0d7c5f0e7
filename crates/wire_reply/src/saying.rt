//! What errors and notices say.
ghost use Rattle.std.specs.Prelude.{◌≡◌, ◌≤◌, length};
ghost use Rattle.wire_reply.specs.Sayings.{words_of, is_named};

/// What an error or a notice says. Each has one text; behind some stands a name.
///
/// House rule: one text for each cause, so that a client's log names the cause.
#[derive(Clone, Copy, PartialEq, Eq)]
pub enum Saying {
    /// A backend was lost while it was copied.
    LostInRecovery,
    /// Bytes are no message, or a Bind has a wrong count.
    ProtocolViolation,
    /// What the name says is not taken.
    NotInProfile,
    /// A whole number is out of its type's range.
    IntegerOutOfRange,
    /// A divisor is 0.
    DivisionByZero,
    /// A text is no moment.
    InvalidMoment,
    /// A moment or a field of one is out of range.
    MomentOutOfRange,
    /// A serial column has no numbers left.
    SerialsSpent,
    /// A LIMIT is below 0.
    NegativeLimit,
    /// Bytes are not UTF-8, or hold a zero byte.
    InvalidUtf8,
    /// A text is no bool or whole number.
    InvalidText,
    /// A binary form has too many bytes.
    InvalidBinary,
    /// A start message asks for another encoding.
    NotUtf8,
    /// A format is neither 0 nor 1.
    InvalidFormat,
    /// A column wants a value.
    NullValue,
    /// A key is there.
    DuplicateKey,
    /// A block or a recovery begins in a transaction.
    InTransaction,
    /// A block ends where there is none.
    NoTransaction,
    /// A statement comes in a failed block.
    Aborted,
    /// No statement has that name.
    NoStatement,
    /// No portal has that name.
    NoPortal,
    /// A key was changed since the snapshot.
    Concurrent,
    /// Waiting would close a cycle.
    Deadlock,
    /// No text goes on at that byte, counted from 1.
    SyntaxAt,
    /// A row of an INSERT has more or fewer cells than columns.
    WrongNumber,
    /// An UPDATE sets a column twice.
    SetTwice,
    /// An INSERT names a column twice.
    NamedTwice,
    /// No column has that name.
    NoColumn,
    /// No table has that name.
    NoTable,
    /// The types of operands do not fit.
    TypesDoNotFit,
    /// A parameter stands in a simple query.
    NoParameter,
    /// A portal has that name.
    PortalExists,
    /// A statement has that name.
    StatementExists,
    /// A store finds no memory.
    OutOfMemory,
    /// All sessions are taken.
    TooManyClients,
    /// A limit was passed.
    LimitPassed,
    /// A select list has too many items.
    TooManyColumns,
    /// A recovery asks for a backend that is not to be recovered.
    NotRecoverable,
    /// A portal without rows has run.
    CannotRun,
    /// Another recovery is under way.
    RecoveryUnderWay,
    /// No backend is attached.
    NoBackend,
    /// A backend has a code of its own.
    ByBackends,
}

impl Saying {
    /// The text, up to the name.
    pub fn words(self) -> &'static str
        ensures words { result.now ≡ words_of self }
        ensures short { length result.now ≤ 60 }
    {
        match self {
            Saying::LostInRecovery => "a backend was lost during recovery",
            Saying::ProtocolViolation => "protocol violation",
            Saying::NotInProfile => "not in the profile: ",
            Saying::IntegerOutOfRange => "integer out of range",
            Saying::DivisionByZero => "division by zero",
            Saying::InvalidMoment => "invalid moment",
            Saying::MomentOutOfRange => "moment out of range",
            Saying::SerialsSpent => "serial numbers are spent",
            Saying::NegativeLimit => "LIMIT must not be negative",
            Saying::InvalidUtf8 => "invalid UTF-8",
            Saying::InvalidText => "invalid input text",
            Saying::InvalidBinary => "invalid binary form",
            Saying::NotUtf8 => "client encoding is not UTF8",
            Saying::InvalidFormat => "invalid format code",
            Saying::NullValue => "null value in a NOT NULL column",
            Saying::DuplicateKey => "duplicate key",
            Saying::InTransaction => "a transaction is in progress",
            Saying::NoTransaction => "there is no transaction in progress",
            Saying::Aborted => "current transaction is aborted",
            Saying::NoStatement => "no such prepared statement",
            Saying::NoPortal => "no such portal",
            Saying::Concurrent => "could not serialize access due to concurrent update",
            Saying::Deadlock => "deadlock detected",
            Saying::SyntaxAt => "syntax error at byte ",
            Saying::WrongNumber => "wrong number of values",
            Saying::SetTwice => "column set twice: ",
            Saying::NamedTwice => "column named twice: ",
            Saying::NoColumn => "no such column: ",
            Saying::NoTable => "no such table: ",
            Saying::TypesDoNotFit => "types do not fit",
            Saying::NoParameter => "there is no parameter",
            Saying::PortalExists => "portal exists",
            Saying::StatementExists => "prepared statement exists",
            Saying::OutOfMemory => "out of memory",
            Saying::TooManyClients => "too many clients",
            Saying::LimitPassed => "a limit was passed",
            Saying::TooManyColumns => "too many columns",
            Saying::NotRecoverable => "the backend cannot be recovered",
            Saying::CannotRun => "portal cannot be run",
            Saying::RecoveryUnderWay => "a recovery is under way",
            Saying::NoBackend => "no backend is attached",
            Saying::ByBackends => "refused by the backends",
        }
    }

    /// Whether a name stands behind the text.
    pub fn is_named(self) -> bool
        ensures { result ≡ is_named self }
    {
        matches!(
            self,
            Saying::NotInProfile
                | Saying::SyntaxAt
                | Saying::SetTwice
                | Saying::NamedTwice
                | Saying::NoColumn
                | Saying::NoTable
        )
    }
}
