//! Which text a code has that came from a backend or from a check.
ghost use Rattle.std.specs.Prelude.{◌≡◌};
ghost use Rattle.wire_reply.specs.Codes.{saying_in, of_backend, of_check};

use crate::saying::Saying;
use pool_base::Code;

/// The codes whose text is one, and has no place for a name.
const OF_BACKENDS: [(Saying, [u8; 5]); 30] = [
    (Saying::LostInRecovery, *b"08006"),
    (Saying::ProtocolViolation, *b"08P01"),
    (Saying::IntegerOutOfRange, *b"22003"),
    (Saying::DivisionByZero, *b"22012"),
    (Saying::InvalidMoment, *b"22007"),
    (Saying::MomentOutOfRange, *b"22008"),
    (Saying::SerialsSpent, *b"2200H"),
    (Saying::NegativeLimit, *b"2201W"),
    (Saying::InvalidUtf8, *b"22021"),
    (Saying::InvalidText, *b"22P02"),
    (Saying::InvalidBinary, *b"22P03"),
    (Saying::NullValue, *b"23502"),
    (Saying::DuplicateKey, *b"23505"),
    (Saying::InTransaction, *b"25001"),
    (Saying::NoTransaction, *b"25P01"),
    (Saying::Aborted, *b"25P02"),
    (Saying::NoStatement, *b"26000"),
    (Saying::NoPortal, *b"34000"),
    (Saying::Concurrent, *b"40001"),
    (Saying::Deadlock, *b"40P01"),
    (Saying::TypesDoNotFit, *b"42804"),
    (Saying::NoParameter, *b"42P02"),
    (Saying::PortalExists, *b"42P03"),
    (Saying::StatementExists, *b"42P05"),
    (Saying::OutOfMemory, *b"53200"),
    (Saying::TooManyClients, *b"53300"),
    (Saying::LimitPassed, *b"54000"),
    (Saying::TooManyColumns, *b"54011"),
    (Saying::RecoveryUnderWay, *b"55006"),
    (Saying::NoBackend, *b"57P03"),
];

/// The codes that a check of a statement or of a value gives, `42601` left out.
const OF_CHECKS: [(Saying, [u8; 5]); 11] = [
    (Saying::NoTable, *b"42P01"),
    (Saying::NoColumn, *b"42703"),
    (Saying::NamedTwice, *b"42701"),
    (Saying::TypesDoNotFit, *b"42804"),
    (Saying::NoParameter, *b"42P02"),
    (Saying::NotInProfile, *b"0A000"),
    (Saying::TooManyColumns, *b"54011"),
    (Saying::InvalidText, *b"22P02"),
    (Saying::IntegerOutOfRange, *b"22003"),
    (Saying::InvalidMoment, *b"22007"),
    (Saying::MomentOutOfRange, *b"22008"),
];

fn saying_in(table: &[(Saying, [u8; 5])], code: Code) -> Option<Saying>
    ensures { result ≡ saying_in code.bytes table.now }
{
    for row in table {
        if row.1 == code.bytes {
            return Some(row.0);
        }
    }
    None
}

/// What is said of a code that a backend or the session gave.
///
/// House rule: the text of its own, where that is one and has no name; else a text that names no
/// cause.
pub fn of_backend(code: Code) -> Saying
    ensures { result ≡ of_backend code.bytes }
{
    match saying_in(&OF_BACKENDS, code) {
        Some(saying) => saying,
        None => Saying::ByBackends,
    }
}

/// What is said of a code of a check; of `42601` it depends on whether the statement is an UPDATE.
pub fn of_check(code: Code, updates: bool) -> Saying
    ensures { result ≡ of_check code.bytes updates }
{
    match saying_in(&OF_CHECKS, code) {
        Some(saying) => saying,
        None => {
            if updates {
                Saying::SetTwice
            } else {
                Saying::WrongNumber
            }
        }
    }
}
