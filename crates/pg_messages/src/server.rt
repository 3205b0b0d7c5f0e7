//! The messages that a server sends.

use pool_base::List;

/// The ways in which a password may be shown, each behind the other with a zero byte, and a zero
/// byte at the end.
pub const SASL_NAMES: &[u8] = b"SCRAM-SHA-256\0\0";

/// A message of a server.
///
/// Source: PostgreSQL, Frontend/Backend Protocol, "Message Formats".
#[derive(PartialEq, Eq, Drop)]
pub enum ServerMessage {
    AuthOk,
    /// A password is to be shown by SCRAM-SHA-256.
    AuthSasl,
    /// What the server says in such an exchange.
    AuthContinue { body: List<u8> },
    /// The last thing that it says there.
    AuthFinal { body: List<u8> },
    ParameterStatus { name: List<u8>, value: List<u8> },
    BackendKey { process: i32, secret: i32 },
    /// `status` is `I` (idle), `T` (in a block) or `E` (in a failed block).
    Ready { status: u8 },
    RowDescription { fields: List<Field> },
    /// One row; None is null.
    DataRow { values: List<Option<List<u8>>> },
    /// The end of a statement, as `SELECT 1`.
    Complete { tag: List<u8> },
    Error { parts: List<Part> },
    Notice { parts: List<Part> },
    /// OIDs of the types of a statement's parameters.
    ParameterDescription { kinds: List<u32> },
    /// The answer to an empty text.
    Empty,
    ParseComplete,
    BindComplete,
    CloseComplete,
    NoData,
    /// A portal gave as many rows as were asked for.
    Suspended,
}

/// A column of a result: `kind` is the OID of its type, `size` its bytes or -1, `format` 0 (text)
/// or 1 (binary).
#[derive(PartialEq, Eq, Drop)]
pub struct Field {
    pub name: List<u8>,
    pub table: u32,
    pub column: i16,
    pub kind: u32,
    pub size: i16,
    pub modifier: i32,
    pub format: u16,
}

/// A part of an error or a notice: `tag` says which, as `C` for the code.
#[derive(PartialEq, Eq, Drop)]
pub struct Part {
    pub tag: u8,
    pub text: List<u8>,
}
