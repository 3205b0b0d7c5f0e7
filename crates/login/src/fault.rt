//! Why a client is not let in.

/// Why a client is not let in.
#[derive(Clone, Copy, Debug, PartialEq, Eq, Drop)]
pub enum LoginFault {
    /// There is no user of its name, or its proof is wrong: `28P01`.
    Password,
    /// A message is not of its grammar, or not of this exchange: `08P01`.
    Malformed,
}
