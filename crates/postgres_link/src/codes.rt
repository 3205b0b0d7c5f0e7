//! The codes with which answers are refused that are too large, or have what no value is read of.
use pool_base::Code;

/// A message of the answer is longer than a message may be, or a row larger than a row.
///
/// Source: PostgreSQL, "PostgreSQL Error Codes".
pub const PROGRAM_LIMIT_EXCEEDED: Code = Code { bytes: *b"54000" };

/// The answer has more bytes than an answer may have.
///
/// Source: PostgreSQL, "PostgreSQL Error Codes".
pub const OUT_OF_MEMORY: Code = Code { bytes: *b"53200" };

/// A moment is none of those that are read.
///
/// Source: PostgreSQL, "PostgreSQL Error Codes".
pub(crate) const DATETIME_FIELD_OVERFLOW: Code = Code { bytes: *b"22008" };
