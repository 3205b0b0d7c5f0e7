//! The codes with which bytes are refused.
//!
//! Source: PostgreSQL, "PostgreSQL Error Codes".

use pool_base::Code;

/// The bytes are not UTF-8, or hold a zero byte.
pub const CHARACTER_NOT_IN_REPERTOIRE: Code = Code { bytes: *b"22021" };

/// A bool or a number is not of its grammar.
pub const INVALID_TEXT_REPRESENTATION: Code = Code { bytes: *b"22P02" };

/// A number is out of its type's range.
pub const NUMERIC_VALUE_OUT_OF_RANGE: Code = Code { bytes: *b"22003" };

/// A moment is not of its grammar.
pub const INVALID_DATETIME_FORMAT: Code = Code { bytes: *b"22007" };

/// A moment, or a field of it, is out of range.
pub const DATETIME_FIELD_OVERFLOW: Code = Code { bytes: *b"22008" };

/// The bytes are too few.
pub const PROTOCOL_VIOLATION: Code = Code { bytes: *b"08P01" };

/// The bytes are too many.
pub const INVALID_BINARY_REPRESENTATION: Code = Code { bytes: *b"22P03" };
