//! The codes of statements.
//!
//! Source: PostgreSQL 15, "PostgreSQL Error Codes".

use pool_base::Code;

/// A LIMIT is negative: invalid_row_count_in_limit_clause.
pub(crate) const NEGATIVE_LIMIT: Code = Code { bytes: *b"2201W" };

/// The numbers of a serial column are spent: sequence_generator_limit_exceeded.
pub(crate) const SPENT: Code = Code { bytes: *b"2200H" };

/// A column that is not null has Null: not_null_violation.
pub(crate) const NULL_REFUSED: Code = Code { bytes: *b"23502" };

/// A second row has one key: unique_violation.
pub(crate) const KEY_REFUSED: Code = Code { bytes: *b"23505" };

/// A row is too large: program_limit_exceeded. House rule: the limit.
pub(crate) const TOO_LARGE: Code = Code { bytes: *b"54000" };

/// A number is out of the range of its column: numeric_value_out_of_range.
pub(crate) const OUT_OF_RANGE: Code = Code { bytes: *b"22003" };
