//! The codes of the pool's own refusals and warnings.
//!
//! Source: PostgreSQL, "PostgreSQL Error Codes".
ghost use Rattle.std.specs.Prelude.{◌≡◌};
ghost use Rattle.session_machine.specs.Codes.{in_a_block, outside_a_block, moment_out_of_range, counts_spent, no_backend};

use pool_base::Code;

/// A warning: BEGIN in a block.
pub fn in_a_block() -> Code
    ensures { result ≡ in_a_block }
{
    Code { bytes: *b"25001" }
}

/// A warning: COMMIT or ROLLBACK outside a block.
pub fn outside_a_block() -> Code
    ensures { result ≡ outside_a_block }
{
    Code { bytes: *b"25P01" }
}

/// The transaction's moment cannot be written.
pub fn moment_out_of_range() -> Code
    ensures { result ≡ moment_out_of_range }
{
    Code { bytes: *b"22008" }
}

/// The gate's counts are spent.
pub fn counts_spent() -> Code
    ensures { result ≡ counts_spent }
{
    Code { bytes: *b"54000" }
}

/// No backend is attached.
pub fn no_backend() -> Code
    ensures { result ≡ no_backend }
{
    Code { bytes: *b"57P03" }
}
