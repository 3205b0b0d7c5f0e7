//! The codes of a recovery's own refusals.
//!
//! Source: PostgreSQL, "PostgreSQL Error Codes".
ghost use Rattle.std.specs.Prelude.{◌≡◌};
ghost use Rattle.online_recovery.specs.Codes.{cannot_recover, under_way, lost_on_the_way};

use pool_base::Code;

/// That backend cannot be recovered, or there is no spare.
pub(crate) fn cannot_recover() -> Code
    ensures { result ≡ cannot_recover }
{
    Code { bytes: *b"55000" }
}

/// Another recovery is under way.
pub(crate) fn under_way() -> Code
    ensures { result ≡ under_way }
{
    Code { bytes: *b"55006" }
}

/// The source or the target was lost.
pub(crate) fn lost_on_the_way() -> Code
    ensures { result ≡ lost_on_the_way }
{
    Code { bytes: *b"08006" }
}
