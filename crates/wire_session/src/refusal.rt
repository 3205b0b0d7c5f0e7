//! Why a client is refused.
ghost use Rattle.std.specs.Prelude.{[], codes, IfOk};
ghost use Rattle.wire_reply.specs.declared.saying.Saying.TheVariants.{LimitPassed};
ghost use Rattle.wire_session.specs.Refusals.{Says, IsNotTaken};

use pool_base::{Code, NoMemory, Text};
use std::alloc::Global;
use wire_reply::Saying;

/// A refusal: what is said, under which code, with the name that stands in the text.
#[derive(Drop)]
pub struct Refusal {
    pub saying: Saying,
    pub code: Code,
    pub name: Text,
}

/// A refusal whose text has no name.
pub fn refused(alloc: Global, saying: Saying, code: Code) -> Result<Refusal, NoMemory>
    ensures { IfOk result (Says saying code.bytes []) }
{
    Ok(Refusal {
        saying,
        code,
        name: Text::from_str(alloc, "")?,
    })
}

/// What is named is not taken: `feature_not_supported`.
pub fn not_in_profile(alloc: Global, what: &str) -> Result<Refusal, NoMemory>
    ensures { IfOk result (IsNotTaken what.now) }
{
    Ok(Refusal {
        saying: Saying::NotInProfile,
        code: Code { bytes: *b"0A000" },
        name: Text::from_str(alloc, what)?,
    })
}

/// A limit was passed.
pub fn limit_passed(alloc: Global) -> Result<Refusal, NoMemory>
    ensures { IfOk result (Says LimitPassed (codes "54000") []) }
{
    refused(alloc, Saying::LimitPassed, Code { bytes: *b"54000" })
}
