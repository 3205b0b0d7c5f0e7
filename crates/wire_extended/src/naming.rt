//! Names that may be given to statements and portals.
ghost use Rattle.std.specs.Prelude.{[], IfOk};
ghost use Rattle.wire_session.specs.Refusals.{Says};
ghost use Rattle.wire_extended.specs.Naming.{TellsFree};

use pool_base::{Code, NoMemory};
use std::alloc::Global;
use wire_reply::Saying;
use wire_session::{Refusal, limit_passed, refused};

/// How a name stands: whether something is there, whether it is the empty one, and whether there
/// are as many names as may be.
#[derive(Clone, Copy)]
pub(crate) struct Standing {
    pub(crate) there: bool,
    pub(crate) unnamed: bool,
    pub(crate) full: bool,
}

/// Why a name is refused; where something is there, as it is said here.
pub(crate) fn refusal_of(
    alloc: Global,
    saying: Saying,
    code: Code,
    standing: Standing,
) -> Result<Option<Refusal>, NoMemory>
    ensures { IfOk result (TellsFree (Says saying code.bytes []) standing.there standing.unnamed
        standing.full) }
{
    match (standing.there, standing.unnamed, standing.full) {
        (true, false, _) => Ok(Some(refused(alloc, saying, code)?)),
        (false, _, true) => Ok(Some(limit_passed(alloc)?)),
        (true, true, _) | (false, _, false) => Ok(None),
    }
}
