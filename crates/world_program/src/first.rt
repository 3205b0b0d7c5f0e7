//! The world before its first event.
ghost use Rattle.std.specs.Prelude.{◌≡◌, ◌<◌, ◌-◌, suc, min, None, IfOk, length};
ghost use Rattle.backend_trait.specs.Store.{prepared};
ghost use Rattle.schema.specs.Allowed.{AreAllowed};
ghost use Rattle.schema.specs.Ranges.{AreInRange};
ghost use Rattle.plain_store.specs.Blanks.{AllAre};
ghost use Rattle.plain_store.specs.Meaning.{store_of};
ghost use Rattle.one_copy_model.specs.Numbers.{session_of};
ghost use Rattle.world_program.specs.First.{AreNew, ArePrepared};

use crate::data::{Replica, Replicas};
use backend_trait::{Answer, Catalogue};
use checked_sql::catalogue_copied;
use plain_store::Database;
use pool_base::{BackendSet, NoMemory, SessionId};
use session_engine::Core;
use session_machine::ReadPolicy;
use snapshot_gate::Gate;
use std::alloc::Global;

/// The number from 1 on that is nearest.
fn from_one(n: u32) -> u32
    requires { n < 65 }
    ensures { result ≡ suc (min (n - 1) 63) }
{
    n.saturating_sub(1) + 1
}

/// The session of a number, 1 to 64.
fn session_at(n: u32) -> SessionId
    requires { n < 65 }
    ensures { result ≡ session_of n }
{
    SessionId {
        number: from_one(n),
    }
}

fn cores(alloc: Global, policy: ReadPolicy) -> Result<Vec<Core>, NoMemory>
    ensures len { IfOk result (λ all. length all.items ≡ 65) }
    ensures new { IfOk result (λ all. AreNew policy 0 all.items) }
{
    let mut all: Vec<Core> = Vec::new(alloc);
    for n in 0..65_u32 {
        all.push(Core::new(alloc, session_at(n), policy)?)?;
    }
    Ok(all)
}

fn untaken(alloc: Global) -> Result<Vec<Option<Answer>>, NoMemory>
    ensures len { IfOk result (λ all. length all.items ≡ 65) }
    ensures all { IfOk result (λ all. AllAre None all.items) }
{
    let mut all: Vec<Option<Answer>> = Vec::new(alloc);
    for _ in 0..65_usize {
        all.push(None)?;
    }
    Ok(all)
}

fn replica(alloc: Global, tables: &Catalogue) -> Result<Replica, NoMemory>
    requires in_range { AreInRange tables.now }
    requires allowed { AreAllowed tables.now }
    ensures store { IfOk result (λ r. store_of r.store ≡ prepared tables.now) }
    ensures mail { IfOk result (λ r. AllAre None r.mail.items) }
{
    Ok(Replica {
        store: Database::new(alloc, catalogue_copied(alloc, tables)?)?,
        mail: untaken(alloc)?,
    })
}

fn backends(alloc: Global, tables: &Catalogue) -> Result<Vec<Replica>, NoMemory>
    requires in_range { AreInRange tables.now }
    requires allowed { AreAllowed tables.now }
    ensures len { IfOk result (λ all. length all.items ≡ 8) }
    ensures all { IfOk result (λ all. ArePrepared tables.now all.items) }
{
    let mut all: Vec<Replica> = Vec::new(alloc);
    for _ in 0..8_usize {
        all.push(replica(alloc, tables)?)?;
    }
    Ok(all)
}

impl Replicas {
    ghost use Rattle.one_copy_model.specs.World.{first_world};
    ghost use Rattle.world_program.specs.Meaning.{world_of};

    /// The world of these tables before its first event, where these backends are attached.
    pub fn new(
        alloc: Global,
        catalogue: Catalogue,
        policy: ReadPolicy,
        attached: BackendSet,
    ) -> Result<Replicas, NoMemory>
        requires in_range { AreInRange catalogue }
        requires allowed { AreAllowed catalogue }
        ensures { IfOk result (λ w. world_of w ≡ first_world catalogue policy attached) }
    {
        let backends = backends(alloc, &catalogue)?;
        Ok(Replicas {
            catalogue,
            policy,
            gate: Gate::new(attached),
            cores: cores(alloc, policy)?,
            backends,
        })
    }
}
