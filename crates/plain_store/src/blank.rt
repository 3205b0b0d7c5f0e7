//! A store before its first request.
ghost use Rattle.std.specs.Prelude.{◌≡◌, None, IfOk, length};
ghost use Rattle.plain_store.specs.Blanks.{AllAre};

use crate::data::{Database, Phase};
use backend_trait::{Catalogue, Request};
use outcomes::NextNumbers;
use pool_base::NoMemory;
use std::alloc::Global;

fn absent(alloc: Global) -> Result<Vec<Phase>, NoMemory>
    ensures len { IfOk result (λ all. length all.items ≡ 65) }
    ensures all { IfOk result (λ all. AllAre Phase.Absent all.items) }
{
    let mut all: Vec<Phase> = Vec::new(alloc);
    for _ in 0..65_usize {
        all.push(Phase::Absent)?;
    }
    Ok(all)
}

fn idle(alloc: Global) -> Result<Vec<Option<Request>>, NoMemory>
    ensures len { IfOk result (λ all. length all.items ≡ 65) }
    ensures all { IfOk result (λ all. AllAre None all.items) }
{
    let mut all: Vec<Option<Request>> = Vec::new(alloc);
    for _ in 0..65_usize {
        all.push(None)?;
    }
    Ok(all)
}

fn unmarked(alloc: Global) -> Result<Vec<bool>, NoMemory>
    ensures { IfOk result (λ all. length all.items ≡ 65) }
{
    let mut all: Vec<bool> = Vec::new(alloc);
    for _ in 0..65_usize {
        all.push(false)?;
    }
    Ok(all)
}

impl Database {
    ghost use Rattle.schema.specs.Allowed.{AreAllowed};
    ghost use Rattle.backend_trait.specs.Store.{prepared};
    ghost use Rattle.plain_store.specs.Meaning.{store_of};

    /// A store of these tables, which a schema can have, before its first request.
    pub fn new(alloc: Global, catalogue: Catalogue) -> Result<Database, NoMemory>
        requires { AreAllowed catalogue }
        ensures { IfOk result (λ store. store_of store ≡ prepared catalogue) }
    {
        let numbers = NextNumbers::new(&catalogue);
        Ok(Database {
            alloc,
            catalogue,
            numbers,
            log: Vec::new(alloc),
            phases: absent(alloc)?,
            requests: idle(alloc)?,
            crossed: unmarked(alloc)?,
            is_lost: false,
        })
    }
}
