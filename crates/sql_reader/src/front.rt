//! A list with an item before the others.
ghost use Rattle.std.specs.Prelude.{◌≡◌, ◌∷◌, IfOk};

use pool_base::{List, NoMemory};
use std::alloc::Global;

/// The list with an item before the others.
pub(crate) fn in_front<T: Drop>(
    alloc: Global,
    first: T,
    others: List<T>,
) -> Result<List<T>, NoMemory>
    ensures { IfOk result (λ all. all ≡ first ∷ others) }
{
    let mut all = List::new(alloc);
    all.push(first)?;
    all.append(others)?;
    Ok(all)
}
