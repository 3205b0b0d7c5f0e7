//! A backend's state changes.
ghost use Rattle.std.specs.Prelude.{◌≡◌, is_none, option_map, slice_get};
ghost use Rattle.serve_base.specs.Start.{is_up_in, marked};

use crate::status::{Down, Standing};
use pool_base::{BackendId, List};

/// Whether the backend is there and up.
pub fn is_up(all: &[Standing], b: BackendId) -> bool
    ensures { result ≡ is_up_in (slice_get all.now b.number) }
{
    match all.get(usize::from(b.number)) {
        Some(standing) => standing.down.is_none(),
        None => false,
    }
}

/// Marks a backend: up, or down since then. One that is not there changes nothing.
pub fn mark(all: List<Standing>, b: BackendId, down: Option<Down>) -> List<Standing>
    ensures { result ≡ marked b.number down all }
{
    let mut items = all.into_vec();
    let at = usize::from(b.number);
    if at < items.len() {
        items[at].down = down;
    }
    List::from_vec(items)
}
