//! Which backends are those of the other sessions: who is due to post a request there, or waits for
//! an answer, for itself or for its recovery.
ghost use Rattle.std.specs.Prelude.{◌≡◌, true};
ghost use Rattle.pool_base.specs.Sets.{has};
ghost use Rattle.pool_base.specs.declared.backend_id.BackendId.{BackendId};
ghost use Rattle.session_player.specs.Others.{IsAmong, OthersAreAmong};

use crate::slots::Slot;
use pool_base::BackendSet;

/// A set with the backend of a slot's session in it.
fn with_backend(slot: &Slot, set: BackendSet) -> BackendSet
    ensures kept { (b : BackendId) → has set.bits b.number ≡ true
        → has result.bits b.number ≡ true }
    ensures among { IsAmong result.bits slot.now }
{
    match slot {
        Slot::Free => set,
        Slot::Taken(client) => client.place.with_its_backend(set),
    }
}

/// The backends of the sessions of all slots but that one.
pub(crate) fn others_of(slots: &[Slot], at: usize) -> BackendSet
    ensures { OthersAreAmong result.bits at slots.now }
{
    let mut set = BackendSet::EMPTY;
    for index in 0..slots.len() {
        if index != at {
            set = with_backend(&slots[index], set);
        }
    }
    set
}
