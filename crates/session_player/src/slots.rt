//! The sessions that are connected, by their numbers.
ghost use Rattle.std.specs.Prelude.{◌≡◌, ◌+◌, ◌<◌, ◌≤◌, ℕ, IfOk, length, slice_index_or};
ghost use Rattle.session_player.specs.Slots.{ArePlaced, ArePlaced-prop, is_taken};
ghost use Rattle.session_player.specs.Speaking.{hearers_of};
ghost use Rattle.session_player.specs.Transcript.{count_to};
ghost use Rattle.session_player.specs.declared.slots.Slot.TheVariants.{Free, Taken};

use crate::client::Client;
use pool_base::{NoMemory, SessionId};
use std::alloc::Global;
use std::mem;

/// So many sessions have a number.
const MOST_SESSIONS: usize = 64;

/// A place for a session.
#[derive(Drop)]
pub(crate) enum Slot {
    Free,
    Taken(Client),
}

/// A slot for each number: that of session n is at n - 1.
#[derive(Drop)]
pub(crate) struct Seats {
    pub(crate) slots: Vec<Slot>,
    ghost whole: { length slots.items ≡ 64 },
    ghost placed: { ArePlaced 0 slots.items } by { ArePlaced-prop _ _ },
}

impl Seats {
    /// No session is connected.
    pub(crate) fn new(alloc: Global) -> Result<Seats, NoMemory>
        ensures free { IfOk result (λ seats. (i : ℕ) → slice_index_or seats.slots.items i Free
            ≡ Free) }
    {
        Ok(Seats {
            slots: free_slots(alloc)?,
        })
    }

    /// How many sessions are connected.
    pub(crate) fn taken(&self) -> usize
        ensures { result ≡ count_to (hearers_of self.now.slots.items) 64 }
    {
        count_taken(self.slots.as_slice())
    }
}

/// Whether a session is connected there.
pub(crate) fn is_taken(slot: &Slot) -> bool
    ensures { result ≡ is_taken slot.now }
{
    match slot {
        Slot::Free => false,
        Slot::Taken(_) => true,
    }
}

/// At how many of the slots a session is connected.
#[tactic(auto, using(crate::proofs::Counting::one_more, crate::proofs::Counting::none_more, crate::proofs::Counting::all_counted))]
fn count_taken(slots: &[Slot]) -> usize
    ensures few { result ≤ length slots.now }
    ensures is { result ≡ count_to (hearers_of slots.now) (length slots.now) }
{
    let mut count: usize = 0;
    for slot in slots {
        if is_taken(slot) {
            count += 1;
        }
    }
    count
}

/// Puts a client into a slot. Who was there is let go.
pub(crate) fn put(slot: &mut Slot, client: Client)
    ensures { slot.new ≡ Taken client }
{
    drop(mem::replace(slot, Slot::Taken(client)));
}

/// Lets the session of a slot go.
pub(crate) fn free(slot: &mut Slot)
    ensures { slot.new ≡ Free }
{
    drop(mem::replace(slot, Slot::Free));
}

/// A slot for each number, all of them free.
#[tactic(auto, using(crate::proofs::Placing::placed_free, crate::proofs::Placing::pushed))]
fn free_slots(alloc: Global) -> Result<Vec<Slot>, NoMemory>
    ensures whole { IfOk result (λ slots. length slots.items ≡ 64) }
    ensures placed { IfOk result (λ slots. ArePlaced 0 slots.items) }
    ensures free { IfOk result (λ slots. (i : ℕ) → slice_index_or slots.items i Free ≡ Free) }
{
    let mut slots = Vec::with_capacity(alloc, MOST_SESSIONS)?;
    for number in 0..MOST_SESSIONS {
        slots.push(Slot::Free)?;
    }
    Ok(slots)
}

/// Where the slot of a session is.
pub(crate) fn place_of(s: SessionId) -> usize
    ensures place { result + 1 ≡ s.number }
    ensures below { result < 64 }
{
    (s.number - 1) as usize
}
