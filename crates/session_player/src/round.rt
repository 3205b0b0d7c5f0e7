//! Turns and rounds.
//!
//! ```text
//! turn      steps of one session, until it waits, rests, is closed, or has come to the mark
//! round     a turn of each session in the order of numbers, but of those that are held or rest
//! rounds    round after round, up to the first without an event
//! ```
//!
//! A turn goes on behind an event alone, and rounds go on behind a round with an event. A play has
//! fewer than 2^64 events, so turns and rounds end.
ghost use Rattle.std.specs.Prelude.{◌≡◌, ◌↔◌, ◌<◌, ◌≤◌, ◌⊎◌, ℕ, suc, length, None, Some, IsTrue, IfOk, OnOk, false, true, slice_index_or};
ghost use Rattle.pool_base.specs.declared.session_id.SessionId.{SessionId};
ghost use Rattle.schema.specs.Allowed.{AreAllowed};
ghost use Rattle.schema.specs.Ranges.{AreInRange};
ghost use Rattle.session_machine.specs.Rules.{new_machine};
ghost use Rattle.session_engine.specs.Cores.{machine_in};
ghost use Rattle.session_seat.specs.declared.seat.Turn.TheVariants.{Held};
ghost use Rattle.session_seat.specs.Policy.{policy_in};
ghost use Rattle.session_seat.specs.Shared.{Shared, shared_of};
ghost use Rattle.online_recovery.specs.declared.layout.Layout.{Layout};
ghost use Rattle.online_recovery.specs.State.{new_standing};
ghost use Rattle.recovery_seat.specs.Places.{IsLayout, standing_of};
ghost use Rattle.recovery_seat.specs.Steps.{at};
ghost use Rattle.session_player.specs.declared.round.TurnEnd.TheVariants.{Closed, Rests};
ghost use Rattle.session_player.specs.declared.slots.Slot.TheVariants.{Free};
ghost use Rattle.session_player.specs.Journals.{machine_in_slot, standing_in_slot};
ghost use Rattle.session_player.specs.Slots.{ArePlaced, IsPlaced, IsHeld};
ghost use Rattle.session_player.specs.Resting.{IsResting};
ghost use Rattle.session_player.specs.Stillness.{AreStill, EndsStill, IsSlotStill, StandsStill};
ghost use Rattle.session_wire.specs.Shown.{shown};
ghost use Rattle.session_player.specs.Speaking.{Spoke, SpokeAlone, board_of, hearer_in, hearer_of, left_at, spot};
ghost use Rattle.session_player.specs.Turns.{EndsBehind, IsTaken};

use crate::client::Client;
use crate::marks::stops;
use crate::others::others_of;
use crate::slots::{Seats, Slot, free, place_of};
use backend_trait::Backend;
use pgproto::Mark;
use pool_base::{BackendSet, SessionId};
use recovery_seat::{Place, take_step};
use session_seat::{Book, Setting, Step, StepFault, Turn, World};

/// How a session's turn ended.
#[derive(Clone, Copy)]
enum TurnEnd {
    /// It has come to the mark.
    Marked,
    /// It waits: for the gate, or for a backend.
    Waits,
    /// It has nothing to do.
    Rests,
    /// It is over.
    Closed,
}

/// How a turn ends behind a step. None: it goes on.
fn end_behind(until: Option<Mark>, did: Step) -> Option<TurnEnd>
    requires { IsTaken did }
    ensures { EndsBehind until did result }
{
    match did {
        Step::Did(mark) => {
            if stops(until, mark) {
                Some(TurnEnd::Marked)
            } else {
                None
            }
        }
        Step::Waits => Some(TurnEnd::Waits),
        Step::Idle => Some(TurnEnd::Rests),
        Step::Closed => Some(TurnEnd::Closed),
        // A place takes the order itself.
        Step::Recovers { .. } => unreachable!(),
    }
}

/// A session takes steps until it waits, rests, is closed, or has come to the mark.
fn take_steps<B: Backend>(
    setting: Setting,
    place: &mut Place,
    others: BackendSet,
    until: Option<Mark>,
    world: &mut World<B>,
    book: &mut Book,
) -> Result<TurnEnd, StepFault>
    requires allowed { AreAllowed setting.tables.now }
    requires in_range { AreInRange setting.tables.now }
    requires tables { world.old.tables ≡ setting.tables.now }
    ensures speaks { (layout : Layout) → IsLayout setting.entry.config.now setting.entry.tables.now
        layout → IfOk result (λ end. SpokeAlone setting.entry.tables.now setting.entry.moment
        setting.entry.config.now.nodes place.old.seat.s others.bits
        (spot (at (shared_of B.meaning world.old.gate.state world.old.tables world.old.count
        world.old.shelf.items) (machine_in place.old.seat.core) (standing_of layout place.old)
        book.old.journal) (Some (hearer_of place.old.seat)) book.old.lines)
        (spot (at (shared_of B.meaning world.new.gate.state world.new.tables world.new.count
        world.new.shelf.items) (machine_in place.new.seat.core) (standing_of layout place.new)
        book.new.journal) (left_at end (hearer_of place.new.seat)) book.new.lines)) }
    ensures closed { IfOk result (λ end. end ≡ Closed → machine_in place.new.seat.core ≡
        new_machine place.old.seat.s (policy_in setting.entry.config.now)) }
    ensures at_rest { (layout : Layout) → IsLayout setting.entry.config.now
        setting.entry.tables.now layout → IfOk result (λ end. end ≡ Closed
        → standing_of layout place.new ≡ new_standing place.old.seat.s layout) }
    ensures still { (layout : Layout) → IsLayout setting.entry.config.now setting.entry.tables.now
        layout → IfOk result (λ end. EndsStill until end
        (StandsStill (shared_of B.meaning world.new.gate.state world.new.tables world.new.count
        world.new.shelf.items) place.new.seat.s.number (machine_in place.new.seat.core)
        (standing_of layout place.new) (shown place.new.seat.wire) place.new.seat.over)) }
    ensures resting { IfOk result (λ end. end ≡ Rests → IsResting place.new) }
    ensures unmoved { OnOk result (book.new.events ≤ book.old.events → shared_of B.meaning
        world.new.gate.state world.new.tables world.new.count world.new.shelf.items
        ≡ shared_of B.meaning world.old.gate.state world.old.tables world.old.count
        world.old.shelf.items) }
    ensures events { book.old.events ≤ book.new.events }
    ensures same { place.new.seat.s ≡ place.old.seat.s }
    ensures turn { place.new.seat.turn ≡ place.old.seat.turn }
    ensures tables { world.new.tables ≡ world.old.tables }
    ensures count { world.new.count ≡ world.old.count }
    ensures boxes { length world.new.shelf.items ≡ length world.old.shelf.items }
{
    'steps: loop {
        let before = book.events;
        let did = take_step(setting, place, others, world, book)?;
        if let Some(end) = end_behind(until, did) {
            return Ok(end);
        }
        if book.events <= before {
            return Err(StepFault::Stopped);
        }
    }
}

/// Whether a session is held.
fn is_held(turn: Turn) -> bool
    ensures { IsTrue result ↔ (turn ≡ Held) }
{
    match turn {
        Turn::Held => true,
        Turn::Free => false,
    }
}

/// Whether a turn ended because there is nothing to do.
fn is_rest(end: TurnEnd) -> bool
    ensures { result ≡ true → end ≡ Rests }
{
    match end {
        TurnEnd::Rests => true,
        TurnEnd::Marked | TurnEnd::Waits | TurnEnd::Closed => false,
    }
}

/// The turn of a session, up to the mark, if there is one.
fn turn_of<B: Backend>(
    setting: Setting,
    client: &mut Client,
    others: BackendSet,
    until: Option<Mark>,
    world: &mut World<B>,
    book: &mut Book,
) -> Result<TurnEnd, StepFault>
    requires allowed { AreAllowed setting.tables.now }
    requires in_range { AreInRange setting.tables.now }
    requires tables { world.old.tables ≡ setting.tables.now }
    ensures speaks { (layout : Layout) → IsLayout setting.entry.config.now setting.entry.tables.now
        layout → IfOk result (λ end. SpokeAlone setting.entry.tables.now setting.entry.moment
        setting.entry.config.now.nodes client.old.place.seat.s others.bits
        (spot (at (shared_of B.meaning world.old.gate.state world.old.tables world.old.count
        world.old.shelf.items) (machine_in client.old.place.seat.core) (standing_of layout
        client.old.place) book.old.journal) (Some (hearer_of client.old.place.seat)) book.old.lines)
        (spot (at (shared_of B.meaning world.new.gate.state world.new.tables world.new.count
        world.new.shelf.items) (machine_in client.new.place.seat.core) (standing_of layout
        client.new.place)
        book.new.journal) (left_at end (hearer_of client.new.place.seat)) book.new.lines)) }
    ensures closed { IfOk result (λ end. end ≡ Closed → machine_in client.new.place.seat.core ≡
        new_machine client.old.place.seat.s (policy_in setting.entry.config.now)) }
    ensures at_rest { (layout : Layout) → IsLayout setting.entry.config.now
        setting.entry.tables.now layout → IfOk result (λ end. end ≡ Closed
        → standing_of layout client.new.place ≡ new_standing client.old.place.seat.s layout) }
    ensures still { (layout : Layout) → IsLayout setting.entry.config.now setting.entry.tables.now
        layout → IfOk result (λ end. EndsStill until end
        (StandsStill (shared_of B.meaning world.new.gate.state world.new.tables world.new.count
        world.new.shelf.items) client.new.place.seat.s.number
        (machine_in client.new.place.seat.core)
        (standing_of layout client.new.place) (shown client.new.place.seat.wire)
        client.new.place.seat.over)) }
    ensures unmoved { OnOk result (book.new.events ≤ book.old.events → shared_of B.meaning
        world.new.gate.state world.new.tables world.new.count world.new.shelf.items
        ≡ shared_of B.meaning world.old.gate.state world.old.tables world.old.count
        world.old.shelf.items) }
    ensures events { book.old.events ≤ book.new.events }
    ensures same { client.new.place.seat.s ≡ client.old.place.seat.s }
    ensures tables { world.new.tables ≡ world.old.tables }
    ensures count { world.new.count ≡ world.old.count }
    ensures boxes { length world.new.shelf.items ≡ length world.old.shelf.items }
{
    client.rests = false;
    let end = take_steps(setting, &mut client.place, others, until, world, book)?;
    client.rests = is_rest(end);
    Ok(end)
}

/// The turn of a slot in a round.
fn turn<B: Backend>(
    setting: Setting,
    slot: &mut Slot,
    others: BackendSet,
    world: &mut World<B>,
    book: &mut Book,
) -> Result<(), StepFault>
    requires allowed { AreAllowed setting.tables.now }
    requires in_range { AreInRange setting.tables.now }
    requires tables { world.old.tables ≡ setting.tables.now }
    ensures speaks { (layout : Layout) → IsLayout setting.entry.config.now setting.entry.tables.now
        layout → (before : ℕ) → (s : SessionId) → s.number ≡ suc before
        → IsPlaced before slot.old → OnOk result (SpokeAlone setting.entry.tables.now
        setting.entry.moment setting.entry.config.now.nodes s others.bits
        (spot (at (shared_of B.meaning world.old.gate.state world.old.tables world.old.count
        world.old.shelf.items) (machine_in_slot (policy_in setting.entry.config.now) s slot.old)
        (standing_in_slot layout s slot.old) book.old.journal) (hearer_in slot.old) book.old.lines)
        (spot (at (shared_of B.meaning world.new.gate.state world.new.tables world.new.count
        world.new.shelf.items) (machine_in_slot (policy_in setting.entry.config.now) s slot.new)
        (standing_in_slot layout s slot.new) book.new.journal) (hearer_in slot.new)
        book.new.lines)) }
    ensures still { (layout : Layout) → IsLayout setting.entry.config.now setting.entry.tables.now
        layout → OnOk result (IsSlotStill (shared_of B.meaning world.new.gate.state
        world.new.tables world.new.count world.new.shelf.items) layout
        slot.new) }
    ensures unmoved { OnOk result (book.new.events ≤ book.old.events → shared_of B.meaning
        world.new.gate.state world.new.tables world.new.count world.new.shelf.items
        ≡ shared_of B.meaning world.old.gate.state world.old.tables world.old.count
        world.old.shelf.items) }
    ensures events { book.old.events ≤ book.new.events }
    ensures placed { (before : ℕ) → IsPlaced before slot.old → IsPlaced before slot.new }
    ensures tables { world.new.tables ≡ world.old.tables }
    ensures count { world.new.count ≡ world.old.count }
    ensures boxes { length world.new.shelf.items ≡ length world.old.shelf.items }
{
    let end = match slot {
        Slot::Free => return Ok(()),
        Slot::Taken(client) => turn_of(setting, client, others, None, world, book)?,
    };
    if let TurnEnd::Closed = end {
        free(slot);
    }
    Ok(())
}

/// Whether a session takes a turn. One that is held takes no step, and one that rests has none to
/// take.
fn is_to_go(client: &Client) -> bool
    ensures held { client.now.place.seat.turn ≡ Held → result ≡ false }
    ensures others { result ≡ false → (client.now.place.seat.turn ≡ Held)
        ⊎ IsResting client.now.place }
{
    if client.rests {
        return false;
    }
    !is_held(client.place.seat.turn)
}

/// Whether the session of a slot takes a turn. Where it does not, it stands still.
fn is_due(slot: &Slot) -> bool
    ensures held { IsHeld slot.now → result ≡ false }
    ensures others { result ≡ false → (shared : Shared) → (layout : Layout)
        → IsSlotStill shared layout slot.now }
{
    match slot {
        Slot::Free => false,
        Slot::Taken(client) => is_to_go(client),
    }
}

/// The turn of a slot among all, where it takes one.
fn turn_at<B: Backend>(
    setting: Setting,
    slots: &mut [Slot],
    at: usize,
    world: &mut World<B>,
    book: &mut Book,
) -> Result<(), StepFault>
    requires allowed { AreAllowed setting.tables.now }
    requires in_range { AreInRange setting.tables.now }
    requires tables { world.old.tables ≡ setting.tables.now }
    requires placed { ArePlaced 0 slots.old }
    requires below { at < length slots.old }
    requires few { length slots.old ≤ 64 }
    ensures speaks { (layout : Layout) → IsLayout setting.entry.config.now setting.entry.tables.now
        layout → OnOk result (Spoke setting.entry.tables.now setting.entry.moment
        setting.entry.config.now.nodes
        (board_of (policy_in setting.entry.config.now) layout (shared_of B.meaning
        world.old.gate.state world.old.tables world.old.count
        world.old.shelf.items) slots.old book.old)
        (board_of (policy_in setting.entry.config.now) layout (shared_of B.meaning
        world.new.gate.state world.new.tables world.new.count
        world.new.shelf.items) slots.new book.new)) }
    ensures still { (layout : Layout) → IsLayout setting.entry.config.now setting.entry.tables.now
        layout → OnOk result (IsSlotStill (shared_of B.meaning world.new.gate.state
        world.new.tables world.new.count world.new.shelf.items) layout
        (slice_index_or slots.new at Free)) }
    ensures others { (j : ℕ) → (j ≡ at → ⊥) → slice_index_or slots.new j Free
        ≡ slice_index_or slots.old j Free }
    ensures unmoved { OnOk result (book.new.events ≤ book.old.events → shared_of B.meaning
        world.new.gate.state world.new.tables world.new.count world.new.shelf.items
        ≡ shared_of B.meaning world.old.gate.state world.old.tables world.old.count
        world.old.shelf.items) }
    ensures events { book.old.events ≤ book.new.events }
    ensures held { IsHeld (slice_index_or slots.old at Free) → slots.new ≡ slots.old }
    ensures quiet { IsHeld (slice_index_or slots.old at Free) → book.new ≡ book.old }
    ensures placed { ArePlaced 0 slots.new }
    ensures slots { length slots.new ≡ length slots.old }
    ensures tables { world.new.tables ≡ world.old.tables }
    ensures count { world.new.count ≡ world.old.count }
    ensures boxes { length world.new.shelf.items ≡ length world.old.shelf.items }
{
    if !is_due(&slots[at]) {
        return Ok(());
    }
    let others = others_of(slots, at);
    turn(setting, &mut slots[at], others, world, book)
}

/// One round: a turn of each slot, in the order of numbers.
fn round<B: Backend>(
    setting: Setting,
    slots: &mut [Slot],
    world: &mut World<B>,
    book: &mut Book,
) -> Result<(), StepFault>
    requires allowed { AreAllowed setting.tables.now }
    requires in_range { AreInRange setting.tables.now }
    requires tables { world.old.tables ≡ setting.tables.now }
    requires placed { ArePlaced 0 slots.old }
    requires few { length slots.old ≤ 64 }
    ensures speaks { (layout : Layout) → IsLayout setting.entry.config.now setting.entry.tables.now
        layout → OnOk result (Spoke setting.entry.tables.now setting.entry.moment
        setting.entry.config.now.nodes
        (board_of (policy_in setting.entry.config.now) layout (shared_of B.meaning
        world.old.gate.state world.old.tables world.old.count
        world.old.shelf.items) slots.old book.old)
        (board_of (policy_in setting.entry.config.now) layout (shared_of B.meaning
        world.new.gate.state world.new.tables world.new.count
        world.new.shelf.items) slots.new book.new)) }
    ensures still { (layout : Layout) → IsLayout setting.entry.config.now setting.entry.tables.now
        layout → OnOk result (book.new.events ≤ book.old.events
        → AreStill (shared_of B.meaning world.new.gate.state world.new.tables world.new.count
        world.new.shelf.items) layout slots.new) }
    ensures events { book.old.events ≤ book.new.events }
    ensures placed { ArePlaced 0 slots.new }
    ensures slots { length slots.new ≡ length slots.old }
    ensures tables { world.new.tables ≡ world.old.tables }
    ensures count { world.new.count ≡ world.old.count }
    ensures boxes { length world.new.shelf.items ≡ length world.old.shelf.items }
{
    for at in 0..slots.len() {
        turn_at(setting, slots, at, world, book)?;
    }
    Ok(())
}

/// Rounds, up to the first without an event.
pub(crate) fn rounds<B: Backend>(
    setting: Setting,
    seats: &mut Seats,
    world: &mut World<B>,
    book: &mut Book,
) -> Result<(), StepFault>
    requires allowed { AreAllowed setting.tables.now }
    requires in_range { AreInRange setting.tables.now }
    requires tables { world.old.tables ≡ setting.tables.now }
    ensures speaks { (layout : Layout) → IsLayout setting.entry.config.now setting.entry.tables.now
        layout → OnOk result (Spoke setting.entry.tables.now setting.entry.moment
        setting.entry.config.now.nodes
        (board_of (policy_in setting.entry.config.now) layout (shared_of B.meaning
        world.old.gate.state world.old.tables world.old.count
        world.old.shelf.items) seats.old.slots.items book.old)
        (board_of (policy_in setting.entry.config.now) layout (shared_of B.meaning
        world.new.gate.state world.new.tables world.new.count
        world.new.shelf.items) seats.new.slots.items book.new)) }
    ensures still { (layout : Layout) → IsLayout setting.entry.config.now setting.entry.tables.now
        layout → OnOk result (AreStill (shared_of B.meaning world.new.gate.state
        world.new.tables world.new.count world.new.shelf.items) layout
        seats.new.slots.items) }
    ensures tables { world.new.tables ≡ world.old.tables }
    ensures count { world.new.count ≡ world.old.count }
    ensures boxes { length world.new.shelf.items ≡ length world.old.shelf.items }
{
    'rounds: loop {
        let before = book.events;
        round(setting, seats.slots.as_mut_slice(), world, book)?;
        if book.events <= before {
            return Ok(());
        }
    }
}

/// A session that is connected takes steps up to a mark.
fn turn_until<B: Backend>(
    setting: Setting,
    slot: &mut Slot,
    others: BackendSet,
    mark: Mark,
    world: &mut World<B>,
    book: &mut Book,
) -> Result<(), StepFault>
    requires allowed { AreAllowed setting.tables.now }
    requires in_range { AreInRange setting.tables.now }
    requires tables { world.old.tables ≡ setting.tables.now }
    ensures speaks { (layout : Layout) → IsLayout setting.entry.config.now setting.entry.tables.now
        layout → (before : ℕ) → (s : SessionId) → s.number ≡ suc before
        → IsPlaced before slot.old → OnOk result (SpokeAlone setting.entry.tables.now
        setting.entry.moment setting.entry.config.now.nodes s others.bits
        (spot (at (shared_of B.meaning world.old.gate.state world.old.tables world.old.count
        world.old.shelf.items) (machine_in_slot (policy_in setting.entry.config.now) s slot.old)
        (standing_in_slot layout s slot.old) book.old.journal) (hearer_in slot.old) book.old.lines)
        (spot (at (shared_of B.meaning world.new.gate.state world.new.tables world.new.count
        world.new.shelf.items) (machine_in_slot (policy_in setting.entry.config.now) s slot.new)
        (standing_in_slot layout s slot.new) book.new.journal) (hearer_in slot.new)
        book.new.lines)) }
    ensures placed { (before : ℕ) → IsPlaced before slot.old → IsPlaced before slot.new }
    ensures tables { world.new.tables ≡ world.old.tables }
    ensures count { world.new.count ≡ world.old.count }
    ensures boxes { length world.new.shelf.items ≡ length world.old.shelf.items }
{
    let end = match slot {
        Slot::Free => return Ok(()),
        Slot::Taken(client) => turn_of(setting, client, others, Some(mark), world, book)?,
    };
    if let TurnEnd::Closed = end {
        free(slot);
    }
    Ok(())
}

/// One session alone takes steps up to a mark.
pub(crate) fn go_until<B: Backend>(
    setting: Setting,
    s: SessionId,
    mark: Mark,
    seats: &mut Seats,
    world: &mut World<B>,
    book: &mut Book,
) -> Result<(), StepFault>
    requires allowed { AreAllowed setting.tables.now }
    requires in_range { AreInRange setting.tables.now }
    requires tables { world.old.tables ≡ setting.tables.now }
    ensures speaks { (layout : Layout) → IsLayout setting.entry.config.now setting.entry.tables.now
        layout → OnOk result (Spoke setting.entry.tables.now setting.entry.moment
        setting.entry.config.now.nodes
        (board_of (policy_in setting.entry.config.now) layout (shared_of B.meaning
        world.old.gate.state world.old.tables world.old.count
        world.old.shelf.items) seats.old.slots.items book.old)
        (board_of (policy_in setting.entry.config.now) layout (shared_of B.meaning
        world.new.gate.state world.new.tables world.new.count
        world.new.shelf.items) seats.new.slots.items book.new)) }
    ensures tables { world.new.tables ≡ world.old.tables }
    ensures count { world.new.count ≡ world.old.count }
    ensures boxes { length world.new.shelf.items ≡ length world.old.shelf.items }
{
    let place = place_of(s);
    let others = others_of(seats.slots.as_slice(), place);
    let slot = &mut seats.slots[place];
    turn_until(setting, slot, others, mark, world, book)
}
