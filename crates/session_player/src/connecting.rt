//! What a line does, before the rounds behind it.
ghost use Rattle.std.specs.Prelude.{◌≡◌, ◌++◌, ◌<◌, ◌≤◌, true, false, ℕ, ℤ, List as Sequence, Option as Maybe, codes, if◌then◌else◌, length, IfOk, OnOk};
ghost use Rattle.pool_base.specs.declared.session_id.SessionId.{SessionId};
ghost use Rattle.pgproto.specs.Line.{line_of};
ghost use Rattle.pgproto.specs.Spelling.{IsOfGrammar};
ghost use Rattle.session_machine.specs.declared.machine.Machine.{Machine};
ghost use Rattle.session_machine.specs.declared.machine.ReadPolicy.{ReadPolicy};
ghost use Rattle.session_machine.specs.Rules.{new_machine};
ghost use Rattle.session_engine.specs.Cores.{machine_in};
ghost use Rattle.session_seat.specs.Policy.{policy_in};
ghost use Rattle.session_seat.specs.Shared.{shared_of};
ghost use Rattle.online_recovery.specs.declared.layout.Layout.{Layout};
ghost use Rattle.online_recovery.specs.declared.standing.Standing.{Standing};
ghost use Rattle.online_recovery.specs.State.{new_standing};
ghost use Rattle.recovery_seat.specs.Places.{standing_of};
ghost use Rattle.recovery_seat.specs.Steps.{state};
ghost use Rattle.session_seat.specs.Speech.{closed_line, message_line, no_place, word_line};
ghost use Rattle.session_player.specs.Deeds.{CanBeSent, goes_on};
ghost use Rattle.session_player.specs.declared.connecting.Then.TheVariants.{Rounds};
ghost use Rattle.session_player.specs.Journals.{machine_in_slot, machines_of, standing_in_slot, standings_of};
ghost use Rattle.pool_config.specs.declared.config.Node.{Node};
ghost use Rattle.session_wire.specs.Shown.{View, IsFresh, shown, with_piece};
ghost use Rattle.session_player.specs.Sent.{sent_of};
ghost use Rattle.session_player.specs.Slots.{IsPlaced};
ghost use Rattle.session_player.specs.Speaking.{Happening, Hearer, board, hearer_of, hearers_of};
ghost use Rattle.session_player.specs.Transcript.{Addresses, Connects, IsGranted, LosesOne, count_to, joined, none_line, wished};

use crate::client::Client;
use crate::deed::Wish;
use crate::feeding::{Cut, feed, sent_of};
use crate::slots::{Seats, Slot, is_taken, place_of, put};
use backend_trait::Backend;
use pgproto::{Mark, ScriptLine};
use pool_base::{BackendId, NoMemory, SessionId};
use pool_config::Config;
use recovery_seat::Place;
use session_seat::{Book, Setting, StepFault, Turn, World, note_loss, policy_of, put_no_place};
use std::alloc::Global;

/// The first message of a session: version 3.0, user `pool`, database `pool`.
const START: [u8; 33] = [
    0, 0, 0, 33, 0, 3, 0, 0, b'u', b's', b'e', b'r', 0, b'p', b'o', b'o', b'l', 0, b'd', b'a',
    b't', b'a', b'b', b'a', b's', b'e', 0, b'p', b'o', b'o', b'l', 0, 0,
];

/// What is played behind a line.
#[derive(Clone, Copy)]
pub(crate) enum Then {
    Rounds,
    /// This session alone, up to the mark.
    Alone(SessionId, Mark),
    Nothing,
}

/// A client connects, where its number is free and a place is left.
pub(crate) fn connect(
    setting: Setting,
    s: SessionId,
    cut: Cut,
    seats: &mut Seats,
    book: &mut Book,
) -> Result<Then, StepFault>
    ensures machines { machines_of (policy_in setting.entry.config.now) seats.new.slots.items
        ≡ machines_of (policy_in setting.entry.config.now) seats.old.slots.items }
    ensures standings { (layout : Layout) → standings_of layout seats.new.slots.items
        ≡ standings_of layout seats.old.slots.items }
    ensures journal { book.new.journal ≡ book.old.journal }
    ensures connects { OnOk result (Connects setting.entry.config.now.children s.number
        (hearers_of seats.old.slots.items) book.old.lines (hearers_of seats.new.slots.items)
        book.new.lines) }
    ensures rounds { IfOk result (λ next. next ≡ Rounds) }
{
    let place = place_of(s);
    if is_taken(&seats.slots[place]) {
        return tell_busy(setting.alloc, s, book);
    }
    if is_full(seats, setting.config) {
        return tell_full(setting.alloc, s, book);
    }
    let client = client_of(setting, s, cut)?;
    put(&mut seats.slots[place], client);
    Ok(Then::Rounds)
}

/// Whether as many clients are connected as may be.
fn is_full(seats: &Seats, config: &Config) -> bool
    ensures full { result ≡ true
        → config.now.children ≤ count_to (hearers_of seats.now.slots.items) 64 }
    ensures room { result ≡ false
        → count_to (hearers_of seats.now.slots.items) 64 < config.now.children }
{
    seats.taken() >= config.children as usize
}

/// Tells that the session is connected already.
fn tell_busy(alloc: Global, s: SessionId, book: &mut Book) -> Result<Then, StepFault>
    ensures lines { OnOk result (book.new.lines
        ≡ book.old.lines ++ word_line s.number (codes "busy")) }
    ensures rounds { IfOk result (λ next. next ≡ Rounds) }
    ensures journal { book.new.journal ≡ book.old.journal }
{
    book.say_of(alloc, s, "busy")?;
    Ok(Then::Rounds)
}

/// Tells that no place is left.
fn tell_full(alloc: Global, s: SessionId, book: &mut Book) -> Result<Then, StepFault>
    ensures lines { OnOk result (book.new.lines ≡ book.old.lines
        ++ (message_line s.number no_place ++ closed_line s.number)) }
    ensures rounds { IfOk result (λ next. next ≡ Rounds) }
    ensures journal { book.new.journal ≡ book.old.journal }
{
    put_no_place(alloc, s, book)?;
    Ok(Then::Rounds)
}

/// A client that has sent the first message of its session.
fn client_of(setting: Setting, s: SessionId, cut: Cut) -> Result<Client, StepFault>
    ensures s { IfOk result (λ client. client.place.seat.s ≡ s) }
    ensures core { IfOk result (λ client. machine_in client.place.seat.core ≡
        new_machine s (policy_in setting.entry.config.now)) }
    ensures at_rest { (layout : Layout) → IfOk result (λ client.
        standing_of layout client.place ≡ new_standing s layout) }
    ensures fresh { IfOk result (λ client. (view : View) × IsFresh s.number view
        × (hearer_of client.place.seat ≡ joined view)) }
{
    let mut place = Place::new(setting.alloc, s, policy_of(setting.config))?;
    match feed(&mut place.seat.wire, cut, &START) {
        Ok(()) => Ok(Client {
            place,
            rests: false,
        }),
        Err(fault) => {
            drop(place);
            Err(StepFault::from(fault))
        }
    }
}

/// Does what is asked of a session, but for steps; where it is not connected, that is told.
pub(crate) fn address(
    alloc: Global,
    s: SessionId,
    wish: Wish,
    cut: Cut,
    seats: &mut Seats,
    book: &mut Book,
) -> Result<Then, StepFault>
    requires { CanBeSent wish }
    ensures machines { (policy : ReadPolicy) → machines_of policy seats.new.slots.items
        ≡ machines_of policy seats.old.slots.items }
    ensures standings { (layout : Layout) → standings_of layout seats.new.slots.items
        ≡ standings_of layout seats.old.slots.items }
    ensures journal { book.new.journal ≡ book.old.journal }
    ensures addresses { OnOk result (Addresses s.number wish.entry
        (hearers_of seats.old.slots.items) book.old.lines (hearers_of seats.new.slots.items)
        book.new.lines) }
    ensures rounds { goes_on wish.entry ≡ true → IfOk result (λ next. next ≡ Rounds) }
{
    let place = place_of(s);
    let is_there = grant(alloc, &mut seats.slots[place], wish, cut)?;
    tell_gone(alloc, s, is_there, book)?;
    Ok(then_of(s, wish))
}

/// Tells that a session is not connected, where it is not.
fn tell_gone(alloc: Global, s: SessionId, is_there: bool, book: &mut Book) -> Result<(), NoMemory>
    ensures lines { OnOk result (book.new.lines ≡ (if is_there then book.old.lines
        else book.old.lines ++ word_line s.number (codes "gone"))) }
    ensures journal { book.new.journal ≡ book.old.journal }
{
    if is_there {
        return Ok(());
    }
    book.say_of(alloc, s, "gone")
}

/// Does what is asked of a session, but for steps. The answer: whether it is connected.
fn grant(alloc: Global, slot: &mut Slot, wish: Wish, cut: Cut) -> Result<bool, NoMemory>
    requires { CanBeSent wish }
    ensures hears { IfOk result (λ there. IsGranted wish.entry slot.old there slot.new) }
    ensures placed { (before : ℕ) → IsPlaced before slot.old → IsPlaced before slot.new }
    ensures machine { (policy : ReadPolicy) → (s : SessionId) → machine_in_slot policy s slot.new
        ≡ machine_in_slot policy s slot.old }
    ensures standing { (layout : Layout) → (s : SessionId) → standing_in_slot layout s slot.new
        ≡ standing_in_slot layout s slot.old }
{
    match slot {
        Slot::Free => Ok(false),
        Slot::Taken(client) => {
            grant_client(alloc, client, wish, cut)?;
            Ok(true)
        }
    }
}

fn grant_client(alloc: Global, client: &mut Client, wish: Wish, cut: Cut) -> Result<(), NoMemory>
    requires { CanBeSent wish }
    ensures hears { OnOk result (hearer_of client.new.place.seat
        ≡ wished wish.entry (hearer_of client.old.place.seat)) }
    ensures s { client.new.place.seat.s ≡ client.old.place.seat.s }
    ensures core { client.new.place.seat.core ≡ client.old.place.seat.core }
    ensures standing { (layout : Layout) → standing_of layout client.new.place
        ≡ standing_of layout client.old.place }
{
    match wish {
        Wish::Hold => {
            client.place.seat.turn = Turn::Held;
            Ok(())
        }
        Wish::Go => {
            client.place.seat.turn = Turn::Free;
            Ok(())
        }
        Wish::Until(_) => {
            client.place.seat.turn = Turn::Held;
            Ok(())
        }
        Wish::Send(line) => send(alloc, client, line, cut),
    }
}

/// The client of a session sends what a line says.
fn send(alloc: Global, client: &mut Client, line: &ScriptLine, cut: Cut) -> Result<(), NoMemory>
    requires { IsOfGrammar (line_of line.now) }
    ensures hears { OnOk result (shown client.new.place.seat.wire
        ≡ with_piece (shown client.old.place.seat.wire) (sent_of (line_of line.now))) }
    ensures over { client.new.place.seat.over ≡ client.old.place.seat.over }
    ensures turn { client.new.place.seat.turn ≡ client.old.place.seat.turn }
    ensures s { client.new.place.seat.s ≡ client.old.place.seat.s }
    ensures core { client.new.place.seat.core ≡ client.old.place.seat.core }
    ensures standing { (layout : Layout) → standing_of layout client.new.place
        ≡ standing_of layout client.old.place }
{
    let bytes = sent_of(alloc, line)?;
    client.rests = false;
    feed(&mut client.place.seat.wire, cut, bytes.as_slice())
}

/// What is played behind a line that asks this of a session, whether it is connected or not.
fn then_of(s: SessionId, wish: Wish) -> Then
    ensures { goes_on wish.entry ≡ true → result ≡ Rounds }
{
    match wish {
        Wish::Hold => Then::Nothing,
        Wish::Until(mark) => Then::Alone(s, mark),
        Wish::Go | Wish::Send(_) => Then::Rounds,
    }
}

/// A backend is lost, where the configuration has it.
pub(crate) fn lose<B: Backend>(
    setting: Setting,
    b: BackendId,
    world: &mut World<B>,
    book: &mut Book,
) -> Result<Then, StepFault>
    ensures loses { (machines : SessionId → Machine) → (recoveries : SessionId → Standing)
        → (hearers : ℕ → Maybe Hearer) → (moment : ℤ) → (nodes : Sequence Node)
        → OnOk result ((happenings : Sequence Happening) × LosesOne setting.entry.tables.now moment
        nodes world.old.count b
        (board (state (shared_of B.meaning world.old.gate.state world.old.tables world.old.count
        world.old.shelf.items) machines recoveries) hearers book.old.journal book.old.lines)
        happenings
        (board (state (shared_of B.meaning world.new.gate.state world.new.tables world.new.count
        world.new.shelf.items) machines recoveries) hearers book.new.journal book.new.lines)) }
    ensures rounds { IfOk result (λ next. next ≡ Rounds) }
    ensures tables { world.new.tables ≡ world.old.tables }
    ensures count { world.new.count ≡ world.old.count }
    ensures boxes { length world.new.shelf.items ≡ length world.old.shelf.items }
{
    if !world.is_configured(b) {
        tell_none(setting.alloc, b, book)?;
        return Ok(Then::Rounds);
    }
    let is_new = world.lose(b);
    note_loss(setting, b, is_new, book)?;
    Ok(Then::Rounds)
}

/// Tells that the configuration has no such backend.
fn tell_none(alloc: Global, b: BackendId, book: &mut Book) -> Result<(), NoMemory>
    ensures journal { book.new.journal ≡ book.old.journal }
    ensures lines { OnOk result (book.new.lines ≡ book.old.lines ++ none_line b.number) }
{
    let number = b.number;
    let line = format!(in alloc; "pool no {number}\n")?;
    book.say(line.as_bytes())
}
