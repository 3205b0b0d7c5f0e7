//! One step of one session, whose client may have ordered a recovery.
//!
//! ```text
//! a session without a recovery    a step of the session; at its order of one the recovery begins
//!
//! the recovery asks               step                                event
//! Gate      one call              Gate; none where it is held and tried again: it waits
//! Swap      the spare box comes   Swap; none where another is due to post there or waits
//! Post      one post              Post
//! WaitFor   one poll              Act and Take, or Lost and Fault; else it waits
//! Detach    one call              Detach
//! Reply     it goes to the wire   Reply; behind it the session has no recovery
//! ```
//!
//! Where the copy is due to start and there is no spare box, the reply that says so comes
//! in its place. An event is noted before it takes place.
ghost use Rattle.std.specs.Prelude.{◌≡◌, ◌<◌, ◌≤◌, ℕ, None, length, take, IfOk, OnOk};
ghost use Rattle.schema.specs.Allowed.{AreAllowed};
ghost use Rattle.schema.specs.Ranges.{AreInRange};
ghost use Rattle.session_engine.specs.Cores.{machine_in};
ghost use Rattle.online_recovery.specs.declared.layout.Layout.{Layout};
ghost use Rattle.online_recovery.specs.declared.action.RecoveryAction.TheVariants.{Rest};
ghost use Rattle.online_recovery.specs.Asking.{standing_in};
ghost use Rattle.online_recovery.specs.Rules.{next_action};
ghost use Rattle.session_seat.specs.Policy.{policy_in};
ghost use Rattle.session_seat.specs.Shared.{shared_of};
ghost use Rattle.session_seat.specs.Steps.{IsDid};
ghost use Rattle.recovery_seat.specs.declared.step.Pace.TheVariants.{Ends, Own};
ghost use Rattle.recovery_seat.specs.Dues.{IsOwn};
ghost use Rattle.recovery_seat.specs.Places.{IsLayout, standing_of};
ghost use Rattle.session_seat.specs.Speech.{Speech, speech};
ghost use Rattle.recovery_seat.specs.Speech.{Speaks, SpeaksOn};
ghost use Rattle.recovery_seat.specs.Steps.{GoesOn, IsStep, at};

use crate::calling::{call_gate, detach};
use crate::ending::end;
use crate::hearing::hear;
use crate::ordering::begin;
use crate::place::Place;
use crate::posting::post;
use crate::swapping::swap;
use backend_trait::Backend;
use online_recovery::{Recovery, RecoveryAsk};
use pool_base::{BackendSet, GateCall};
use session_seat::{Book, Seat, Setting, Step, StepFault, World};

/// How a place's next step is taken.
#[derive(Clone, Copy)]
enum Pace {
    /// As of its session: no recovery is under way.
    Own,
    /// Its recovery ends: the reply is due, or the copy is due to start and there is no spare.
    Ends,
    /// Its recovery goes on.
    GoesOn,
}

/// Takes one step. `others` are the backends to which another session, or its recovery, is due to
/// post a request or whose answer it waits for.
pub fn take_step<B: Backend>(
    setting: Setting,
    place: &mut Place,
    others: BackendSet,
    world: &mut World<B>,
    book: &mut Book,
) -> Result<Step, StepFault>
    requires in_range { AreInRange setting.tables.now }
    requires allowed { AreAllowed setting.tables.now }
    requires tables { world.old.tables ≡ setting.tables.now }
    // An event takes place where it may, and the journal tells of it; or nothing does.
    ensures noted { (layout : Layout) → IsLayout setting.entry.config.now setting.entry.tables.now
        layout → IfOk result (λ step. IsStep setting.entry.tables.now
        (policy_in setting.entry.config.now) layout place.old.seat.s others.bits
        (at (shared_of B.meaning world.old.gate.state world.old.tables world.old.count
        world.old.shelf.items) (machine_in place.old.seat.core) (standing_of layout place.old)
        book.old.journal) step
        (at (shared_of B.meaning world.new.gate.state world.new.tables world.new.count
        world.new.shelf.items) (machine_in place.new.seat.core) (standing_of layout place.new)
        book.new.journal)) }
    // And its client is told what that says.
    ensures speaks { (layout : Layout) → IsLayout setting.entry.config.now setting.entry.tables.now
        layout → IfOk result (λ step. Speaks setting.entry.tables.now setting.entry.moment
        setting.entry.config.now.nodes (policy_in setting.entry.config.now) layout place.old.seat.s
        others.bits (at (shared_of B.meaning world.old.gate.state world.old.tables world.old.count
        world.old.shelf.items) (machine_in place.old.seat.core) (standing_of layout place.old)
        book.old.journal) (speech place.old.seat book.old.lines) step
        (at (shared_of B.meaning world.new.gate.state world.new.tables world.new.count
        world.new.shelf.items) (machine_in place.new.seat.core) (standing_of layout place.new)
        book.new.journal) (speech place.new.seat book.new.lines)) }
    // Which step it is, of a session that has no recovery under way.
    ensures due { (layout : Layout) → next_action (standing_of layout place.old) ≡ Rest
        → IfOk result (λ step. IsOwn B.meaning B.is_prompt setting.entry.tables.now
        setting.entry.moment place.old.seat world.old.gate.state
        (take world.old.count world.old.shelf.items) step) }
    // An event is counted, so that a run of steps ends.
    ensures did { IfOk result (λ step. IsDid step → book.old.events < book.new.events) }
    ensures events { book.old.events ≤ book.new.events }
    ensures s { place.new.seat.s ≡ place.old.seat.s }
    ensures turn { place.new.seat.turn ≡ place.old.seat.turn }
    ensures tables { world.new.tables ≡ world.old.tables }
    ensures count { world.new.count ≡ world.old.count }
    ensures boxes { length world.new.shelf.items ≡ length world.old.shelf.items }
{
    match pace_of(place) {
        Pace::Own => take_own(setting, place, world, book),
        Pace::Ends => end(setting, place, world, book),
        Pace::GoesOn => go_on(setting, place, others, world, book),
    }
}

/// How a recovery of a place is to go on.
fn pace_of(place: &Place) -> Pace
    ensures own { result ≡ Own → place.now.recovery ≡ None }
    ensures none { place.now.recovery ≡ None → result ≡ Own }
    ensures busy { result ≡ Ends → (layout : Layout)
        → next_action (standing_of layout place.now) ≡ Rest → ⊥ }
{
    let Some(recovery) = &place.recovery else {
        return Pace::Own;
    };
    match recovery.asks() {
        RecoveryAsk::Reply => Pace::Ends,
        RecoveryAsk::Gate(GateCall::StartCopy) if place.spare.is_none() => Pace::Ends,
        _ => Pace::GoesOn,
    }
}

/// A step of a session that has ordered no recovery, or orders one now.
#[tactic(auto, using(crate::proofs::LayoutLemmas::within_of))]
fn take_own<B: Backend>(
    setting: Setting,
    place: &mut Place,
    world: &mut World<B>,
    book: &mut Book,
) -> Result<Step, StepFault>
    requires allowed { AreAllowed setting.tables.now }
    requires none { place.old.recovery ≡ None }
    ensures noted { (layout : Layout) → (others : ℕ) → IsLayout setting.entry.config.now
        setting.entry.tables.now layout → IfOk result (λ step. IsStep setting.entry.tables.now
        (policy_in setting.entry.config.now) layout place.old.seat.s others
        (at (shared_of B.meaning world.old.gate.state world.old.tables world.old.count
        world.old.shelf.items) (machine_in place.old.seat.core) (standing_of layout place.old)
        book.old.journal) step
        (at (shared_of B.meaning world.new.gate.state world.new.tables world.new.count
        world.new.shelf.items) (machine_in place.new.seat.core) (standing_of layout place.new)
        book.new.journal)) }
    ensures speaks { (layout : Layout) → (others : ℕ) → IsLayout setting.entry.config.now
        setting.entry.tables.now layout → IfOk result (λ step. Speaks setting.entry.tables.now
        setting.entry.moment setting.entry.config.now.nodes (policy_in setting.entry.config.now)
        layout place.old.seat.s others
        (at (shared_of B.meaning world.old.gate.state world.old.tables world.old.count
        world.old.shelf.items) (machine_in place.old.seat.core) (standing_of layout place.old)
        book.old.journal) (speech place.old.seat book.old.lines) step
        (at (shared_of B.meaning world.new.gate.state world.new.tables world.new.count
        world.new.shelf.items) (machine_in place.new.seat.core) (standing_of layout place.new)
        book.new.journal) (speech place.new.seat book.new.lines)) }
    ensures due { IfOk result (λ step. IsOwn B.meaning B.is_prompt
        setting.entry.tables.now setting.entry.moment place.old.seat world.old.gate.state
        (take world.old.count world.old.shelf.items) step) }
    ensures did { IfOk result (λ step. IsDid step → book.old.events < book.new.events) }
    ensures events { book.old.events ≤ book.new.events }
    ensures s { place.new.seat.s ≡ place.old.seat.s }
    ensures turn { place.new.seat.turn ≡ place.old.seat.turn }
    ensures tables { world.new.tables ≡ world.old.tables }
    ensures count { world.new.count ≡ world.old.count }
    ensures boxes { length world.new.shelf.items ≡ length world.old.shelf.items }
{
    match session_seat::take_step(setting, &mut place.seat, world, book)? {
        Step::Recovers { moment, number } => begin(setting, place, moment, number, world, book),
        step => Ok(step),
    }
}

/// A step of a recovery that is under way and not at its end.
fn go_on<B: Backend>(
    setting: Setting,
    place: &mut Place,
    others: BackendSet,
    world: &mut World<B>,
    book: &mut Book,
) -> Result<Step, StepFault>
    requires in_range { AreInRange setting.tables.now }
    requires allowed { AreAllowed setting.tables.now }
    requires tables { world.old.tables ≡ setting.tables.now }
    ensures noted { (layout : Layout) → IfOk result (λ step. GoesOn
        setting.entry.tables.now place.old.seat.s others.bits
        (at (shared_of B.meaning world.old.gate.state world.old.tables world.old.count
        world.old.shelf.items) (machine_in place.old.seat.core) (standing_of layout place.old)
        book.old.journal) step
        (at (shared_of B.meaning world.new.gate.state world.new.tables world.new.count
        world.new.shelf.items) (machine_in place.new.seat.core) (standing_of layout place.new)
        book.new.journal)) }
    ensures speaks { (layout : Layout) → (was : Speech) → was.lines ≡ book.old.lines
        → IfOk result (λ step. SpeaksOn setting.entry.tables.now setting.entry.moment
        setting.entry.config.now.nodes place.old.seat.s others.bits
        (at (shared_of B.meaning world.old.gate.state world.old.tables world.old.count
        world.old.shelf.items) (machine_in place.old.seat.core) (standing_of layout place.old)
        book.old.journal) was step
        (at (shared_of B.meaning world.new.gate.state world.new.tables world.new.count
        world.new.shelf.items) (machine_in place.new.seat.core) (standing_of layout place.new)
        book.new.journal) (record was { lines = book.new.lines })) }
    ensures busy { (layout : Layout) → next_action (standing_of layout place.old) ≡ Rest
        → OnOk result ⊥ }
    ensures wire { place.new.seat.wire ≡ place.old.seat.wire }
    ensures over { place.new.seat.over ≡ place.old.seat.over }
    ensures did { IfOk result (λ step. IsDid step → book.old.events < book.new.events) }
    ensures events { book.old.events ≤ book.new.events }
    ensures s { place.new.seat.s ≡ place.old.seat.s }
    ensures turn { place.new.seat.turn ≡ place.old.seat.turn }
    ensures tables { world.new.tables ≡ world.old.tables }
    ensures count { world.new.count ≡ world.old.count }
    ensures boxes { length world.new.shelf.items ≡ length world.old.shelf.items }
{
    let Some(recovery) = &mut place.recovery else {
        return Err(StepFault::Stopped);
    };
    advance(
        setting,
        &place.seat,
        recovery,
        &mut place.spare,
        others,
        world,
        book,
    )
}

/// What a recovery asks for is done.
fn advance<B: Backend>(
    setting: Setting,
    seat: &Seat,
    recovery: &mut Recovery,
    spare: &mut Option<usize>,
    others: BackendSet,
    world: &mut World<B>,
    book: &mut Book,
) -> Result<Step, StepFault>
    requires in_range { AreInRange setting.tables.now }
    requires allowed { AreAllowed setting.tables.now }
    requires tables { world.old.tables ≡ setting.tables.now }
    ensures noted { IfOk result (λ step. GoesOn setting.entry.tables.now seat.now.s others.bits
        (at (shared_of B.meaning world.old.gate.state world.old.tables world.old.count
        world.old.shelf.items) (machine_in seat.now.core) (standing_in recovery.old)
        book.old.journal) step
        (at (shared_of B.meaning world.new.gate.state world.new.tables world.new.count
        world.new.shelf.items) (machine_in seat.now.core) (standing_in recovery.new)
        book.new.journal)) }
    ensures speaks { (was : Speech) → was.lines ≡ book.old.lines → IfOk result (λ step. SpeaksOn
        setting.entry.tables.now setting.entry.moment setting.entry.config.now.nodes seat.now.s
        others.bits (at (shared_of B.meaning world.old.gate.state world.old.tables world.old.count
        world.old.shelf.items) (machine_in seat.now.core) (standing_in recovery.old)
        book.old.journal) was step
        (at (shared_of B.meaning world.new.gate.state world.new.tables world.new.count
        world.new.shelf.items) (machine_in seat.now.core) (standing_in recovery.new)
        book.new.journal) (record was { lines = book.new.lines })) }
    ensures busy { next_action (standing_in recovery.old) ≡ Rest → OnOk result ⊥ }
    ensures did { IfOk result (λ step. IsDid step → book.old.events < book.new.events) }
    ensures events { book.old.events ≤ book.new.events }
    ensures tables { world.new.tables ≡ world.old.tables }
    ensures count { world.new.count ≡ world.old.count }
    ensures boxes { length world.new.shelf.items ≡ length world.old.shelf.items }
{
    let s = seat.s;
    match recovery.asks() {
        RecoveryAsk::Gate(call) => call_gate(setting, s, recovery, call, world, book),
        RecoveryAsk::Swap(b) => swap(setting, seat, recovery, spare, b, others, world, book),
        RecoveryAsk::Post(b) => post(setting, s, recovery, b, world, book),
        RecoveryAsk::WaitFor(b) => hear(setting, s, recovery, b, world, book),
        RecoveryAsk::Detach(b) => detach(setting, s, recovery, b, world, book),
        RecoveryAsk::Rest | RecoveryAsk::Reply | RecoveryAsk::End => Err(StepFault::Stopped),
    }
}
