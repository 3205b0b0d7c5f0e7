//! The end of a recovery: its reply, or that there is no spare.
ghost use Rattle.std.specs.Prelude.{◌≡◌, ◌<◌, ◌≤◌, ℕ, length, IfOk, IfSome};
ghost use Rattle.session_machine.specs.declared.action.SessionEvent.TheVariants as events;
ghost use Rattle.session_engine.specs.Cores.{machine_in};
ghost use Rattle.online_recovery.specs.declared.layout.Layout.{Layout};
ghost use Rattle.online_recovery.specs.Allowed.{MayHappen};
ghost use Rattle.online_recovery.specs.Asking.{standing_in};
ghost use Rattle.online_recovery.specs.Rules.{after};
ghost use Rattle.online_recovery.specs.State.{new_standing};
ghost use Rattle.session_seat.specs.Shared.{shared_of};
ghost use Rattle.session_seat.specs.Steps.{IsDid};
ghost use Rattle.recovery_seat.specs.Places.{IsLayout, standing_of};
ghost use Rattle.session_seat.specs.Speech.{speech};
ghost use Rattle.recovery_seat.specs.Speech.{SpeaksOn};
ghost use Rattle.recovery_seat.specs.Steps.{GoesOn, at};

use crate::layout::is_own;
use crate::place::Place;
use backend_trait::Backend;
use online_recovery::{Recovery, RecoveryAsk};
use pgproto::Mark;
use pool_base::GateCall;
use session_machine::Status;
use session_orders::Outcome;
use session_seat::{Book, Setting, Step, StepFault, World, tell};
use std::alloc::Global;
use std::mem;

/// Tells the client what became of its recovery. A spare that no Swap has taken is given back.
pub(crate) fn end<B: Backend>(
    setting: Setting,
    place: &mut Place,
    world: &mut World<B>,
    book: &mut Book,
) -> Result<Step, StepFault>
    ensures noted { (layout : Layout) → (others : ℕ) → IsLayout setting.entry.config.now
        setting.entry.tables.now layout → IfOk result (λ step. GoesOn
        setting.entry.tables.now place.old.seat.s others
        (at (shared_of B.meaning world.old.gate.state world.old.tables world.old.count
        world.old.shelf.items) (machine_in place.old.seat.core) (standing_of layout place.old)
        book.old.journal) step
        (at (shared_of B.meaning world.new.gate.state world.new.tables world.new.count
        world.new.shelf.items) (machine_in place.new.seat.core) (standing_of layout place.new)
        book.new.journal)) }
    ensures speaks { (layout : Layout) → (others : ℕ) → IsLayout setting.entry.config.now
        setting.entry.tables.now layout → IfOk result (λ step. SpeaksOn
        setting.entry.tables.now setting.entry.moment setting.entry.config.now.nodes
        place.old.seat.s others
        (at (shared_of B.meaning world.old.gate.state world.old.tables world.old.count
        world.old.shelf.items) (machine_in place.old.seat.core) (standing_of layout place.old)
        book.old.journal) (speech place.old.seat book.old.lines) step
        (at (shared_of B.meaning world.new.gate.state world.new.tables world.new.count
        world.new.shelf.items) (machine_in place.new.seat.core) (standing_of layout place.new)
        book.new.journal) (speech place.new.seat book.new.lines)) }
    ensures did { IfOk result (λ step. IsDid step → book.old.events < book.new.events) }
    ensures events { book.old.events ≤ book.new.events }
    ensures s { place.new.seat.s ≡ place.old.seat.s }
    ensures turn { place.new.seat.turn ≡ place.old.seat.turn }
    ensures tables { world.new.tables ≡ world.old.tables }
    ensures count { world.new.count ≡ world.old.count }
    ensures boxes { length world.new.shelf.items ≡ length world.old.shelf.items }
{
    let Some((outcome, status)) = last_outcome(setting, place) else {
        return Err(StepFault::Stopped);
    };
    tell(setting, &mut place.seat, outcome, status, book)?;
    drop(mem::replace(&mut place.recovery, None));
    give_back(&mut place.spare, world);
    Ok(Step::Did(Some(Mark::Reply)))
}

/// Gives a spare back that no Swap has taken.
fn give_back<B: Backend>(spare: &mut Option<usize>, world: &mut World<B>)
    ensures shared { shared_of B.meaning world.new.gate.state world.new.tables world.new.count
        world.new.shelf.items ≡ shared_of B.meaning world.old.gate.state world.old.tables
        world.old.count world.old.shelf.items }
    ensures tables { world.new.tables ≡ world.old.tables }
    ensures count { world.new.count ≡ world.old.count }
    ensures boxes { length world.new.shelf.items ≡ length world.old.shelf.items }
{
    if let Some(at) = spare.take() {
        world.give_back(at);
    }
}

/// The reply to the client, where the recovery of a place is to end.
fn last_outcome(setting: Setting, place: &mut Place) -> Option<(Outcome, Status)>
    ensures may { (layout : Layout) → IfSome result (λ told. MayHappen
        (standing_of layout place.old) (events.Replied told.0 told.1)) }
    ensures rest { (layout : Layout) → IsLayout setting.entry.config.now setting.entry.tables.now
        layout → IfSome result (λ told. new_standing place.old.seat.s layout
        ≡ after (standing_of layout place.old) (events.Replied told.0 told.1)) }
    ensures seat { place.new.seat ≡ place.old.seat }
{
    let s = place.seat.s;
    match &mut place.recovery {
        None => None,
        Some(recovery) => {
            if is_own(recovery, s, setting) {
                replied(recovery, setting.alloc)
            } else {
                None
            }
        }
    }
}

/// The reply to the client, where a recovery is to end. It has been given.
fn replied(recovery: &mut Recovery, alloc: Global) -> Option<(Outcome, Status)>
    ensures { IfSome result (λ told. MayHappen (standing_in recovery.old)
        (events.Replied told.0 told.1)) }
{
    match recovery.asks() {
        RecoveryAsk::Reply => Some(recovery.reply(alloc)),
        RecoveryAsk::Gate(GateCall::StartCopy) => Some(recovery.no_spare(alloc)),
        _ => None,
    }
}
