//! The order of a recovery.
ghost use Rattle.std.specs.Prelude.{◌≡◌, ◌<◌, ◌≤◌, ℕ, None, Some, length, IfOk, OnOk};
ghost use Rattle.schema.specs.Allowed.{AreAllowed};
ghost use Rattle.pgproto.specs.declared.line.Mark.TheVariants as marks;
ghost use Rattle.session_orders.specs.declared.order.OrderBody.TheVariants as orders;
ghost use Rattle.session_machine.specs.declared.action.SessionEvent.TheVariants as events;
ghost use Rattle.session_engine.specs.Cores.{machine_in};
ghost use Rattle.online_recovery.specs.declared.layout.Layout.{Layout};
ghost use Rattle.session_seat.specs.Shared.{shared_of};
ghost use Rattle.session_seat.specs.Steps.{IsDid, IsOutside};
ghost use Rattle.session_seat.specs.declared.step.Step.TheVariants as steps;
ghost use Rattle.session_seat.specs.Told.{added, told_of};
ghost use Rattle.session_seat.specs.Speech.{recovering};
ghost use Rattle.recovery_seat.specs.Speech.{DidAs};
ghost use Rattle.recovery_seat.specs.Places.{IsLayout, standing_of};
ghost use Rattle.recovery_seat.specs.Steps.{GoesOn, at};

use crate::layout::layout_in;
use crate::place::Place;
use backend_trait::Backend;
use journal::Event;
use online_recovery::Recovery;
use pgproto::Mark;
use pool_base::SessionId;
use session_orders::{Order, OrderBody};
use session_seat::{Book, Setting, Step, StepFault, World};
use std::mem;

/// Begins the recovery that a client has ordered, with a spare box where the shelf has one.
pub(crate) fn begin<B: Backend>(
    setting: Setting,
    place: &mut Place,
    moment: i64,
    number: u8,
    world: &mut World<B>,
    book: &mut Book,
) -> Result<Step, StepFault>
    requires allowed { AreAllowed setting.tables.now }
    requires none { place.old.recovery ≡ None }
    requires outside { IsOutside (machine_in place.old.seat.core) }
    ensures noted { (layout : Layout) → (others : ℕ) → IsLayout setting.entry.config.now
        setting.entry.tables.now layout → IfOk result (λ step. GoesOn
        setting.entry.tables.now place.old.seat.s others
        (at (shared_of B.meaning world.old.gate.state world.old.tables world.old.count
        world.old.shelf.items) (machine_in place.old.seat.core) (standing_of layout place.old)
        book.old.journal) step
        (at (shared_of B.meaning world.new.gate.state world.new.tables world.new.count
        world.new.shelf.items) (machine_in place.new.seat.core) (standing_of layout place.new)
        book.new.journal)) }
    ensures ordered { (layout : Layout) → (others : ℕ) → IsLayout setting.entry.config.now
        setting.entry.tables.now layout → IfOk result (λ step. DidAs
        setting.entry.tables.now place.old.seat.s others (events.Ordered (recovering moment number))
        (at (shared_of B.meaning world.old.gate.state world.old.tables world.old.count
        world.old.shelf.items) (machine_in place.old.seat.core) (standing_of layout place.old)
        book.old.journal) step
        (at (shared_of B.meaning world.new.gate.state world.new.tables world.new.count
        world.new.shelf.items) (machine_in place.new.seat.core) (standing_of layout place.new)
        book.new.journal)) }
    ensures seat { place.new.seat ≡ place.old.seat }
    ensures still { book.new.lines ≡ book.old.lines }
    ensures due { IfOk result (λ step. step ≡ steps.Did (Some marks.Order)) }
    ensures did { IfOk result (λ step. IsDid step → book.old.events < book.new.events) }
    ensures events { book.old.events ≤ book.new.events }
    ensures s { place.new.seat.s ≡ place.old.seat.s }
    ensures turn { place.new.seat.turn ≡ place.old.seat.turn }
    ensures tables { world.new.tables ≡ world.old.tables }
    ensures count { world.new.count ≡ world.old.count }
    ensures boxes { length world.new.shelf.items ≡ length world.old.shelf.items }
{
    let s = place.seat.s;
    note_order(setting, s, moment, number, book)?;
    let layout = layout_in(setting)?;
    let mut recovery = Recovery::new(s, layout);
    recovery.start(number);
    place.spare = world.set_aside();
    drop(mem::replace(&mut place.recovery, Some(recovery)));
    Ok(Step::Did(Some(Mark::Order)))
}

/// Notes the order.
fn note_order(
    setting: Setting,
    s: SessionId,
    moment: i64,
    number: u8,
    book: &mut Book,
) -> Result<(), StepFault>
    ensures line { OnOk result (book.new.journal ≡ added book.old.journal (told_of
        setting.entry.tables.now s (events.Ordered (record {
          moment = moment;
          body = orders.Recover number;
        })))) }
    ensures still { book.new.lines ≡ book.old.lines }
    ensures did { OnOk result (book.old.events < book.new.events) }
    ensures events { book.old.events ≤ book.new.events }
{
    let order = Order {
        moment,
        body: OrderBody::Recover(number),
    };
    book.note(setting, Event::Order { s, order: &order })
}
