//! One step of one session.
//!
//! ```text
//! asks      step                              event
//! Rest      the wire's next order             Order, or none: nothing to do, or closed; the order
//!                                             of a recovery is handed out
//! Gate      one call                          Gate; none where it is held: the session waits
//! Post      one post                          Post
//! WaitFor   one poll                          Act and Take, or Lost and Fault; else it waits
//! Detach    one call                          Detach
//! Reply     the outcome goes to the wire      Reply
//! End       the session ends                  End; and behind that it is closed
//! ```
//!
//! An event is noted before it takes place, but for a post, which is noted behind it.
ghost use Rattle.std.specs.Prelude.{◌≡◌, ◌≢◌, ◌<◌, ◌≤◌, ◌++◌, ◌⊎◌, length, false, Some, None, IfOk, IfErr, OnOk, List, take};
ghost use Rattle.schema.specs.Grammar.{IsWithin};
ghost use Rattle.schema.specs.declared.catalogue.TableDef.{TableDef};
ghost use Rattle.pgproto.specs.declared.line.Mark.TheVariants as marks;
ghost use Rattle.session_machine.specs.Allowed.{MayHappen, TakesOrder};
ghost use Rattle.session_machine.specs.Rules.{new_machine, next_action, status_byte};
ghost use Rattle.session_machine.specs.declared.action.Action.TheVariants as actions;
ghost use Rattle.session_machine.specs.declared.action.SessionEvent.TheVariants as events;
ghost use Rattle.snapshot_gate.specs.Function as gates;
ghost use Rattle.session_engine.specs.declared.ask.Ask.TheVariants as asks;
ghost use Rattle.session_engine.specs.Cores.{machine_in};
ghost use Rattle.session_engine.specs.Handing.{IsPost, IsReply, asked_of};
ghost use Rattle.session_wire.specs.Answers.{MayAnswer};
ghost use Rattle.session_wire.specs.Shown.{shown};
ghost use Rattle.session_seat.specs.Policy.{policy_in};
ghost use Rattle.session_seat.specs.Told.{added, told_of};
ghost use Rattle.session_seat.specs.Shared.{IsReady, Serves, Shared, shared_of, stores_of};
ghost use Rattle.session_seat.specs.Schedule.{led};
ghost use Rattle.session_seat.specs.Steps.{IsDid, IsOutside, IsStep, at};
ghost use Rattle.session_seat.specs.Dues.{IsDue, Rests, called, ordered_step, recovery_in};
ghost use Rattle.session_seat.specs.Stops.{IsFull, IsGarbled, MayPostAt, Stops, StopsAtPost, StopsAtReply, StopsAtRest, StopsOrdered, StopsTelling, world_view};
ghost use Rattle.session_seat.specs.Speech.{Hears, IsOrdered, IsQuietStep, IsWritten, Speaks, closed_line, speech};
ghost use Rattle.session_seat.specs.declared.fault.StepFault.TheVariants.{Stopped};
ghost use Rattle.session_seat.specs.declared.step.Step.TheVariants as steps;

use crate::book::Book;
use crate::calls::mark_of;
use crate::fault::StepFault;
use crate::policy::policy_of;
use crate::ready::is_ready;
use crate::replies::put_output;
use crate::seat::Seat;
use crate::setting::Setting;
use crate::start::{is_new, is_outside};
use crate::talk::{detach, hear};
use crate::world::World;
use backend_trait::{Backend, Request};
use journal::Event;
use pgproto::Mark;
use pool_base::{BackendId, GateAnswer, GateCall, Text};
use session_engine::Ask;
use session_machine::Status;
use session_orders::{Order, OrderBody, Outcome};
use session_wire::{WireStep, may_answer};

/// What a step did.
#[derive(Clone, Copy, Drop)]
pub enum Step {
    /// An event took place, at which a session may be stopped by this mark.
    Did(Option<Mark>),
    /// The session waits: for the gate, or for a backend.
    Waits,
    /// It has nothing to do: its core rests, and its wire needs input.
    Idle,
    /// It is over, and its place is free.
    Closed,
    /// Its client has ordered a recovery. The order is handed out, and nothing has taken place.
    ///
    /// Units: microseconds since 2000-01-01 00:00 UTC.
    Recovers { moment: i64, number: u8 },
}

/// Takes one step.
pub fn take_step<B: Backend>(
    setting: Setting,
    seat: &mut Seat,
    world: &mut World<B>,
    book: &mut Book,
) -> Result<Step, StepFault>
    requires within { IsWithin setting.tables.now }
    // An event takes place where it may, and the journal tells of it; or nothing does.
    ensures noted { IfOk result (λ step. IsStep setting.entry.tables.now
        (policy_in setting.entry.config.now) seat.old.s
        (at (shared_of B.meaning world.old.gate.state world.old.tables world.old.count
        world.old.shelf.items) (machine_in seat.old.core) book.old.journal) step
        (at (shared_of B.meaning world.new.gate.state world.new.tables world.new.count
        world.new.shelf.items) (machine_in seat.new.core) book.new.journal)) }
    // And its client is told what that says: the wire is led to the order that takes place, or to
    // its need of input or its end; a reply goes to the wire; what that puts out has its lines.
    ensures speaks { IfOk result (λ step. Speaks setting.entry.tables.now setting.entry.moment
        setting.entry.config.now.nodes (policy_in setting.entry.config.now) seat.old.s
        (at (shared_of B.meaning world.old.gate.state world.old.tables world.old.count
        world.old.shelf.items) (machine_in seat.old.core) book.old.journal)
        (speech seat.old book.old.lines) step
        (at (shared_of B.meaning world.new.gate.state world.new.tables world.new.count
        world.new.shelf.items) (machine_in seat.new.core) book.new.journal)
        (speech seat.new book.new.lines)) }
    // Which step it is, by what is asked for: it waits, has nothing to do or is closed there alone.
    ensures due { IfOk result (λ step. IsDue B.meaning B.is_prompt setting.entry.tables.now
        setting.entry.moment seat.old world.old.gate.state
        (take world.old.count world.old.shelf.items) step) }
    // Where it is stopped, which test has failed.
    ensures stopped { IfErr result (λ e. e ≡ Stopped → Stops B.meaning B.is_prompt
        setting.entry.tables.now setting.entry.moment (policy_in setting.entry.config.now)
        book.old.events seat.old (world_view world.old.gate.state world.old.tables world.old.count
        world.old.shelf.items world.old.rolls setting.entry.config.now.nodes)) }
    // An event is counted, so that a run of steps ends.
    ensures did { IfOk result (λ step. IsDid step → book.old.events < book.new.events) }
    ensures events { book.old.events ≤ book.new.events }
    ensures s { seat.new.s ≡ seat.old.s }
    ensures turn { seat.new.turn ≡ seat.old.turn }
    ensures tables { world.new.tables ≡ world.old.tables }
    ensures count { world.new.count ≡ world.old.count }
    ensures boxes { length world.new.shelf.items ≡ length world.old.shelf.items }
{
    if seat.over {
        return close(setting, seat, book);
    }
    match seat.core.asks() {
        Ask::Rest => take_order(setting, seat, book),
        Ask::Gate(call) => call_gate(setting, seat, call, world, book),
        Ask::Post(b) => post(setting, seat, b, world, book),
        Ask::WaitFor(b) => hear(setting, seat, b, world, book),
        Ask::Detach(b) => detach(setting, seat, b, world, book),
        Ask::Reply => reply(setting, seat, book),
        Ask::End => end(setting, seat, book),
    }
}

/// Closes a session that has ended, or has taken no order. Its number has the machine of a start.
fn close(setting: Setting, seat: &Seat, book: &mut Book) -> Result<Step, StepFault>
    ensures noted { (shared : Shared) → IfOk result (λ step. IsStep setting.entry.tables.now
        (policy_in setting.entry.config.now) seat.now.s
        (at shared (machine_in seat.now.core) book.old.journal) step
        (at shared (machine_in seat.now.core) book.new.journal)) }
    ensures events { book.new.events ≡ book.old.events }
    ensures none { IfOk result (λ step. IsDid step → ⊥) }
    ensures closed { IfOk result (λ step. step ≡ steps.Closed) }
    ensures lines { OnOk result (book.new.lines ≡ book.old.lines ++ closed_line seat.now.s.number) }
    ensures stopped { IfErr result (λ e. e ≡ Stopped → machine_in seat.now.core
        ≢ new_machine seat.now.s (policy_in setting.entry.config.now)) }
{
    let policy = policy_of(setting.config);
    if !is_new(&seat.core, seat.s, &policy) {
        return Err(StepFault::Stopped);
    }
    book.say_of(setting.alloc, seat.s, "closed")?;
    Ok(Step::Closed)
}

/// Asks the wire for its client's next order.
fn take_order(setting: Setting, seat: &mut Seat, book: &mut Book) -> Result<Step, StepFault>
    requires within { IsWithin setting.tables.now }
    ensures did { IfOk result (λ step. IsDid step → book.old.events < book.new.events) }
    ensures events { book.old.events ≤ book.new.events }
    ensures s { seat.new.s ≡ seat.old.s }
    ensures turn { seat.new.turn ≡ seat.old.turn }
    ensures speaks { seat.old.over ≡ false → (shared : Shared) → IfOk result (λ step. Speaks
        setting.entry.tables.now setting.entry.moment setting.entry.config.now.nodes
        (policy_in setting.entry.config.now) seat.old.s
        (at shared (machine_in seat.old.core) book.old.journal) (speech seat.old book.old.lines)
        step (at shared (machine_in seat.new.core) book.new.journal)
        (speech seat.new book.new.lines)) }
    ensures due { IfOk result (λ step. Rests setting.entry.tables.now setting.entry.moment
        (shown seat.old.wire) step) }
    ensures stopped { IfErr result (λ e. e ≡ Stopped → IsFull book.old.events
        ⊎ StopsAtRest setting.entry.tables.now setting.entry.moment
        (policy_in setting.entry.config.now) seat.old.s (machine_in seat.old.core)
        (shown seat.old.wire)) }
{
    match seat.wire.next(setting.tables, setting.moment)? {
        WireStep::NeedInput => {
            put_output(setting.alloc, seat.s, &mut seat.wire, book)?;
            Ok(Step::Idle)
        }
        WireStep::NeedOutcome => Err(StepFault::Stopped),
        WireStep::Close { .. } => {
            put_output(setting.alloc, seat.s, &mut seat.wire, book)?;
            close(setting, seat, book)
        }
        WireStep::Order(order) => obey(setting, seat, order, book),
    }
}

/// Takes an order. That of a recovery is handed out.
fn obey(setting: Setting, seat: &mut Seat, order: Order, book: &mut Book) -> Result<Step, StepFault>
    ensures did { IfOk result (λ step. IsDid step → book.old.events < book.new.events) }
    ensures events { book.old.events ≤ book.new.events }
    ensures s { seat.new.s ≡ seat.old.s }
    ensures turn { seat.new.turn ≡ seat.old.turn }
    ensures ordered { (shared : Shared) → IfOk result (λ step. IsOrdered setting.entry.tables.now
        seat.old.s order (at shared (machine_in seat.old.core) book.old.journal) step
        (at shared (machine_in seat.new.core) book.new.journal)) }
    ensures written { OnOk result (IsWritten seat.old.s.number (shown seat.old.wire)
        (shown seat.new.wire) book.old.lines book.new.lines) }
    ensures over { seat.new.over ≡ seat.old.over }
    ensures due { IfOk result (λ step. step
        ≡ ordered_step order.moment (recovery_in order.body)) }
    ensures stopped { IfErr result (λ e. e ≡ Stopped → IsFull book.old.events
        ⊎ (IsGarbled (shown seat.old.wire).output
        ⊎ StopsOrdered setting.entry.tables.now (machine_in seat.old.core) order.body
        (recovery_in order.body))) }
{
    match recovery_in(&order.body) {
        Some(number) => {
            let moment = order.moment;
            drop(order);
            hand_out(setting, seat, book)?;
            Ok(Step::Recovers { moment, number })
        }
        None => accept(setting, seat, order, book),
    }
}

/// The backend of the number that is to be brought in, where that is ordered.
fn recovery_in(body: &OrderBody) -> Option<u8>
    ensures { result ≡ recovery_in body.now }
{
    match body {
        OrderBody::Recover(number) => Some(*number),
        OrderBody::Statement(_)
        | OrderBody::Begin
        | OrderBody::Commit
        | OrderBody::Rollback
        | OrderBody::Settle
        | OrderBody::ShowNodes
        | OrderBody::Refuse { .. }
        | OrderBody::Leave => None,
    }
}

/// Hands out the order of a recovery, behind what the wire has put out before.
fn hand_out(setting: Setting, seat: &mut Seat, book: &mut Book) -> Result<(), StepFault>
    ensures outside { OnOk result (IsOutside (machine_in seat.old.core)) }
    ensures written { OnOk result (IsWritten seat.old.s.number (shown seat.old.wire)
        (shown seat.new.wire) book.old.lines book.new.lines) }
    ensures over { seat.new.over ≡ seat.old.over }
    ensures core { seat.new.core ≡ seat.old.core }
    ensures s { seat.new.s ≡ seat.old.s }
    ensures turn { seat.new.turn ≡ seat.old.turn }
    ensures journal { book.new.journal ≡ book.old.journal }
    ensures events { book.new.events ≡ book.old.events }
    ensures stopped { IfErr result (λ e. e ≡ Stopped → IsGarbled (shown seat.old.wire).output
        ⊎ (IsOutside (machine_in seat.old.core) → ⊥)) }
{
    put_output(setting.alloc, seat.s, &mut seat.wire, book)?;
    if !is_outside(&seat.core) {
        return Err(StepFault::Stopped);
    }
    Ok(())
}

/// Takes an order that is none of a recovery.
fn accept(
    setting: Setting,
    seat: &mut Seat,
    order: Order,
    book: &mut Book,
) -> Result<Step, StepFault>
    ensures did { IfOk result (λ step. IsDid step → book.old.events < book.new.events) }
    ensures events { book.old.events ≤ book.new.events }
    ensures s { seat.new.s ≡ seat.old.s }
    ensures turn { seat.new.turn ≡ seat.old.turn }
    ensures ordered { (shared : Shared) → IfOk result (λ step. IsOrdered setting.entry.tables.now
        seat.old.s order (at shared (machine_in seat.old.core) book.old.journal) step
        (at shared (machine_in seat.new.core) book.new.journal)) }
    ensures written { OnOk result (IsWritten seat.old.s.number (shown seat.old.wire)
        (shown seat.new.wire) book.old.lines book.new.lines) }
    ensures over { seat.new.over ≡ seat.old.over }
    ensures due { IfOk result (λ step. step ≡ steps.Did (Some marks.Order)) }
    ensures stopped { IfErr result (λ e. e ≡ Stopped → IsFull book.old.events
        ⊎ (IsGarbled (shown seat.old.wire).output
        ⊎ ((TakesOrder (machine_in seat.old.core) order.body → ⊥)
        ⊎ (IsReady setting.entry.tables.now order.body → ⊥)))) }
{
    if let Err(fault) = note_order(setting, seat, &order, book) {
        drop(order);
        return Err(fault);
    }
    seat.core.order(order)?;
    Ok(Step::Did(Some(Mark::Order)))
}

/// Notes an order that the core takes and that can be run, behind what the wire has put out before.
fn note_order(
    setting: Setting,
    seat: &mut Seat,
    order: &Order,
    book: &mut Book,
) -> Result<(), StepFault>
    ensures written { OnOk result (IsWritten seat.old.s.number (shown seat.old.wire)
        (shown seat.new.wire) book.old.lines book.new.lines) }
    ensures over { seat.new.over ≡ seat.old.over }
    ensures may { OnOk result (MayHappen (machine_in seat.new.core) (events.Ordered order.now)) }
    ensures ready { OnOk result (IsReady setting.entry.tables.now order.now.body) }
    ensures line { OnOk result (book.new.journal ≡ added book.old.journal (told_of
        setting.entry.tables.now seat.old.s (events.Ordered order.now))) }
    ensures did { OnOk result (book.old.events < book.new.events) }
    ensures events { book.old.events ≤ book.new.events }
    ensures core { seat.new.core ≡ seat.old.core }
    ensures s { seat.new.s ≡ seat.old.s }
    ensures turn { seat.new.turn ≡ seat.old.turn }
    ensures stopped { IfErr result (λ e. e ≡ Stopped → IsFull book.old.events
        ⊎ (IsGarbled (shown seat.old.wire).output
        ⊎ ((TakesOrder (machine_in seat.old.core) order.now.body → ⊥)
        ⊎ (IsReady setting.entry.tables.now order.now.body → ⊥)))) }
{
    let s = seat.s;
    put_output(setting.alloc, s, &mut seat.wire, book)?;
    if !seat.core.may_order(&order.body) {
        return Err(StepFault::Stopped);
    }
    if !is_ready(setting.tables, &order.body) {
        return Err(StepFault::Stopped);
    }
    book.note(setting, Event::Order { s, order })
}

/// Makes one call of the gate. Where it is held, it is made again in a later round.
fn call_gate<B: Backend>(
    setting: Setting,
    seat: &mut Seat,
    call: GateCall,
    world: &mut World<B>,
    book: &mut Book,
) -> Result<Step, StepFault>
    requires asked { asked_of (next_action (machine_in seat.old.core)) ≡ asks.Gate call }
    ensures did { IfOk result (λ step. IsDid step → book.old.events < book.new.events) }
    ensures events { book.old.events ≤ book.new.events }
    ensures s { seat.new.s ≡ seat.old.s }
    ensures turn { seat.new.turn ≡ seat.old.turn }
    ensures tables { world.new.tables ≡ world.old.tables }
    ensures count { world.new.count ≡ world.old.count }
    ensures boxes { length world.new.shelf.items ≡ length world.old.shelf.items }
    ensures quiet { IfOk result (λ step. IsQuietStep setting.entry.tables.now seat.old.s
        (at (shared_of B.meaning world.old.gate.state world.old.tables world.old.count
        world.old.shelf.items) (machine_in seat.old.core) book.old.journal) step
        (at (shared_of B.meaning world.new.gate.state world.new.tables world.new.count
        world.new.shelf.items) (machine_in seat.new.core) book.new.journal)) }
    ensures wire { seat.new.wire ≡ seat.old.wire }
    ensures over { seat.new.over ≡ seat.old.over }
    ensures lines { book.new.lines ≡ book.old.lines }
    ensures due { IfOk result (λ step. step
        ≡ called call (gates.step world.old.gate.state call).1) }
    ensures stopped { IfErr result (λ e. e ≡ Stopped → IsFull book.old.events
        ⊎ (gates.MayCall world.old.gate.state call → ⊥)) }
{
    let s = seat.s;
    let answer = world.call(call)?;
    if let GateAnswer::Held(_) = answer {
        return Ok(Step::Waits);
    }
    book.note(setting, Event::Gate { s, call, answer })?;
    seat.core.gate_answer(answer);
    Ok(Step::Did(mark_of(call, answer)))
}

/// Posts the request that is due.
fn post<B: Backend>(
    setting: Setting,
    seat: &mut Seat,
    b: BackendId,
    world: &mut World<B>,
    book: &mut Book,
) -> Result<Step, StepFault>
    requires due { IsPost (next_action (machine_in seat.old.core)) }
    requires asked { asked_of (next_action (machine_in seat.old.core)) ≡ asks.Post b }
    ensures did { IfOk result (λ step. IsDid step → book.old.events < book.new.events) }
    ensures events { book.old.events ≤ book.new.events }
    ensures s { seat.new.s ≡ seat.old.s }
    ensures turn { seat.new.turn ≡ seat.old.turn }
    ensures tables { world.new.tables ≡ world.old.tables }
    ensures count { world.new.count ≡ world.old.count }
    ensures boxes { length world.new.shelf.items ≡ length world.old.shelf.items }
    ensures quiet { IfOk result (λ step. IsQuietStep setting.entry.tables.now seat.old.s
        (at (shared_of B.meaning world.old.gate.state world.old.tables world.old.count
        world.old.shelf.items) (machine_in seat.old.core) book.old.journal) step
        (at (shared_of B.meaning world.new.gate.state world.new.tables world.new.count
        world.new.shelf.items) (machine_in seat.new.core) book.new.journal)) }
    ensures wire { seat.new.wire ≡ seat.old.wire }
    ensures over { seat.new.over ≡ seat.old.over }
    ensures lines { book.new.lines ≡ book.old.lines }
    ensures due { IfOk result (λ step. step ≡ steps.Did (Some (marks.Post b))) }
    ensures stopped { IfErr result (λ e. e ≡ Stopped → IsFull book.old.events
        ⊎ StopsAtPost world.old.tables world.old.count world.old.rolls (machine_in seat.old.core)
        seat.old.s.number b.number) }
{
    let s = seat.s;
    let request = seat.core.request()?;
    let event = Event::Post {
        s,
        b,
        request: &request,
    };
    match book.spelled(setting, event) {
        Err(fault) => {
            drop(request);
            Err(StepFault::from(fault))
        }
        Ok(line) => send(seat, b, request, &line, world, book),
    }
}

/// Posts a request, and puts its line into the journal.
fn send<B: Backend>(
    seat: &mut Seat,
    b: BackendId,
    request: Request,
    line: &Text,
    world: &mut World<B>,
    book: &mut Book,
) -> Result<Step, StepFault>
    requires due { IsPost (next_action (machine_in seat.old.core)) }
    ensures is { IfOk result IsDid }
    ensures leads { OnOk result (machine_in seat.new.core ≡
        led (machine_in seat.old.core) (events.Posted b request)) }
    ensures line { OnOk result (book.new.journal ≡ added book.old.journal line.now) }
    ensures did { OnOk result (book.old.events < book.new.events) }
    ensures gate { world.new.gate ≡ world.old.gate }
    ensures serves { (tables : List TableDef) → OnOk result (Serves tables
        (stores_of B.meaning world.old.tables world.old.count world.old.shelf.items)
        seat.old.s.number (events.Posted b request)
        (stores_of B.meaning world.new.tables world.new.count world.new.shelf.items)) }
    ensures events { book.old.events ≤ book.new.events }
    ensures s { seat.new.s ≡ seat.old.s }
    ensures turn { seat.new.turn ≡ seat.old.turn }
    ensures tables { world.new.tables ≡ world.old.tables }
    ensures count { world.new.count ≡ world.old.count }
    ensures boxes { length world.new.shelf.items ≡ length world.old.shelf.items }
    ensures wire { seat.new.wire ≡ seat.old.wire }
    ensures over { seat.new.over ≡ seat.old.over }
    ensures lines { book.new.lines ≡ book.old.lines }
    ensures due { IfOk result (λ step. step ≡ steps.Did (Some (marks.Post b))) }
    ensures stopped { IfErr result (λ e. e ≡ Stopped → IsFull book.old.events
        ⊎ (MayPostAt world.old.tables world.old.count world.old.rolls seat.old.s.number b.number
        request → ⊥)) }
{
    world.post(seat.s, b, request)?;
    book.keep(line)?;
    seat.core.posted();
    Ok(Step::Did(Some(Mark::Post(b))))
}

/// Tells the client what became of its order.
fn reply(setting: Setting, seat: &mut Seat, book: &mut Book) -> Result<Step, StepFault>
    requires due { IsReply (next_action (machine_in seat.old.core)) }
    ensures did { IfOk result (λ step. IsDid step → book.old.events < book.new.events) }
    ensures events { book.old.events ≤ book.new.events }
    ensures s { seat.new.s ≡ seat.old.s }
    ensures turn { seat.new.turn ≡ seat.old.turn }
    ensures speaks { (shared : Shared) → IfOk result (λ step. Speaks
        setting.entry.tables.now setting.entry.moment setting.entry.config.now.nodes
        (policy_in setting.entry.config.now) seat.old.s
        (at shared (machine_in seat.old.core) book.old.journal) (speech seat.old book.old.lines)
        step (at shared (machine_in seat.new.core) book.new.journal)
        (speech seat.new book.new.lines)) }
    ensures due { IfOk result (λ step. step ≡ steps.Did (Some marks.Reply)) }
    ensures stopped { IfErr result (λ e. e ≡ Stopped → IsFull book.old.events
        ⊎ StopsAtReply setting.entry.config.now.nodes (machine_in seat.old.core)
        (shown seat.old.wire)) }
{
    let (outcome, status) = seat.core.reply();
    tell(setting, seat, outcome, status, book)?;
    Ok(Step::Did(Some(Mark::Reply)))
}

/// Tells an outcome to the client, and the status behind it.
pub fn tell(
    setting: Setting,
    seat: &mut Seat,
    outcome: Outcome,
    status: Status,
    book: &mut Book,
) -> Result<(), StepFault>
    // The wire hears it, and what that puts out has its lines.
    ensures hears { OnOk result (Hears setting.entry.config.now.nodes seat.old.s.number
        (speech seat.old book.old.lines) outcome (status_byte status)
        (speech seat.new book.new.lines)) }
    ensures line { OnOk result (book.new.journal ≡ added book.old.journal (told_of
        setting.entry.tables.now seat.old.s (events.Replied outcome status))) }
    ensures did { OnOk result (book.old.events < book.new.events) }
    ensures events { book.old.events ≤ book.new.events }
    ensures core { seat.new.core ≡ seat.old.core }
    ensures s { seat.new.s ≡ seat.old.s }
    ensures turn { seat.new.turn ≡ seat.old.turn }
    ensures stopped { IfErr result (λ e. e ≡ Stopped → IsFull book.old.events
        ⊎ StopsTelling setting.entry.config.now.nodes outcome status (shown seat.old.wire)) }
{
    let s = seat.s;
    if let Err(fault) = note_reply(setting, seat, &outcome, status, book) {
        drop(outcome);
        return Err(fault);
    }
    seat.wire.answer(setting.config, outcome, status.byte())?;
    put_output(setting.alloc, s, &mut seat.wire, book)
}

/// Notes an outcome that the wire can tell.
fn note_reply(
    setting: Setting,
    seat: &Seat,
    outcome: &Outcome,
    status: Status,
    book: &mut Book,
) -> Result<(), StepFault>
    ensures may { OnOk result (MayAnswer outcome.now) }
    ensures lines { book.new.lines ≡ book.old.lines }
    ensures line { OnOk result (book.new.journal ≡ added book.old.journal (told_of
        setting.entry.tables.now seat.now.s (events.Replied outcome.now status))) }
    ensures did { OnOk result (book.old.events < book.new.events) }
    ensures events { book.old.events ≤ book.new.events }
    ensures stopped { IfErr result (λ e. e ≡ Stopped → IsFull book.old.events
        ⊎ (MayAnswer outcome.now → ⊥)) }
{
    if !may_answer(outcome) {
        return Err(StepFault::Stopped);
    }
    book.note(
        setting,
        Event::Reply {
            s: seat.s,
            status,
            outcome,
        },
    )
}

/// Ends the session.
fn end(setting: Setting, seat: &mut Seat, book: &mut Book) -> Result<Step, StepFault>
    requires due { next_action (machine_in seat.old.core) ≡ actions.End }
    ensures did { IfOk result (λ step. IsDid step → book.old.events < book.new.events) }
    ensures events { book.old.events ≤ book.new.events }
    ensures s { seat.new.s ≡ seat.old.s }
    ensures turn { seat.new.turn ≡ seat.old.turn }
    ensures speaks { (shared : Shared) → IfOk result (λ step. Speaks
        setting.entry.tables.now setting.entry.moment setting.entry.config.now.nodes
        (policy_in setting.entry.config.now) seat.old.s
        (at shared (machine_in seat.old.core) book.old.journal) (speech seat.old book.old.lines)
        step (at shared (machine_in seat.new.core) book.new.journal)
        (speech seat.new book.new.lines)) }
    ensures due { IfOk result (λ step. step ≡ steps.Did None) }
    ensures stopped { IfErr result (λ e. e ≡ Stopped → IsFull book.old.events) }
{
    book.note(setting, Event::End { s: seat.s })?;
    seat.core.end();
    seat.over = true;
    Ok(Step::Did(None))
}
