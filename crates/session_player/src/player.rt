//! A script, played part by part: one for each line, and one for the end.
ghost use Rattle.std.specs.Prelude.{◌≡◌, ◌≤◌, ℕ, List as Sequence, Option as Maybe, true, length, map, OnOk, OnErr, IfOk, IfErr};
ghost use Rattle.std.specs.List.{AllByRecursion};
ghost use Rattle.pgproto.specs.Line.{line_of};
ghost use Rattle.pgproto.specs.Spelling.{IsOfGrammar};
ghost use Rattle.pool_base.specs.Outside.{Rose};
ghost use Rattle.pool_config.specs.Configuration.{IsAllowed};
ghost use Rattle.schema.specs.Allowed.{AreAllowed};
ghost use Rattle.schema.specs.Ranges.{AreInRange};
ghost use Rattle.pool_base.specs.declared.session_id.SessionId.{SessionId};
ghost use Rattle.session_machine.specs.declared.machine.ReadPolicy.{ReadPolicy};
ghost use Rattle.session_seat.specs.Policy.{policy_in};
ghost use Rattle.session_seat.specs.Shared.{shared_of};
ghost use Rattle.session_player.specs.declared.fault.PlayFault.TheVariants as faults;
ghost use Rattle.online_recovery.specs.declared.layout.Layout.{Layout};
ghost use Rattle.recovery_seat.specs.Places.{IsLayout};
ghost use Rattle.session_player.specs.Journals.{IsPut, IsShort, machine_in_slot, machines_of, standing_in_slot, standings_of};
ghost use Rattle.session_player.specs.Slots.{ArePlaced, IsPlaced};
ghost use Rattle.session_player.specs.Times.{IsMomentRead};
ghost use Rattle.session_player.specs.Deeds.{IsDeedOf};
ghost use Rattle.session_player.specs.declared.connecting.Then.TheVariants.{Rounds};
ghost use Rattle.session_player.specs.declared.deed.Deed.{Deed as Doing};
ghost use Rattle.session_player.specs.Speaking.{Board, Happening, hearer_in, hearers_of};
ghost use Rattle.session_player.specs.Stillness.{goes_round};
ghost use Rattle.session_player.specs.Transcript.{AreTold, Does, IsEnd, IsTold, IsTranscript, Part, Sets, input_ended, scene_of};
ghost use Rattle.session_player.specs.BrokenOff.{AreTellingOn, HasEndFront, HasPartFront, IsBrokenOff};
ghost use Rattle.session_player.specs.Written.{ArePlayed, AreParts, Grew, IsPart};

use crate::connecting::{Then, address, connect, lose};
use crate::deed::{Deed, deed_of};
use crate::fault::PlayFault;
use crate::feeding::Cut;
use crate::round::{go_until, rounds};
use crate::slots::{Seats, Slot};
use crate::writing::{is_short, put_echo, put_journal, put_told};
use backend_trait::Backend;
use pg_values::{ColType, Value, ValueFault, from_text};
use pgproto::ScriptLine;
use pool_base::{BackendSet, Sink};
use session_seat::{Book, Journal, Setting, StepFault, Turn, World};
use std::alloc::Global;

/// Where a play stands between two lines.
#[derive(Drop)]
struct Scene {
    seats: Seats,
    cut: Cut,
    /// Units: microseconds since 2000-01-01 00:00 UTC.
    moment: i64,
    book: Book,
}

/// Plays a script over the backends of a world: its transcript goes to `out`, and behind it the
/// journal, where one is kept. The answer: the backends that are attached at the end.
pub fn play<B: Backend, O: Sink>(
    setting: Setting,
    script: &[ScriptLine],
    world: &mut World<B>,
    journal: Journal,
    out: &mut O,
) -> Result<BackendSet, PlayFault>
    requires grammar { AllByRecursion IsOfGrammar (map line_of script.now) }
    requires allowed { AreAllowed setting.tables.now }
    requires in_range { AreInRange setting.tables.now }
    requires tables { world.old.tables ≡ setting.tables.now }
    requires config { IsAllowed setting.config.now }
    // For each line its echo was written, and behind it what is told.
    ensures all { OnOk result (ArePlayed (map line_of script.now) (O.taken out.old)
        (O.taken out.new)) }
    // Behind each echo stands what is told of a schedule, which leads from the gate and the stores
    // as they stood, and no client connected, to the gate and the stores as they stand. Each
    // client is told what its wire puts out, led to its orders by what the lines have sent, and by
    // the replies; and each detachment, attachment and closing. A part ends only where no session
    // can go on. A journal that is kept stands behind all, and tells this very schedule.
    ensures transcript { (layout : Layout) → IsLayout setting.entry.config.now
        setting.entry.tables.now layout → OnOk result (IsTranscript setting.entry.config.now
        setting.entry.tables.now layout world.old.count (map line_of script.now)
        setting.entry.moment journal
        (shared_of B.meaning world.old.gate.state world.old.tables world.old.count
        world.old.shelf.items)
        (shared_of B.meaning world.new.gate.state world.new.tables world.new.count
        world.new.shelf.items) (O.taken out.old) (O.taken out.new)) }
    // Where it is broken off, a front of such a transcript was written: the parts of the first
    // lines, and a front of the next; or all parts, and a front of the end.
    ensures front { (layout : Layout) → IsLayout setting.entry.config.now setting.entry.tables.now
        layout → OnErr result (IsBrokenOff setting.entry.config.now setting.entry.tables.now layout
        world.old.count (map line_of script.now) setting.entry.moment journal
        (shared_of B.meaning world.old.gate.state world.old.tables world.old.count
        world.old.shelf.items) (O.taken out.old) (O.taken out.new)) }
    ensures attached { IfOk result (λ set. set ≡ world.new.gate.state.attached) }
    // What was taken begins with what had been taken, whatever the answer.
    ensures grows { Grew (O.taken out.old) (O.taken out.new) }
    ensures tables { world.new.tables ≡ world.old.tables }
    ensures count { world.new.count ≡ world.old.count }
    ensures boxes { length world.new.shelf.items ≡ length world.old.shelf.items }

    // The sink's fault comes only where its count rose.
    ensures sink { IfErr result (λ e. e ≡ faults.SinkFailed
        → Rose (O.fault_count out.old) (O.fault_count out.new)) }
    ensures later { O.fault_count out.old ≤ O.fault_count out.new }
{
    let mut scene = Scene {
        seats: Seats::new(setting.alloc)?,
        cut: Cut::Whole,
        moment: setting.moment,
        book: Book::new(setting.alloc, journal),
    };
    play_lines(setting, script, &mut scene, world, out)?;
    play_end(setting, &mut scene, world, out)?;
    Ok(world.attached())
}

/// Plays the parts of the lines.
fn play_lines<B: Backend, O: Sink>(
    setting: Setting,
    script: &[ScriptLine],
    scene: &mut Scene,
    world: &mut World<B>,
    out: &mut O,
) -> Result<(), PlayFault>
    requires grammar { AllByRecursion IsOfGrammar (map line_of script.now) }
    requires allowed { AreAllowed setting.tables.now }
    requires in_range { AreInRange setting.tables.now }
    requires tables { world.old.tables ≡ setting.tables.now }
    ensures parts { OnOk result (AreParts (map line_of script.now) (O.taken out.old)
        (O.taken out.new)) }
    ensures told { (layout : Layout) → IsLayout setting.entry.config.now setting.entry.tables.now
        layout → OnOk result ((happenings : Sequence Happening) × AreTold
        setting.entry.tables.now setting.entry.config.now.nodes
        setting.entry.config.now.children world.old.count (map line_of script.now)
        (scene_of (policy_in setting.entry.config.now) layout (shared_of B.meaning
        world.old.gate.state world.old.tables world.old.count world.old.shelf.items)
        scene.old.moment scene.old.seats.slots.items scene.old.book) (O.taken out.old) happenings
        (scene_of (policy_in setting.entry.config.now) layout (shared_of B.meaning
        world.new.gate.state world.new.tables world.new.count world.new.shelf.items)
        scene.new.moment scene.new.seats.slots.items scene.new.book) (O.taken out.new)) }
    ensures front { (layout : Layout) → IsLayout setting.entry.config.now setting.entry.tables.now
        layout → OnErr result (AreTellingOn setting.entry.tables.now
        setting.entry.config.now.nodes setting.entry.config.now.children world.old.count
        (map line_of script.now)
        (scene_of (policy_in setting.entry.config.now) layout (shared_of B.meaning
        world.old.gate.state world.old.tables world.old.count world.old.shelf.items)
        scene.old.moment scene.old.seats.slots.items scene.old.book) (O.taken out.old)
        (O.taken out.new)) }
    ensures grows { Grew (O.taken out.old) (O.taken out.new) }
    ensures tables { world.new.tables ≡ world.old.tables }
    ensures count { world.new.count ≡ world.old.count }
    ensures boxes { length world.new.shelf.items ≡ length world.old.shelf.items }
    ensures sink { IfErr result (λ e. e ≡ faults.SinkFailed
        → Rose (O.fault_count out.old) (O.fault_count out.new)) }
    ensures later { O.fault_count out.old ≤ O.fault_count out.new }
{
    for line in script {
        play_part(setting, line, scene, world, out)?;
    }
    Ok(())
}

/// Plays the part of a line: its echo, what it does, and the rounds behind it.
fn play_part<B: Backend, O: Sink>(
    setting: Setting,
    line: &ScriptLine,
    scene: &mut Scene,
    world: &mut World<B>,
    out: &mut O,
) -> Result<(), PlayFault>
    requires grammar { IsOfGrammar (line_of line.now) }
    requires allowed { AreAllowed setting.tables.now }
    requires in_range { AreInRange setting.tables.now }
    requires tables { world.old.tables ≡ setting.tables.now }
    ensures part { OnOk result (IsPart (line_of line.now) (O.taken out.old) (O.taken out.new)) }
    ensures told { (layout : Layout) → IsLayout setting.entry.config.now setting.entry.tables.now
        layout → OnOk result ((happenings : Sequence Happening) × IsTold
        setting.entry.tables.now setting.entry.config.now.nodes
        setting.entry.config.now.children world.old.count (line_of line.now)
        (scene_of (policy_in setting.entry.config.now) layout (shared_of B.meaning
        world.old.gate.state world.old.tables world.old.count world.old.shelf.items)
        scene.old.moment scene.old.seats.slots.items scene.old.book) (O.taken out.old) happenings
        (scene_of (policy_in setting.entry.config.now) layout (shared_of B.meaning
        world.new.gate.state world.new.tables world.new.count world.new.shelf.items)
        scene.new.moment scene.new.seats.slots.items scene.new.book) (O.taken out.new)) }
    ensures front { (layout : Layout) → IsLayout setting.entry.config.now setting.entry.tables.now
        layout → OnErr result (HasPartFront setting.entry.tables.now
        setting.entry.config.now.nodes setting.entry.config.now.children world.old.count
        (line_of line.now)
        (scene_of (policy_in setting.entry.config.now) layout (shared_of B.meaning
        world.old.gate.state world.old.tables world.old.count world.old.shelf.items)
        scene.old.moment scene.old.seats.slots.items scene.old.book) (O.taken out.old)
        (O.taken out.new)) }
    ensures grows { Grew (O.taken out.old) (O.taken out.new) }
    ensures tables { world.new.tables ≡ world.old.tables }
    ensures count { world.new.count ≡ world.old.count }
    ensures boxes { length world.new.shelf.items ≡ length world.old.shelf.items }
    ensures sink { IfErr result (λ e. e ≡ faults.SinkFailed
        → Rose (O.fault_count out.old) (O.fault_count out.new)) }
    ensures later { O.fault_count out.old ≤ O.fault_count out.new }
{
    put_echo(setting.alloc, line, out)?;
    play_line(setting, line, scene, world)?;
    put_told(&mut scene.book, out)
}

/// What a step reads, at that moment.
fn at_moment(setting: Setting, moment: i64) -> Setting
    ensures moment { result.moment ≡ moment }
    ensures tables { result.tables.now ≡ setting.entry.tables.now }
    ensures config { result.config.now ≡ setting.entry.config.now }
{
    Setting {
        alloc: setting.alloc,
        tables: setting.tables,
        config: setting.config,
        moment,
    }
}

/// What a line does, and the rounds behind it.
fn play_line<B: Backend>(
    setting: Setting,
    line: &ScriptLine,
    scene: &mut Scene,
    world: &mut World<B>,
) -> Result<(), StepFault>
    requires grammar { IsOfGrammar (line_of line.now) }
    requires allowed { AreAllowed setting.tables.now }
    requires in_range { AreInRange setting.tables.now }
    requires tables { world.old.tables ≡ setting.tables.now }
    ensures part { (layout : Layout) → IsLayout setting.entry.config.now setting.entry.tables.now
        layout → OnOk result ((happenings : Sequence Happening) × Part
        setting.entry.tables.now setting.entry.config.now.nodes
        setting.entry.config.now.children world.old.count (line_of line.now)
        (scene_of (policy_in setting.entry.config.now) layout (shared_of B.meaning
        world.old.gate.state world.old.tables world.old.count world.old.shelf.items)
        scene.old.moment scene.old.seats.slots.items scene.old.book) happenings
        (scene_of (policy_in setting.entry.config.now) layout (shared_of B.meaning
        world.new.gate.state world.new.tables world.new.count world.new.shelf.items)
        scene.new.moment scene.new.seats.slots.items scene.new.book)) }
    ensures tables { world.new.tables ≡ world.old.tables }
    ensures count { world.new.count ≡ world.old.count }
    ensures boxes { length world.new.shelf.items ≡ length world.old.shelf.items }
{
    let then = do_line(setting, line, scene, world)?;
    let setting = at_moment(setting, scene.moment);
    match then {
        Then::Nothing => Ok(()),
        Then::Rounds => rounds(setting, &mut scene.seats, world, &mut scene.book),
        Then::Alone(s, mark) => {
            go_until(setting, s, mark, &mut scene.seats, world, &mut scene.book)
        }
    }
}

/// Does what a line asks, before the rounds behind it.
fn do_line<B: Backend>(
    setting: Setting,
    line: &ScriptLine,
    scene: &mut Scene,
    world: &mut World<B>,
) -> Result<Then, StepFault>
    requires { IsOfGrammar (line_of line.now) }
    ensures does { (layout : Layout) → IsLayout setting.entry.config.now setting.entry.tables.now
        layout → OnOk result ((deed : Doing) × IsDeedOf (line_of line.now) deed
        × (happenings : Sequence Happening) × Does setting.entry.tables.now
        setting.entry.config.now.nodes setting.entry.config.now.children world.old.count deed
        (scene_of (policy_in setting.entry.config.now) layout (shared_of B.meaning
        world.old.gate.state world.old.tables world.old.count world.old.shelf.items)
        scene.old.moment scene.old.seats.slots.items scene.old.book) happenings
        (scene_of (policy_in setting.entry.config.now) layout (shared_of B.meaning
        world.new.gate.state world.new.tables world.new.count world.new.shelf.items)
        scene.new.moment scene.new.seats.slots.items scene.new.book)) }
    ensures rounds { goes_round (line_of line.now) ≡ true → IfOk result (λ next. next ≡ Rounds) }
    ensures tables { world.new.tables ≡ world.old.tables }
    ensures count { world.new.count ≡ world.old.count }
    ensures boxes { length world.new.shelf.items ≡ length world.old.shelf.items }
{
    match deed_of(line) {
        Deed::Connect(s) => connect(setting, s, scene.cut, &mut scene.seats, &mut scene.book),
        Deed::Lose(b) => lose(setting, b, world, &mut scene.book),
        Deed::Cut(size) => {
            scene.cut = Cut::Pieces(size as usize);
            Ok(Then::Rounds)
        }
        Deed::SetMoment(text) => {
            scene.moment = moment_behind(setting.alloc, text, scene.moment);
            Ok(Then::Rounds)
        }
        Deed::Of(s, wish) => {
            address(
                setting.alloc,
                s,
                wish,
                scene.cut,
                &mut scene.seats,
                &mut scene.book,
            )
        }
    }
}

/// What the clock shows behind a line that sets this moment.
fn moment_behind(alloc: Global, text: &[u8], moment: i64) -> i64
    ensures { Sets text.now moment result }
{
    match moment_of(alloc, text) {
        Some(other) => other,
        None => moment,
    }
}

/// The moment of a text, if it is a text form of one.
fn moment_of(alloc: Global, text: &[u8]) -> Option<i64>
    ensures { IsMomentRead text.now result }
{
    match from_text(alloc, ColType::Moment, text) {
        Ok(Value::Moment(micros)) => Some(micros),
        Ok(_) => None,
        Err(ValueFault::Bad(_)) => None,
        // Memory is refused for a text alone.
        Err(ValueFault::NoMemory) => unreachable!(),
    }
}

/// Plays the end: all sessions are let go, the input of each ends, and rounds are made. Behind it
/// stands the journal.
fn play_end<B: Backend, O: Sink>(
    setting: Setting,
    scene: &mut Scene,
    world: &mut World<B>,
    out: &mut O,
) -> Result<(), PlayFault>
    requires allowed { AreAllowed setting.tables.now }
    requires in_range { AreInRange setting.tables.now }
    requires tables { world.old.tables ≡ setting.tables.now }
    requires config { IsAllowed setting.config.now }
    ensures ends { (layout : Layout) → IsLayout setting.entry.config.now setting.entry.tables.now
        layout → OnOk result ((happenings : Sequence Happening) × (last : Board)
        × (told : Maybe (Sequence ℕ)) × IsEnd setting.entry.tables.now
        setting.entry.config.now.nodes (scene_of (policy_in setting.entry.config.now) layout
        (shared_of B.meaning
        world.old.gate.state world.old.tables world.old.count world.old.shelf.items)
        scene.old.moment scene.old.seats.slots.items scene.old.book)
        (O.taken out.old) happenings last told × IsPut setting.entry.config.now
        setting.entry.tables.now last.journal told (O.taken out.new) × IsShort last.journal
        × (last.state.shared ≡ shared_of B.meaning world.new.gate.state world.new.tables
        world.new.count world.new.shelf.items)) }
    ensures front { (layout : Layout) → IsLayout setting.entry.config.now setting.entry.tables.now
        layout → OnErr result (HasEndFront setting.entry.config.now setting.entry.tables.now
        (scene_of (policy_in setting.entry.config.now) layout (shared_of B.meaning
        world.old.gate.state world.old.tables world.old.count world.old.shelf.items)
        scene.old.moment scene.old.seats.slots.items scene.old.book) (O.taken out.old)
        (O.taken out.new)) }
    ensures grows { Grew (O.taken out.old) (O.taken out.new) }
    ensures tables { world.new.tables ≡ world.old.tables }
    ensures count { world.new.count ≡ world.old.count }
    ensures boxes { length world.new.shelf.items ≡ length world.old.shelf.items }
    ensures sink { IfErr result (λ e. e ≡ faults.SinkFailed
        → Rose (O.fault_count out.old) (O.fault_count out.new)) }
    ensures later { O.fault_count out.old ≤ O.fault_count out.new }
{
    end_all(&mut scene.seats);
    let last = at_moment(setting, scene.moment);
    rounds(last, &mut scene.seats, world, &mut scene.book)?;
    put_told(&mut scene.book, out)?;
    is_short(&scene.book.journal);
    put_journal(setting, &scene.book, out)
}

/// All sessions are let go, and the input of each ends.
fn end_all(seats: &mut Seats)
    ensures machines { (policy : ReadPolicy) → machines_of policy seats.new.slots.items
        ≡ machines_of policy seats.old.slots.items }
    ensures standings { (layout : Layout) → standings_of layout seats.new.slots.items
        ≡ standings_of layout seats.old.slots.items }
    ensures hearers { (n : ℕ) → hearers_of seats.new.slots.items n
        ≡ input_ended (hearers_of seats.old.slots.items n) }
{
    end_each(seats.slots.as_mut_slice());
}

fn end_each(slots: &mut [Slot])
    requires { ArePlaced 0 slots.old }
    ensures placed { ArePlaced 0 slots.new }
    ensures machines { (policy : ReadPolicy) → machines_of policy slots.new
        ≡ machines_of policy slots.old }
    ensures standings { (layout : Layout) → standings_of layout slots.new
        ≡ standings_of layout slots.old }
    ensures hearers { (n : ℕ) → hearers_of slots.new n ≡ input_ended (hearers_of slots.old n) }
{
    for slot in slots.iter_mut() {
        end_input(slot);
    }
}

fn end_input(slot: &mut Slot)
    ensures placed { (before : ℕ) → IsPlaced before slot.old → IsPlaced before slot.new }
    ensures machine { (policy : ReadPolicy) → (s : SessionId) → machine_in_slot policy s slot.new
        ≡ machine_in_slot policy s slot.old }
    ensures standing { (layout : Layout) → (s : SessionId) → standing_in_slot layout s slot.new
        ≡ standing_in_slot layout s slot.old }
    ensures hearer { hearer_in slot.new ≡ input_ended (hearer_in slot.old) }
{
    match slot {
        Slot::Free => {}
        Slot::Taken(client) => {
            client.rests = false;
            client.place.seat.turn = Turn::Free;
            client.place.seat.wire.end_input();
        }
    }
}
