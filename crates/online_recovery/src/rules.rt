//! The small words of the rules.
ghost use Rattle.session_machine.specs.Rules;
ghost use Rattle.std.specs.Prelude.{◌≡◌, ◌+◌, ◌≤◌, find, length};
ghost use Rattle.session_machine.specs.Answers.{all_backends};
ghost use Rattle.online_recovery.specs.State.{is_numbered, configured, is_touched, is_copied, is_behind, copied_behind, next_table, serial_behind, next_serial, is_shown, owed_at_gate, owed, side_of};

use crate::standing::{GateStanding, Held, Owed, Quiet, Side, Task};
use pool_base::{BackendId, Code, Text};
use schema::TableDef;
use session_orders::Outcome;
use std::alloc::Global;

/// The backends, by number.
fn all_backends() -> [BackendId; 8]
    ensures { result ≡ all_backends }
{
    [
        BackendId { number: 0 },
        BackendId { number: 1 },
        BackendId { number: 2 },
        BackendId { number: 3 },
        BackendId { number: 4 },
        BackendId { number: 5 },
        BackendId { number: 6 },
        BackendId { number: 7 },
    ]
}

fn numbered(all: &[BackendId], number: u8) -> Option<BackendId>
    ensures { result ≡ find (is_numbered number) all.now }
{
    let [b, others @ ..] = all else {
        return None;
    };
    if b.number == number {
        return Some(*b);
    }
    numbered(others, number)
}

/// The configured backend of a number.
pub(crate) fn configured(nodes: u8, number: u8) -> Option<BackendId>
    ensures { result ≡ configured nodes number }
{
    if number < nodes {
        numbered(&all_backends(), number)
    } else {
        None
    }
}

/// Whether a table is one of those touched.
fn is_touched(touched: u64, table: u8) -> bool
    ensures { result ≡ is_touched touched table }
{
    table < 64 && (touched >> table) % 2 == 1
}

/// Whether a table is copied in this stage.
fn is_copied(quiet: Quiet, touched: u64, table: u8) -> bool
    ensures { result ≡ is_copied quiet touched table }
{
    match quiet {
        Quiet::Open | Quiet::Copying | Quiet::Asked => true,
        Quiet::Entered => is_touched(touched, table),
    }
}

/// Whether a table stands behind one; behind none stand all.
fn is_behind(before: Option<u8>, table: u8) -> bool
    ensures { result ≡ is_behind before table }
{
    match before {
        None => true,
        Some(before) => before < table,
    }
}

/// The first of these tables, counted from a number on, that stands behind one and is copied.
fn copied_behind(
    tables: &[TableDef],
    quiet: Quiet,
    touched: u64,
    before: Option<u8>,
    number: u8,
) -> Option<u8>
    requires { number + length tables.now ≤ 64 }
    ensures { result ≡ copied_behind quiet touched before number tables.now }
{
    let [_, others @ ..] = tables else {
        return None;
    };
    if is_behind(before, number) && is_copied(quiet, touched, number) {
        return Some(number);
    }
    copied_behind(others, quiet, touched, before, number + 1)
}

/// The next table that this stage copies.
pub(crate) fn next_table(held: &Held, before: Option<u8>) -> Option<u8>
    ensures { result ≡ next_table held.now before }
{
    copied_behind(
        held.layout.tables.tables(),
        held.quiet,
        held.touched,
        before,
        0,
    )
}

/// The first of these tables behind one that has a serial column.
fn serial_behind(tables: &[TableDef], before: Option<u8>, number: u8) -> Option<u8>
    requires { number + length tables.now ≤ 64 }
    ensures { result ≡ serial_behind before number tables.now }
{
    let [table, others @ ..] = tables else {
        return None;
    };
    if is_behind(before, number) && table.serial.is_some() {
        return Some(number);
    }
    serial_behind(others, before, number + 1)
}

/// The next table with a serial column.
pub(crate) fn next_serial(held: &Held, before: Option<u8>) -> Option<u8>
    ensures { result ≡ next_serial held.now before }
{
    serial_behind(held.layout.tables.tables(), before, 0)
}

/// Whether the last view shows a backend.
pub(crate) fn is_shown(held: &Held, b: BackendId) -> bool
    ensures { result ≡ is_shown held.now b }
{
    held.view.attached.has(b)
}

fn owed_at_gate(gate: GateStanding, quiet: Quiet) -> Owed
    ensures { result ≡ owed_at_gate gate quiet }
{
    match gate {
        GateStanding::InSnapshot => Owed::Snapshot,
        GateStanding::Live => Owed::LiveTransaction,
        GateStanding::Out => match quiet {
            Quiet::Open => Owed::Nothing,
            Quiet::Copying | Quiet::Asked | Quiet::Entered => Owed::TheQuiet,
        },
    }
}

/// What the end has to give back next.
pub(crate) fn owed(held: &Held) -> Owed
    ensures { result ≡ owed held.now }
{
    if held.at_target {
        return Owed::Transaction(Side::Target);
    }
    if held.at_source {
        return Owed::Transaction(Side::Source);
    }
    owed_at_gate(held.gate, held.quiet)
}

/// At which backend a task is.
pub(crate) fn side_of(task: &Task) -> Side
    ensures { result ≡ side_of task.now }
{
    match task {
        Task::OpeningSource | Task::Reading(_) | Task::Leaving | Task::ReadingSerial(_) => {
            Side::Source
        }
        Task::OpeningTarget
        | Task::Emptying(_, _)
        | Task::Filling(_, _, _)
        | Task::Committing
        | Task::OpeningNumbers
        | Task::LockingSerial(_, _)
        | Task::SettingSerial(_, _)
        | Task::ClosingNumbers => Side::Target,
    }
}

/// The backend of a side.
pub(crate) fn backend_at(held: &Held, side: Side) -> BackendId
    ensures { result ≡ Rattle.online_recovery.specs.State.backend_at held.now side }
{
    match side {
        Side::Source => held.source,
        Side::Target => held.target,
    }
}

/// The refusal of that code, without a name.
pub(crate) fn error_of(alloc: Global, code: Code) -> Outcome
    ensures { result ≡ Rattle.session_machine.specs.Rules.error_of code }
{
    Outcome::Error {
        code,
        name: Text::from_string(String::new(alloc)),
    }
}
