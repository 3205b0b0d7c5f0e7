//! The gate of all threads: one cell of eight words, and a pass for each caller.
ghost use Rattle.std.specs.Prelude.{◌≡◌, ◌+◌, ◌<◌, ◌≤◌, [], ◌∷◌, true, false, IfOk};
ghost use Rattle.crossbeam_utils.specs.Seq.{cell_view, IsSamePass};
ghost use Rattle.snapshot_gate.specs.Function.{first};
ghost use Rattle.shared_gate.specs.History.{MayStep, Extends, is_grant, Hears, IsAtRest, IsOut, MayMake, Made, Tells, Joined};

use crate::history::Knows;
use crate::stored::Stored;
use atomic_table::{Join, Split};
use crossbeam_utils::atomic::seq_cell;
use crossbeam_utils::atomic::seq_cell::RuledSeqCell;
use crossbeam_utils::rule::{Outcome, Protocol};
use pool_base::{BackendSet, GateAnswer, GateCall, NoMemory};
use std::alloc::Global;
use std::marker::{Brand, Model, PhantomData};
use std::sync::Wait;

type Seat = seq_cell::Pass<Stored, Knows>;

/// The rule of the gate.
pub struct Law;

impl Protocol<Stored, Knows> for Law {
    ghost use Rattle.shared_gate.specs.Rule.{Kept, unborn};

    ghost holds = { Kept };

    ghost first = { unborn };
}

/// Which call a step makes, and by which pass. Each call of a program picks it.
trait Asking {
    ghost use Rattle.std.specs.Prelude.{ℕ};
    ghost use Rattle.pool_base.specs.declared.gate_call.GateCall.{GateCall};

    ghost by: { ℕ };

    ghost call: { GateCall };
}

impl Asking for Brand {
    ghost use Rattle.pool_base.specs.declared.gate_call.GateCall.TheVariants.{Look};

    ghost by = { 0 };

    ghost call = { Look };
}

struct Opening;

impl Outcome<Stored, Knows> for Opening {
    ghost use Rattle.shared_gate.specs.Rule.{Opens};

    ghost then = { Opens };
}

struct Reading<C> {
    of: PhantomData<C>,
}

impl<C: Asking> Outcome<Stored, Knows> for Reading<C> {
    ghost use Rattle.shared_gate.specs.Rule.{Reads};

    ghost then = { Reads C.by C.call };
}

struct Making<C> {
    of: PhantomData<C>,
}

impl<C: Asking> Outcome<Stored, Knows> for Making<C> {
    ghost use Rattle.shared_gate.specs.Rule.{Makes};

    ghost then = { Makes C.by C.call };
}

struct Listening<C> {
    of: PhantomData<C>,
}

impl<C: Asking> Outcome<Stored, Knows> for Listening<C> {
    ghost use Rattle.shared_gate.specs.Rule.{Listens};

    ghost then = { Listens C.by };
}

struct Halves;

impl Split<Knows> for Halves {
    ghost use Rattle.shared_gate.specs.History.{newcomer};

    ghost left = { λ v. v };

    ghost right = { newcomer };
}

struct Both;

impl Join<Knows> for Both {
    ghost use Rattle.shared_gate.specs.Rule.{told_of, spent};

    ghost both = { told_of };

    ghost spent = { spent };
}

/// The gate of all threads. Contracts see it as its name.
#[derive(Drop)]
pub struct SharedGate {
    cell: RuledSeqCell<Stored, Knows, Law, 8>,
}

impl Model for SharedGate {
    ghost use Rattle.atomic_table.specs.Seated.{TableId};

    ghost Value = { TableId };

    ghost view = { λ g. g.cell.table.shared.table_id };
}

/// What one caller knows of the gate's history, and its own calls in it.
#[derive(Drop)]
pub struct Pass {
    seat: Seat,
}

impl Model for Pass {
    ghost use Rattle.crossbeam_utils.specs.Seq.{cell_view};
    ghost use Rattle.shared_gate.specs.History.{Known, known, IsAtRest};

    ghost Value = { Known };

    ghost view = { λ p. known p.seat.table_id p.seat.id (cell_view p.seat) };

    ghost invariant = { λ p. IsAtRest (cell_view p.seat) };
}

impl SharedGate {
    /// A gate whose history is empty, and a pass with no calls.
    pub fn new<R: Wait>(
        rt: &R,
        alloc: Global,
        attached: BackendSet,
    ) -> Result<(SharedGate, Pass), NoMemory>
        ensures gate { IfOk result (λ r. r.1.gate ≡ r.0) }
        ensures first { IfOk result (λ r. r.1.first ≡ first attached) }
        ensures none { IfOk result (λ r. (r.1.seen ≡ []) × (r.1.mine ≡ [])) }
    {
        let (cell, mut seat) = RuledSeqCell::ruled(alloc, Stored::new(BackendSet::EMPTY))?;
        cell.swap_as::<Opening, R>(rt, &mut seat, Stored::new(attached));
        Ok((SharedGate { cell }, Pass { seat }))
    }

    /// One call: its answer is the gate's, at one point of the one history.
    pub fn step<R: Wait>(&self, rt: &R, pass: &mut Pass, call: GateCall) -> GateAnswer
        requires gate { pass.old.gate ≡ self.now }
        requires phase { MayMake pass.old call }
        ensures call { Made pass.old call result pass.new }
        ensures tells { Tells pass.old call result pass.new }
    {
        self.step_as::<Brand, R>(rt, &mut pass.seat, call)
    }

    /// A pass that has seen what this one has, and has no calls of its own.
    pub fn split(&self, pass: &mut Pass) -> Pass
        requires gate { pass.old.gate ≡ self.now }
        ensures same { pass.new ≡ pass.old }
        ensures of { (result.gate ≡ self.now) × (result.first ≡ pass.old.first) }
        ensures seen { result.seen ≡ pass.old.seen }
        ensures none { result.mine ≡ [] }
    {
        Pass {
            seat: self.cell.split_pass::<Halves>(&mut pass.seat),
        }
    }

    /// Takes in a pass that is out: this one has then seen the longer of the two beginnings of the
    /// history.
    pub fn join<R: Wait>(&self, rt: &R, pass: &mut Pass, other: Pass)
        requires gate { (pass.old.gate ≡ self.now) × (other.gate ≡ self.now) }
        requires out { IsOut other }
        ensures { Joined pass.old other pass.new }
    {
        let Pass { mut seat } = other;
        self.hear(rt, &mut seat);
        let note = self.cell.split_pass::<Halves>(&mut seat);
        self.cell.join_pass::<Both>(&mut pass.seat, note);
        self.hear(rt, &mut pass.seat);
    }

    fn hear<R: Wait>(&self, rt: &R, seat: &mut Seat)
        requires gate { seat.old.table_id ≡ self.now }
        requires admitted { (cell_view seat.old).admitted ≡ true }
        ensures same { IsSamePass seat.old seat.new }
        ensures rest { IsAtRest (cell_view seat.new) }
        ensures hears { Hears seat.old.id (cell_view seat.old) (cell_view seat.new) }
    {
        self.hear_as::<Brand, R>(rt, seat);
    }

    fn hear_as<C: Asking, R: Wait>(&self, rt: &R, seat: &mut Seat)
        requires gate { seat.old.table_id ≡ self.now }
        requires admitted { (cell_view seat.old).admitted ≡ true }
        requires asking { C.by ≡ seat.old.id }
        ensures same { IsSamePass seat.old seat.new }
        ensures rest { IsAtRest (cell_view seat.new) }
        ensures hears { Hears seat.old.id (cell_view seat.old) (cell_view seat.new) }
    {
        self.cell.load_as::<Listening<C>, R>(rt, seat);
    }

    fn step_as<C: Asking, R: Wait>(&self, rt: &R, seat: &mut Seat, call: GateCall) -> GateAnswer
        requires gate { seat.old.table_id ≡ self.now }
        requires begun { (cell_view seat.old).admitted ≡ true }
        requires asking { (C.by ≡ seat.old.id) × (C.call ≡ call) }
        requires phase { MayStep (cell_view seat.old) call }
        ensures same { IsSamePass seat.old seat.new }
        ensures rest { IsAtRest (cell_view seat.new) }
        ensures call { Extends (cell_view seat.old) seat.old.id call result (cell_view seat.new) }
    {
        for _ in rt.forever() {
            let found = self.cell.load_as::<Reading<C>, R>(rt, seat);
            let mut next = found;
            let answer = next.step(call);
            if !is_granted(&answer) {
                return answer;
            }
            if self
                .cell
                .compare_exchange_as::<Making<C>, R>(rt, seat, found, next)
                .is_ok()
            {
                return answer;
            }
        }
        unreachable!()
    }
}

fn is_granted(answer: &GateAnswer) -> bool
    ensures { result ≡ is_grant answer.now }
{
    matches!(answer, GateAnswer::Granted(_))
}
