//! From the words to the status: what a run is to do is asked, and carried out.
ghost use Rattle.std.specs.Prelude.{◌≡◌, ◌<◌, ◌≤◌, drop, length, map, take, Ok, IfOk, OnOk};
ghost use Rattle.std.specs.List.{AllByRecursion};
ghost use Rattle.pgproto.specs.Line.{line_of};
ghost use Rattle.pgproto.specs.Spelling.{IsOfGrammar};
ghost use Rattle.play.specs.Script.{IsSession};
ghost use Rattle.pool_run.specs.Ends.{outside, ScriptEnds, Returns};
ghost use Rattle.pool_run.specs.Plan.{IsSound, PlanEnds};
ghost use Rattle.backend_trait.specs.Rows.{no_rows};
ghost use Rattle.schema.specs.Allowed.{AreAllowed};
ghost use Rattle.schema.specs.Ranges.{AreInRange};
ghost use Rattle.session_core.specs.Statements.{primary_rows, primary_tables};
ghost use Rattle.pool_run.specs.Shelf.{AreBackends, AreFresh, ArePrepared};

use crate::asking::ask;
use crate::backends::Backends;
use crate::plan::{Plan, Stop, Way};
use crate::sessions::run_sessions;
use crate::status::Status;
use crate::telling::tell;
use backend_trait::{Answer, Backend};
use pgproto::ScriptLine;
use play::{PlayFault, play};
use pool_base::{Files, NoMemory, SessionId, Sink};
use schema::Catalogue;
use std::alloc::Global;
use std::mem;
use write_path::Chain;

/// Runs the command of the words: its output goes to `out`, and its status is the result.
///
/// After: the memory of what was read stays taken, since the program ends behind the run.
pub fn run<F: Files, O: Sink, B: Backend>(
    alloc: Global,
    words: &[&str],
    files: &mut F,
    out: &mut O,
    shelf: &mut Vec<B>,
) -> u8
    requires enough { 8 ≤ length shelf.old.items }
    requires fresh { AreFresh B.meaning B.is_honest B.is_prompt B.is_steady shelf.old.items }
    // Each status comes with its cause, and with what was written.
    ensures { Returns (map (λ w. w.now) words.now) (F.contents files.old) (F.fault_count files.old)
        (F.fault_count files.new) result (outside (O.fault_count out.old) (O.fault_count out.new)
        (O.taken out.old) (O.taken out.new) (map B.meaning shelf.old.items)
        (map B.meaning shelf.new.items)) }
{
    let asked = ask(alloc, words, files);
    let status = carry_out(alloc, &asked, out, shelf);
    mem::forget(asked);
    status.code()
}

/// Plays the script that is to be played, or tells why none is.
fn carry_out<O: Sink, B: Backend>(
    alloc: Global,
    asked: &Result<Plan, Stop>,
    out: &mut O,
    shelf: &mut Vec<B>,
) -> Status
    requires sound { IfOk asked.now IsSound }
    requires enough { 8 ≤ length shelf.old.items }
    requires fresh { AreFresh B.meaning B.is_honest B.is_prompt B.is_steady shelf.old.items }
    ensures { PlanEnds asked.now result (outside (O.fault_count out.old) (O.fault_count out.new)
        (O.taken out.old) (O.taken out.new) (map B.meaning shelf.old.items)
        (map B.meaning shelf.new.items)) }
{
    match asked {
        Ok(plan) => run_plan(alloc, plan, out, shelf),
        Err(stop) => tell(alloc, stop, out),
    }
}

/// Plays the script that is to be played, as it is to be played.
fn run_plan<O: Sink, B: Backend>(
    alloc: Global,
    plan: &Plan,
    out: &mut O,
    shelf: &mut Vec<B>,
) -> Status
    requires sound { IsSound plan.now }
    requires enough { 8 ≤ length shelf.old.items }
    requires fresh { AreFresh B.meaning B.is_honest B.is_prompt B.is_steady shelf.old.items }
    ensures { PlanEnds (Ok plan.now) result (outside (O.fault_count out.old) (O.fault_count out.new)
        (O.taken out.old) (O.taken out.new) (map B.meaning shelf.old.items)
        (map B.meaning shelf.new.items)) }
{
    match plan.lines.way {
        Way::OneClient => {
            let script = plan.lines.script.as_slice();
            let count = plan.config.nodes.len();
            run_script(alloc, &plan.catalogue, script, count, out, shelf)
        }
        Way::Sessions { journal } => run_sessions(alloc, plan, journal, out, shelf),
    }
}

/// Plays a script over the first boxes of the shelf, as many as the configuration has backends.
fn run_script<O: Sink, B: Backend>(
    alloc: Global,
    catalogue: &Catalogue,
    script: &[ScriptLine],
    count: usize,
    out: &mut O,
    shelf: &mut Vec<B>,
) -> Status
    requires grammar { AllByRecursion IsOfGrammar (map line_of script.now) }
    requires session { IsSession (map line_of script.now) }
    requires in_range { AreInRange catalogue.now }
    requires allowed { AreAllowed catalogue.now }
    requires some { 0 < count }
    requires few { count ≤ 8 }
    requires enough { 8 ≤ length shelf.old.items }
    requires fresh { AreFresh B.meaning B.is_honest B.is_prompt B.is_steady shelf.old.items }
    ensures { ScriptEnds count catalogue.now (map line_of script.now) result
        (outside (O.fault_count out.old) (O.fault_count out.new)
        (O.taken out.old) (O.taken out.new) (map B.meaning shelf.old.items) (map B.meaning
        shelf.new.items)) }
{
    let Ok(chain) = Chain::new(alloc) else {
        return Status::NoMemory;
    };
    match prepare_first(shelf.as_mut_slice(), count, catalogue) {
        Err(NoMemory) => Status::NoMemory,
        Ok(()) => run_prepared(alloc, catalogue, script, count, chain, out, shelf),
    }
}

/// Gives the first boxes of a shelf the tables.
pub(crate) fn prepare_first<B: Backend>(
    shelf: &mut [B],
    count: usize,
    catalogue: &Catalogue,
) -> Result<(), NoMemory>
    requires in_range { AreInRange catalogue.now }
    requires allowed { AreAllowed catalogue.now }
    requires few { count ≤ length shelf.old }
    requires fresh { AreFresh B.meaning B.is_honest B.is_prompt B.is_steady shelf.old }
    ensures len { length shelf.new ≡ length shelf.old }
    ensures each { OnOk result (ArePrepared B.meaning B.is_honest B.is_prompt B.is_steady
        catalogue.now (take count shelf.new)) }
    ensures rest { drop count shelf.new ≡ drop count shelf.old }
{
    prepare_each(&mut shelf[..count], catalogue)
}

/// Gives each of some boxes the tables.
fn prepare_each<B: Backend>(boxes: &mut [B], catalogue: &Catalogue) -> Result<(), NoMemory>
    requires in_range { AreInRange catalogue.now }
    requires allowed { AreAllowed catalogue.now }
    requires fresh { AreFresh B.meaning B.is_honest B.is_prompt B.is_steady boxes.old }
    ensures len { length boxes.new ≡ length boxes.old }
    ensures each { OnOk result (ArePrepared B.meaning B.is_honest B.is_prompt B.is_steady
        catalogue.now boxes.new) }
{
    for one in boxes.iter_mut() {
        one.prepare(catalogue)?;
    }
    Ok(())
}

/// Plays a script over boxes that have their tables.
fn run_prepared<O: Sink, B: Backend>(
    alloc: Global,
    catalogue: &Catalogue,
    script: &[ScriptLine],
    count: usize,
    chain: Chain<Answer>,
    out: &mut O,
    shelf: &mut Vec<B>,
) -> Status
    requires grammar { AllByRecursion IsOfGrammar (map line_of script.now) }
    requires session { IsSession (map line_of script.now) }
    requires allowed { AreAllowed catalogue.now }
    requires some { 0 < count }
    requires few { count ≤ 8 }
    requires enough { count ≤ length shelf.old.items }
    requires each { ArePrepared B.meaning B.is_honest B.is_prompt B.is_steady catalogue.now
        (take count shelf.old.items) }
    ensures { ScriptEnds count catalogue.now (map line_of script.now) result
        (outside (O.fault_count out.old) (O.fault_count out.new)
        (O.taken out.old) (O.taken out.new) (map B.meaning shelf.old.items) (map B.meaning
        shelf.new.items)) }
{
    let held = mem::replace(shelf, Vec::new(alloc));
    let mut backends = Backends {
        chain,
        shelf: held,
        count,
        session: SessionId { number: 1 },
    };
    let status = play_over(alloc, catalogue, script, out, &mut backends);
    *shelf = backends.shelf;
    status
}

/// Plays a script over backends without rows.
fn play_over<O: Sink, B: Backend>(
    alloc: Global,
    catalogue: &Catalogue,
    script: &[ScriptLine],
    out: &mut O,
    backends: &mut Backends<B>,
) -> Status
    requires grammar { AllByRecursion IsOfGrammar (map line_of script.now) }
    requires session { IsSession (map line_of script.now) }
    requires allowed { AreAllowed catalogue.now }
    requires ready { AreBackends B.meaning B.is_honest B.is_prompt B.is_steady backends.old.count
        (take backends.old.count backends.old.shelf.items) }
    requires tables { primary_tables (map B.meaning (take backends.old.count
        backends.old.shelf.items)) ≡ catalogue.now }
    requires none { primary_rows (map B.meaning (take backends.old.count
        backends.old.shelf.items)) ≡ no_rows }
    ensures { ScriptEnds backends.old.count catalogue.now (map line_of script.now) result
        (outside (O.fault_count out.old)
        (O.fault_count out.new) (O.taken out.old) (O.taken out.new) (map B.meaning
        backends.old.shelf.items) (map B.meaning backends.new.shelf.items)) }
{
    match play(alloc, catalogue, script, backends, out) {
        Ok(()) => Status::Done,
        Err(PlayFault::NoMemory) => Status::NoMemory,
        Err(PlayFault::SinkFailed) => Status::SinkFailed,
    }
}
