//! The small words of the rules.
ghost use Rattle.std.specs.Prelude.{◌≡◌, ◌↔◌, true, IfOk, IfErr, IsTrue};
ghost use Rattle.pg_values.specs.Range.{IsMoment};
ghost use Rattle.session_machine.specs.Rules.{request_of, is_run, rewritten, work_at, tables_of, is_moment, done_with, tag_of, phase_changed, commit_outcome, stage_posted};

use crate::machine::{GatePhase, Stage};
use crate::status::Status;
use crate::work::{Class, Verb, Work};
use backend_trait::{Answer, Request};
use checked_sql::checked_copied;
use pool_base::{Boxed, Code, NoMemory};
use session_orders::{Outcome, Tag};
use time_rewrite::{RewriteFault, rewrite};

/// What a stage asks of a backend. The copy of a statement wants memory.
pub fn request_of(stage: &Stage) -> Result<Request, NoMemory>
    ensures is { IfOk result (λ request. request ≡ request_of stage.now) }
    ensures want { IfErr result (λ _. is_run (request_of stage.now) ≡ true) }
{
    Ok(match stage {
        Stage::Opening(_) => Request::TakeSnapshot,
        Stage::Reading(work, _) | Stage::Running(work) | Stage::Inserting(work, _) => {
            Request::Run(checked_copied(work.statement.get())?)
        }
        Stage::Locking(_, table) => Request::Lock(*table),
        Stage::Committing | Stage::Closing => Request::Commit,
        Stage::RollingBack(_) => Request::Rollback,
    })
}

/// A statement at a moment of the years 1 to 9999.
fn work_at(moment: i64, work: Work) -> Result<Work, NoMemory>
    requires { IsMoment moment }
    ensures { IfOk result (λ made. made ≡ work_at moment work) }
{
    let Work {
        statement,
        class,
        tables,
    } = work;
    let alloc = statement.allocator();
    let made = rewrite(statement.get(), moment);
    drop(statement);
    match made {
        Ok(statement) => Ok(Work {
            statement: Boxed::new(alloc, statement)?,
            class,
            tables,
        }),
        Err(RewriteFault::NoMemory) => Err(NoMemory),
        Err(RewriteFault::MomentOutOfRange) => unreachable!(),
    }
}

/// A statement at a moment. None: the moment is none of the years 1 to 9999.
pub fn rewritten(moment: i64, work: Work) -> Result<Option<Work>, NoMemory>
    ensures { IfOk result (λ made. made ≡ rewritten moment work) }
{
    if !is_moment(moment) {
        drop(work);
        return Ok(None);
    }
    Ok(Some(work_at(moment, work)?))
}

/// The tables of the writes that have succeeded.
pub fn tables_of(phase: GatePhase) -> u64
    ensures { result ≡ tables_of phase }
{
    match phase {
        GatePhase::Out | GatePhase::InSnapshot | GatePhase::InCommit => 0,
        GatePhase::Live(_, tables) => tables,
    }
}

/// Whether a moment is of the years 1 to 9999.
pub fn is_moment(moment: i64) -> bool
    ensures is { result ≡ is_moment moment }
    ensures means { IsTrue result ↔ IsMoment moment }
{
    -63_082_281_600_000_000 <= moment && moment <= 252_455_615_999_999_999
}

/// What becomes of an order that is done without a warning.
pub fn done_with(tag: Tag) -> Outcome
    ensures { result ≡ done_with tag }
{
    Outcome::Done { tag, warning: None }
}

/// The tag of a statement of that class, with its count.
pub fn tag_of(class: Class, count: u64) -> Tag
    ensures { result ≡ tag_of class count }
{
    match class {
        Class::Read | Class::LockingRead => Tag::Select(count),
        Class::Write(Verb::Insert) | Class::SerialInsert(_) => Tag::Insert(count),
        Class::Write(Verb::Update) => Tag::Update(count),
        Class::Write(Verb::Delete) => Tag::Delete(count),
    }
}

/// A write has succeeded.
pub fn phase_changed(phase: GatePhase, more: u64) -> GatePhase
    ensures { result ≡ phase_changed phase more }
{
    match phase {
        GatePhase::Out => GatePhase::Out,
        GatePhase::InSnapshot => GatePhase::InSnapshot,
        GatePhase::Live(_, tables) => GatePhase::Live(true, tables | more),
        GatePhase::InCommit => GatePhase::InCommit,
    }
}

/// The code of a refusal.
pub fn refusal_of(answer: &Answer) -> Option<Code>
    ensures { result ≡ Rattle.session_machine.specs.Rules.refusal_of answer.now }
{
    match answer {
        Answer::Refused(code) => Some(*code),
        Answer::Began
        | Answer::Rows(_)
        | Answer::Count(_)
        | Answer::Locked
        | Answer::Done
        | Answer::Serial(_) => None,
    }
}

/// What becomes of the order that ends a transaction by its commit.
pub fn commit_outcome(status: Status) -> Outcome
    ensures { result ≡ commit_outcome status }
{
    match status {
        Status::Idle => Outcome::Settled,
        Status::InBlock | Status::Failed => done_with(Tag::Commit),
    }
}

/// From its first post on a serial insert is under way.
pub fn stage_posted(stage: Stage) -> Stage
    ensures { result ≡ stage_posted stage }
{
    match stage {
        Stage::Inserting(work, _) => Stage::Inserting(work, true),
        other => other,
    }
}
