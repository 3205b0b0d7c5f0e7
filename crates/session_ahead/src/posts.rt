//! What is coming, one post after another.
ghost use Rattle.std.specs.Prelude.{◌≡◌, ◌==◌, Some, None, if◌then◌else◌, length, IfOk};
ghost use Rattle.std.specs.List.{slice_get};
ghost use Rattle.session_machine.specs.Rules.{kind_of, request_of};
ghost use Rattle.session_engine.specs.Meaning.{session_of};
ghost use Rattle.session_engine.specs.Cores.{machine_in};
ghost use Rattle.session_ahead.specs.Coming.{post_of, is_fixed, fixed, statement_behind, behind, from, from_next, is_held, at_look, coming};

use crate::asked::{all_backends, is_past, open_at, open_count};
use crate::first::{first_of, first_read, statement_behind};
use crate::post::Post;
use pool_base::{BackendId, NoMemory};
use session_engine::{Core, Due, Standing};
use session_machine::{Stage, lowest, next_of, request_of};
use write_path::ChainKind;

/// Whether the others are asked the same, whatever the one that is asked answers.
fn is_fixed(standing: &Standing, stage: &Stage) -> bool
    ensures { result ≡ is_fixed (session_of standing.now) stage.now }
{
    match stage {
        Stage::Opening(_) | Stage::Committing | Stage::Closing | Stage::RollingBack(_) => true,
        Stage::Reading(_, _) => false,
        Stage::Running(_) | Stage::Locking(_, _) => is_past(
            standing.answers.as_slice(),
            lowest(standing.view.attached),
        ),
        Stage::Inserting(_, posted) => *posted,
    }
}

/// The backend at that place behind the one that is asked.
fn fixed_at(standing: &Standing, stage: &Stage, b: BackendId, at: usize) -> Option<BackendId>
    ensures { result ≡ slice_get (fixed (session_of standing.now) stage.now b) at }
{
    if !is_fixed(standing, stage) {
        return None;
    }
    let heard = standing.answers.as_slice();
    open_at(&all_backends(), standing.view.attached, heard, b, at)
}

/// How many are behind it.
fn fixed_count(standing: &Standing, stage: &Stage, b: BackendId) -> usize
    ensures { result ≡ length (fixed (session_of standing.now) stage.now b) }
{
    if !is_fixed(standing, stage) {
        return 0;
    }
    let heard = standing.answers.as_slice();
    open_count(&all_backends(), standing.view.attached, heard, b)
}

/// What a stage asks of a backend.
fn post_to(stage: &Stage, b: BackendId) -> Result<Option<Post>, NoMemory>
    ensures { IfOk result (λ post. post ≡ Some (post_of (request_of stage.now) b)) }
{
    let request = request_of(stage)?;
    Ok(Some(Post { b, request }))
}

/// What comes behind a chain of so many backends, if this is the place right behind them.
fn behind_all(
    standing: &Standing,
    stage: &Stage,
    at: usize,
    count: usize,
) -> Result<Option<Post>, NoMemory>
    ensures { IfOk result (λ post. post
        ≡ if at == count then statement_behind (session_of standing.now) stage.now else None) }
{
    if at == count {
        return statement_behind(standing, stage);
    }
    Ok(None)
}

/// The post at that place behind the backend that is asked.
fn behind(
    standing: &Standing,
    stage: &Stage,
    b: BackendId,
    at: usize,
) -> Result<Option<Post>, NoMemory>
    ensures { IfOk result (λ post. post
        ≡ slice_get (behind (session_of standing.now) stage.now b) at) }
{
    match fixed_at(standing, stage, b, at) {
        Some(next) => post_to(stage, next),
        None => {
            let count = fixed_count(standing, stage, b);
            behind_all(standing, stage, at, count)
        }
    }
}

/// The post at that place from the one of that backend on.
fn from(
    standing: &Standing,
    stage: &Stage,
    b: BackendId,
    at: usize,
) -> Result<Option<Post>, NoMemory>
    ensures { IfOk result (λ post. post
        ≡ slice_get (from (session_of standing.now) stage.now b) at) }
{
    if at > 0 {
        return behind(standing, stage, b, at - 1);
    }
    post_to(stage, b)
}

/// The post at that place from the backend that is asked next, if there is one.
fn from_next(
    standing: &Standing,
    stage: &Stage,
    next: Option<BackendId>,
    at: usize,
) -> Result<Option<Post>, NoMemory>
    ensures { IfOk result (λ post. post
        ≡ slice_get (from_next (session_of standing.now) stage.now next) at) }
{
    match next {
        Some(b) => from(standing, stage, b, at),
        None => {
            if at > 0 {
                return Ok(None);
            }
            statement_behind(standing, stage)
        }
    }
}

/// How a stage goes down the backends.
fn kind_of(stage: &Stage) -> ChainKind
    ensures { result ≡ kind_of stage.now }
{
    match stage {
        Stage::Running(_) | Stage::Locking(_, _) => ChainKind::StopAtRefusal,
        Stage::Opening(_)
        | Stage::Reading(_, _)
        | Stage::Inserting(_, _)
        | Stage::Committing
        | Stage::Closing
        | Stage::RollingBack(_) => ChainKind::All,
    }
}

/// Whether the next post comes at a Look, and not before.
fn is_held(stage: &Stage) -> bool
    ensures { result ≡ is_held stage.now }
{
    match stage {
        Stage::Reading(_, _) => true,
        Stage::Inserting(_, posted) => !*posted,
        Stage::Opening(_)
        | Stage::Running(_)
        | Stage::Locking(_, _)
        | Stage::Committing
        | Stage::Closing
        | Stage::RollingBack(_) => false,
    }
}

/// The post at that place at a Look.
fn at_look(standing: &Standing, stage: &Stage, at: usize) -> Result<Option<Post>, NoMemory>
    ensures { IfOk result (λ post. post
        ≡ slice_get (at_look (session_of standing.now) stage.now) at) }
{
    if is_held(stage) {
        return Ok(None);
    }
    let attached = standing.view.attached;
    let next = next_of(kind_of(stage), attached, standing.answers.as_slice());
    from_next(standing, stage, next, at)
}

/// The post at that place of those that are coming, the one that is due before the others. None:
/// no more are fixed. Of all that is coming only this one is made, so at most one statement is
/// copied.
///
/// Cost: an answer and eight backends are looked at for each backend.
pub fn coming(core: &Core, at: usize) -> Result<Option<Post>, NoMemory>
    ensures { IfOk result (λ post. post
        ≡ slice_get (coming (machine_in core.now)) at) }
{
    let standing = core.standing();
    match &standing.due {
        Due::PostDue(stage, b) => from(standing, stage, *b, at),
        Due::Waiting(stage, b) | Due::LostDue(stage, b, _, _) => behind(standing, stage, *b, at),
        Due::LookDue(stage) => at_look(standing, stage, at),
        Due::LeaveSnapshotDue(work) => {
            if at > 0 {
                return Ok(None);
            }
            first_of(standing, work)
        }
        Due::ChooseDue(work) => {
            if at > 0 {
                return Ok(None);
            }
            first_read(standing, work)
        }
        // The gate may hold it.
        Due::EnterCommitDue => Ok(None),
        Due::Resting
        | Due::EnterDue(_)
        | Due::SplitDue { .. }
        | Due::ShowDue
        | Due::UnwindDue(_)
        | Due::LeaveCommitDue(_)
        | Due::FinishDue(_)
        | Due::ReplyDue(_)
        | Due::RowsDue(_)
        | Due::EndDue => Ok(None),
    }
}
