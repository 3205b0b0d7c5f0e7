//! The first post of a statement that has its snapshot.
ghost use Rattle.std.specs.Prelude.{◌≡◌, option_map, IfOk};
ghost use Rattle.session_machine.specs.Rules.{ticket_of};
ghost use Rattle.session_engine.specs.Meaning.{session_of};
ghost use Rattle.session_ahead.specs.Coming.{post_of, first_read, first_of, statement_behind};
ghost use Rattle.backend_trait.specs.declared.request.Request.TheVariants as requests;

use crate::asked::have_begun;
use crate::post::Post;
use backend_trait::Request;
use checked_sql::checked_copied;
use pool_base::{BackendId, NoMemory};
use session_engine::Standing;
use session_machine::{Class, Stage, Work, lowest, reader};

/// A statement at a backend, if there is one.
fn run_at(work: &Work, at: Option<BackendId>) -> Result<Option<Post>, NoMemory>
    ensures { IfOk result (λ post. post
        ≡ option_map (post_of (requests.Run work.now.statement)) at) }
{
    match at {
        None => Ok(None),
        Some(b) => Ok(Some(Post {
            b,
            request: Request::Run(checked_copied(work.statement.get())?),
        })),
    }
}

/// The ticket of the next read.
fn ticket(standing: &Standing) -> u64
    ensures { result ≡ ticket_of (session_of standing.now) standing.now.policy.per_statement }
{
    let own = u64::from(standing.id.number);
    if standing.policy.per_statement {
        return own + u64::from(standing.reads);
    }
    own
}

/// A read's.
pub(crate) fn first_read(standing: &Standing, work: &Work) -> Result<Option<Post>, NoMemory>
    ensures { IfOk result (λ post. post ≡ first_read (session_of standing.now) work.now) }
{
    let at = reader(&standing.policy, standing.view.attached, ticket(standing));
    run_at(work, at)
}

/// A statement's.
pub(crate) fn first_of(standing: &Standing, work: &Work) -> Result<Option<Post>, NoMemory>
    ensures { IfOk result (λ post. post ≡ first_of (session_of standing.now) work.now) }
{
    match work.class {
        Class::Read => first_read(standing, work),
        Class::LockingRead | Class::Write(_) => run_at(work, lowest(standing.view.attached)),
        Class::SerialInsert(table) => Ok(match lowest(standing.view.attached) {
            None => None,
            Some(b) => Some(Post {
                b,
                request: Request::Lock(table),
            }),
        }),
    }
}

/// What comes behind the snapshots, while none is refused.
pub(crate) fn statement_behind(standing: &Standing, stage: &Stage) -> Result<Option<Post>, NoMemory>
    ensures { IfOk result (λ post. post ≡ statement_behind (session_of standing.now) stage.now) }
{
    match stage {
        Stage::Opening(work) => {
            if !have_begun(standing.answers.as_slice()) {
                return Ok(None);
            }
            first_of(standing, work)
        }
        Stage::Reading(_, _)
        | Stage::Running(_)
        | Stage::Locking(_, _)
        | Stage::Inserting(_, _)
        | Stage::Committing
        | Stage::Closing
        | Stage::RollingBack(_) => Ok(None),
    }
}
