//! One statement, in a transaction of its own.
ghost use Rattle.std.specs.Prelude.{◌≡◌, ◌<◌, ◌≤◌, ◌⊎◌, ◌==◌, ◌||◌, ℕ, Some, None, true, IfOk, OnOk, All, length, map};
ghost use Rattle.pool_base.specs.Sets.{has};
ghost use Rattle.backend_trait.specs.Alone.{given_on, IsEffect, rows_after};
ghost use Rattle.write_path.specs.Chains.{answer_of, HaveAllAnswered, IsStopped, holder_of};
ghost use Rattle.session_core.specs.Statements.{AreReady, primary_rows, primary_tables};
ghost use Rattle.backend_trait.specs.Runnable.{IsRunnable, is_of_run};
ghost use Rattle.classifier.specs.Classes.{lock_of};
ghost use Rattle.session_core.specs.Chains.{AreFirst};
ghost use Rattle.session_core.specs.Steps.{last_step, reach_of};

use crate::ask::{Step, go_down, is_refusal};
use backend_trait::{Answer, Backend, Checked};
use classifier::{Class, class_of};
use pool_base::{BackendId, BackendSet, NoMemory, SessionId};
use write_path::{Chain, ChainKind, Judged};

/// Runs a statement over the backends, in a transaction of its own that commits: it takes
/// snapshots, runs and commits down the chain in rising order; a read runs at the primary alone.
/// A refusal of the primary is rolled back.
///
/// After want of memory nothing is said of the backends.
pub fn run_statement<B: Backend>(
    chain: &mut Chain<Answer>,
    shelf: &mut [B],
    s: SessionId,
    statement: &Checked,
) -> Result<Answer, NoMemory>
    requires some { 0 < length shelf.old }
    requires few { length shelf.old ≤ 8 }
    requires ready { AreReady (primary_tables (map B.meaning shelf.old))
        (primary_rows (map B.meaning shelf.old)) (map B.meaning shelf.old) }
    requires runnable { IsRunnable (primary_tables (map B.meaning shelf.old)) statement.now }
    requires draws_none { lock_of statement.now.body ≡ None }
    requires honest { All (λ b. B.is_honest b ≡ true) shelf.old }
    requires prompt { All (λ b. B.is_prompt b ≡ true) shelf.old }
    requires steady { All (λ b. B.is_steady b ≡ true) shelf.old }
    ensures len { length shelf.new ≡ length shelf.old }
    ensures honest { All (λ b. B.is_honest b ≡ true) shelf.new }
    ensures prompt { All (λ b. B.is_prompt b ≡ true) shelf.new }
    ensures steady { All (λ b. B.is_steady b ≡ true) shelf.new }

    // The answer is the statement's effect on the primary's rows, and each backend has the rows
    // after.
    ensures answer { IfOk result
        (λ answer. IsEffect (given_on (primary_tables (map B.meaning shelf.old))
        (primary_rows (map B.meaning shelf.old)) statement.now) answer) }
    // It has the form of the statement's answers.
    ensures form { IfOk result (λ answer. is_of_run statement.now answer ≡ true) }
    ensures ready { OnOk result (AreReady (primary_tables (map B.meaning shelf.old))
        (rows_after (primary_tables (map B.meaning shelf.old))
        (primary_rows (map B.meaning shelf.old)) statement.now) (map B.meaning shelf.new)) }
    ensures rest { OnOk result (AreReady (primary_tables (map B.meaning shelf.old))
        (primary_rows (map B.meaning shelf.new)) (map B.meaning shelf.new)) }
{
    let attached = first(shelf.len());
    go_down(chain, ChainKind::All, shelf, attached, s, Step::Begin)?;
    let asked = first(reach(statement, shelf.len()));
    let run = Step::Run(statement);
    go_down(chain, ChainKind::StopAtRefusal, shelf, asked, s, run)?;
    let answer = kept(chain, asked)?;
    let last = last_step(&answer);
    go_down(chain, ChainKind::All, shelf, attached, s, last)?;
    Ok(answer)
}

/// How many backends run the statement: a read runs at the primary alone.
fn reach(statement: &Checked, count: usize) -> usize
    requires { 0 < count }
    ensures reach { result ≡ reach_of statement.now count }
    ensures some { 0 < result }
    ensures within { result ≤ count }
{
    match class_of(statement) {
        Class::Read => 1,
        Class::LockingRead | Class::Write | Class::SerialInsert => count,
    }
}

/// How a transaction ends after this answer.
fn last_step(answer: &Answer) -> Step<'static>
    ensures { result ≡ last_step answer.now }
{
    if is_refusal(answer) {
        Step::Rollback
    } else {
        Step::Commit
    }
}

/// The backends below this number.
fn first(count: usize) -> BackendSet
    requires { count ≤ 8 }
    ensures { AreFirst result.bits count }
{
    let mut set = BackendSet::EMPTY;
    for number in 0..8 {
        if usize::from(number) < count {
            set = joined(set, BackendId { number });
        }
    }
    set
}

/// The set with that backend in it.
fn joined(set: BackendSet, b: BackendId) -> BackendSet
    ensures { (k : ℕ) → k < 8 → has result.bits k ≡ (k == b.number || has set.bits k) }
{
    set.with(b)
}

/// The answer that the chain keeps.
fn kept(chain: &Chain<Answer>, attached: BackendSet) -> Result<Answer, NoMemory>
    requires end { HaveAllAnswered chain.now attached.bits ⊎ IsStopped chain.now attached.bits }
    requires some { (b : ℕ) × (b < 8) × (has attached.bits b ≡ true) }
    ensures { IfOk result (λ answer. (b : ℕ) × (b < 8) × (has attached.bits b ≡ true)
        × (answer_of chain.now b ≡ Some answer)) }
{
    let holder = holder_of(chain.judge(attached));
    match chain.answer_of(holder) {
        Some(answer) => Ok(answer.clone()?),
        None => unreachable!(),
    }
}

fn holder_of(judged: Judged) -> BackendId
    ensures { result ≡ holder_of judged }
{
    match judged {
        Judged::Agreed { holder } => holder,
        Judged::Split { holder, .. } => holder,
    }
}
