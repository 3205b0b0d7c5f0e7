//! What a post and an answer leave.
ghost use Rattle.std.specs.Prelude.{◌≡◌, ◌<◌, ◌≤ℤ◌, pos, Some, IfOk, OnOk, map, option_map, slice_get};
ghost use Rattle.sql_eval.specs.Effects.{DrawsFew};
ghost use Rattle.backend_trait.specs.Typed.{AreAllStored};
ghost use Rattle.outcomes.specs.Given.{given_in};
ghost use Rattle.outcomes.specs.Log.{rows_of};
ghost use Rattle.outcomes.specs.Next.{next_of};
ghost use Rattle.outcomes.specs.Spots.{place_of};
ghost use Rattle.backend_trait.specs.declared.request.Request.TheVariants as requests;
ghost use Rattle.backend_trait.specs.declared.answer.Answer.TheVariants as answers;
ghost use Rattle.backend_trait.specs.Rows.{laid_over};
ghost use Rattle.backend_trait.specs.Effect.{Gives, changes_of};
ghost use Rattle.backend_trait.specs.Store.{Live, Alive, MayPost, begun, given_to, made_stale, table_lock, where_live, posted, settled, committed_by, drawn, answered, refused, acted, is_refusal, lost_by};
ghost use Rattle.plain_store.specs.Phases.{live_of, request_at, transaction_of};
ghost use Rattle.plain_store.specs.Meaning.{store_of};
ghost use Rattle.backend_trait.specs.Acting.{acted_at, drawn_waiting, died};
ghost use Rattle.plain_store.specs.Kept.{IsKept, IsStoredIn};
ghost use Rattle.plain_store.specs.Steps.{gave, locked, IsSetIn};

use crate::copying::{set_copied, sets_copied, waiting_copied, work_copied};
use crate::data::{Database, Phase, Work};
use crate::given::given_at;
use backend_trait::{Answer, Catalogue, Checked, Request};
use outcomes::{ChangeSet, NextNumbers, Outcome, Spot};
use pool_base::{List, NoMemory, SessionId};
use sql_eval::Change;
use std::alloc::Global;
use std::mem;

/// A transaction on the rows as they are committed.
fn begun_work(alloc: Global, log: &[ChangeSet]) -> Result<Work, NoMemory>
    ensures { IfOk result (λ work. live_of work ≡ begun (rows_of log.now)) }
{
    let base = sets_copied(alloc, log)?;
    let changes: Vec<Change> = Vec::new(alloc);
    let held: Vec<Spot> = Vec::new(alloc);
    let tables: List<u8> = List::new(alloc);
    let stale: Vec<ChangeSet> = Vec::new(alloc);
    Ok(Work {
        base,
        own: ChangeSet { changes },
        held,
        tables,
        stale,
    })
}

/// The transaction with changes and places more.
fn with_changes(work: Work, changes: Vec<Change>, places: Vec<Spot>) -> Result<Work, NoMemory>
    ensures { IfOk result (λ new. live_of new ≡ given_to (Gives answers.Done
        (changes_of changes.items) (map place_of places.items)) (live_of work)) }
{
    let mut work = work;
    let mut changes = changes;
    let mut places = places;
    work.own.changes.append(&mut changes)?;
    work.held.append(&mut places)?;
    Ok(work)
}

/// The transaction once it has run a statement that gives that.
fn ran_work(work: Work, outcome: Outcome) -> Result<Work, NoMemory>
    ensures { IfOk result (λ new. live_of new ≡ given_to (given_in outcome) (live_of work)) }
{
    match outcome {
        Outcome::Gives {
            changes,
            places,
            ..
        } => with_changes(work, changes, places),
        Outcome::Fails(_) => Ok(work),
    }
}

/// The same, where a statement gives something.
fn gave_work(work: Work, given: Option<Outcome>) -> Result<Work, NoMemory>
    ensures { IfOk result (λ new. live_of new
        ≡ gave (option_map given_in given) (live_of work)) }
{
    match given {
        Some(outcome) => ran_work(work, outcome),
        None => Ok(work),
    }
}

fn ran_phase(alloc: Global, phase: &Phase, given: Option<Outcome>) -> Result<Phase, NoMemory>
    ensures { IfOk result (λ new. transaction_of new
        ≡ where_live (gave (option_map given_in given)) (transaction_of phase.now)) }
{
    match phase {
        Phase::Alive(work) => {
            let copy = work_copied(alloc, work)?;
            let new = gave_work(copy, given)?;
            Ok(Phase::Alive(new))
        }
        Phase::Absent => Ok(Phase::Absent),
        Phase::Dead => Ok(Phase::Dead),
    }
}

/// The transaction with the lock of a table more.
fn locked_work(work: Work, table: u8) -> Result<Work, NoMemory>
    ensures { IfOk result (λ new. live_of new ≡ locked table (live_of work)) }
{
    let mut work = work;
    work.tables.push(table)?;
    Ok(work)
}

fn locked_phase(alloc: Global, phase: &Phase, table: u8) -> Result<Phase, NoMemory>
    ensures { IfOk result (λ new. transaction_of new
        ≡ where_live (locked table) (transaction_of phase.now)) }
{
    match phase {
        Phase::Alive(work) => {
            let copy = work_copied(alloc, work)?;
            let new = locked_work(copy, table)?;
            Ok(Phase::Alive(new))
        }
        Phase::Absent => Ok(Phase::Absent),
        Phase::Dead => Ok(Phase::Dead),
    }
}

/// What another's commit leaves of a transaction.
fn stale_work(work: Work, set: ChangeSet) -> Result<Work, NoMemory>
    ensures { IfOk result (λ new. live_of new
        ≡ made_stale (changes_of set.changes.items) (live_of work)) }
{
    let mut work = work;
    work.stale.push(set)?;
    Ok(work)
}

fn stale_phase(alloc: Global, set: &ChangeSet, phase: &Phase) -> Result<Phase, NoMemory>
    ensures { IfOk result (λ new. transaction_of new
        ≡ where_live (made_stale (changes_of set.now.changes.items)) (transaction_of phase.now)) }
{
    match phase {
        Phase::Alive(work) => {
            let copy = work_copied(alloc, work)?;
            let same = set_copied(alloc, set)?;
            let new = stale_work(copy, same)?;
            Ok(Phase::Alive(new))
        }
        Phase::Absent => Ok(Phase::Absent),
        Phase::Dead => Ok(Phase::Dead),
    }
}

fn all_stale(alloc: Global, set: &ChangeSet, phases: &[Phase]) -> Result<Vec<Phase>, NoMemory>
    ensures { IfOk result (λ all. map transaction_of all.items
        ≡ map (λ phase. where_live (made_stale (changes_of set.now.changes.items))
        (transaction_of phase)) phases.now) }
{
    let mut all: Vec<Phase> = Vec::new(alloc);
    for phase in phases {
        all.push(stale_phase(alloc, set, phase)?)?;
    }
    Ok(all)
}

/// The session's request is answered, and this is its transaction from now on.
fn settle(store: &mut Database, s: usize, phase: Phase)
    requires below { s < 65 }
    requires stored { IsStoredIn store.old.catalogue (transaction_of phase) }
    ensures { store_of store.new ≡ settled (store_of store.old) s (transaction_of phase) }
{
    drop(mem::replace(&mut store.phases[s], phase));
    drop(mem::replace(&mut store.requests[s], None));
}

/// A set is committed by a session.
fn commit_set(store: &mut Database, s: usize, set: ChangeSet) -> Result<(), NoMemory>
    requires below { s < 65 }
    requires stored { AreAllStored store.old.catalogue
        (laid_over (changes_of set.changes.items) (rows_of store.old.log.items)) }
    ensures { OnOk result ((t : Live) → t.changes ≡ changes_of set.changes.items
        → store_of store.new ≡ committed_by (store_of store.old) s (Alive t)) }
{
    let phases = all_stale(store.alloc, &set, store.phases.as_slice())?;
    store.log.push(set)?;
    store.phases = phases;
    settle(store, s, Phase::Absent);
    Ok(())
}

fn set_in(alloc: Global, phase: &Phase) -> Result<Option<ChangeSet>, NoMemory>
    ensures { IfOk result (λ set. IsSetIn phase.now set) }
{
    match phase {
        Phase::Alive(work) => Ok(Some(set_copied(alloc, &work.own)?)),
        Phase::Absent | Phase::Dead => Ok(None),
    }
}

fn commit(store: &mut Database, s: usize) -> Result<(), NoMemory>
    requires { s < 65 }
    ensures { OnOk result (store_of store.new
        ≡ committed_by (store_of store.old) s ((store_of store.old).transaction s)) }
{
    let phase = &store.phases[s];
    let found = set_in(store.alloc, phase)?;
    match found {
        Some(set) => commit_set(store, s, set),
        None => {
            settle(store, s, Phase::Absent);
            Ok(())
        }
    }
}

fn begin(store: &mut Database, s: usize) -> Result<(), NoMemory>
    requires { s < 65 }
    ensures { OnOk result (store_of store.new
        ≡ answered (store_of store.old) s requests.TakeSnapshot) }
{
    let work = begun_work(store.alloc, store.log.as_slice())?;
    settle(store, s, Phase::Alive(work));
    Ok(())
}

/// A request draws its numbers, where it is a statement.
fn draw(catalogue: &Catalogue, numbers: &mut NextNumbers, request: &Request)
    requires { IsKept catalogue.now (Some request.now) }
    ensures { next_of numbers.new ≡ drawn catalogue.now (next_of numbers.old) request.now }
{
    match request {
        Request::Run(statement) => numbers.draw(catalogue, statement),
        Request::TakeSnapshot
        | Request::Lock(_)
        | Request::Commit
        | Request::Rollback
        | Request::ReadSerial(_)
        | Request::SetSerial(_, _) => (),
    }
}

/// A request draws its numbers, where one waits and is a statement.
fn draw_waiting(catalogue: &Catalogue, numbers: &mut NextNumbers, waits: &Option<Request>)
    requires { IsKept catalogue.now waits.now }
    ensures { next_of numbers.new ≡ drawn_waiting catalogue.now (next_of numbers.old) waits.now }
{
    match waits {
        Some(request) => draw(catalogue, numbers, request),
        None => (),
    }
}

/// The statement of a session runs, and draws its numbers.
fn run(store: &mut Database, s: usize, statement: &Checked) -> Result<(), NoMemory>
    requires below { s < 65 }
    requires waits { request_at (slice_get store.old.requests.items s)
        ≡ Some (requests.Run statement.now) }
    requires few { DrawsFew statement.now.body }
    ensures { OnOk result (store_of store.new
        ≡ answered (store_of store.old) s (requests.Run statement.now)) }
{
    let given = given_at(store, s)?;
    let phase = &store.phases[s];
    let later = ran_phase(store.alloc, phase, given)?;
    settle(store, s, later);
    store.numbers.draw(&store.catalogue, statement);
    Ok(())
}

fn lock(store: &mut Database, s: usize, table: u8) -> Result<(), NoMemory>
    requires { s < 65 }
    ensures { OnOk result (store_of store.new
        ≡ answered (store_of store.old) s (requests.Lock table)) }
{
    let phase = &store.phases[s];
    let later = locked_phase(store.alloc, phase, table)?;
    settle(store, s, later);
    Ok(())
}

/// The session's request is answered, and nothing else changes.
fn tell(store: &mut Database, s: usize)
    requires { s < 65 }
    ensures { store_of store.new
        ≡ settled (store_of store.old) s ((store_of store.old).transaction s) }
{
    drop(mem::replace(&mut store.requests[s], None));
}

/// The next number of a table's serial column is set.
fn set_number(store: &mut Database, s: usize, table: u8, next: i64)
    requires below { s < 65 }
    requires positive { pos 1 ≤ℤ next }
    ensures { store_of store.new
        ≡ answered (store_of store.old) s (requests.SetSerial table next) }
{
    tell(store, s);
    store.numbers.set(table, Some(next));
}

/// What an answer leaves that is no refusal, to a request that waits.
fn answer(store: &mut Database, s: usize, request: &Request) -> Result<(), NoMemory>
    requires below { s < 65 }
    requires waits { request_at (slice_get store.old.requests.items s) ≡ Some request.now }
    ensures { OnOk result (store_of store.new ≡ answered (store_of store.old) s request.now) }
{
    match request {
        Request::TakeSnapshot => begin(store, s),
        Request::Run(statement) => run(store, s, statement),
        Request::Lock(table) => lock(store, s, *table),
        Request::Commit => commit(store, s),
        Request::Rollback => {
            settle(store, s, Phase::Absent);
            Ok(())
        }
        Request::ReadSerial(_) => {
            tell(store, s);
            Ok(())
        }
        Request::SetSerial(table, next) => {
            set_number(store, s, *table, *next);
            Ok(())
        }
    }
}

fn is_refusal(answer: &Answer) -> bool
    ensures { result ≡ is_refusal answer.now }
{
    match answer {
        Answer::Refused(_) => true,
        Answer::Began
        | Answer::Rows(_)
        | Answer::Count(_)
        | Answer::Locked
        | Answer::Done
        | Answer::Serial(_) => false,
    }
}

/// A session's request is refused: its transaction is dead, and what it has drawn stays drawn.
fn refuse(store: &mut Database, s: usize, request: &Request)
    requires below { s < 65 }
    requires waits { request_at (slice_get store.old.requests.items s) ≡ Some request.now }
    ensures { store_of store.new ≡ refused (store_of store.old) s request.now }
{
    draw(&store.catalogue, &mut store.numbers, request);
    settle(store, s, Phase::Dead);
}

/// What an answer leaves, to a request that waits.
fn act_on(store: &mut Database, s: usize, request: &Request, told: &Answer) -> Result<(), NoMemory>
    requires below { s < 65 }
    requires waits { request_at (slice_get store.old.requests.items s) ≡ Some request.now }
    ensures { OnOk result (store_of store.new ≡ acted (store_of store.old) s request.now told.now) }
{
    if is_refusal(told) {
        refuse(store, s, request);
        return Ok(());
    }
    answer(store, s, request)
}

impl Database {
    /// Puts a request of a session.
    pub fn post(&mut self, s: SessionId, request: Request)
        requires { MayPost (store_of self.old) s.number request }
        ensures { store_of self.new ≡ posted (store_of self.old) s.number request }
    {
        let at = s.number as usize;
        drop(mem::replace(&mut self.requests[at], Some(request)));
        self.crossed[at] = false;
    }

    /// It gives a session that answer. After want of memory nothing is said of it.
    pub fn act(&mut self, s: SessionId, told: &Answer) -> Result<(), NoMemory>
        ensures { OnOk result (store_of self.new
            ≡ acted_at (store_of self.old) s.number told.now) }
    {
        let at = s.number as usize;
        let waits = &self.requests[at];
        let copy = waiting_copied(waits)?;
        match copy {
            Some(request) => {
                let done = act_on(self, at, &request, told);
                drop(request);
                done
            }
            None => Ok(()),
        }
    }

    /// The store once it has given a session that answer.
    pub fn acted(self, s: SessionId, answer: &Answer) -> Result<Database, NoMemory>
        ensures { IfOk result (λ new. store_of new
            ≡ acted_at (store_of self) s.number answer.now) }
    {
        let mut store = self;
        store.act(s, answer)?;
        Ok(store)
    }

    /// A session's transaction and its request are no more. What a statement has drawn stays drawn.
    pub fn fall(&mut self, s: SessionId)
        ensures { store_of self.new ≡ died (store_of self.old) s.number }
    {
        let at = s.number as usize;
        draw_waiting(&self.catalogue, &mut self.numbers, &self.requests[at]);
        settle(self, at, Phase::Absent);
    }

    /// Loses it: it acts no more.
    pub fn lose(&mut self)
        ensures { store_of self.new ≡ lost_by (store_of self.old) }
    {
        self.is_lost = true;
    }
}
