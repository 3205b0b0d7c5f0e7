//! What is known of a session at a backend: whether it has a transaction there, what it waits for,
//! and which table it has locked last.
//!
//! ```text
//!             Begin                    Commit, Rollback
//! Nothing -----------> Live -------------------------------> Nothing
//!    |                 | ^ \-- Run, Lock: a result --/          ^
//!    |    a refusal    | +---------------------------+          |
//!    +------> Dead <---+------------- Rollback -----------------+
//! ```
//!
//! All transitions are made by `after_answer`, once an answer comes; a post changes what is waited
//! for alone.
ghost use Rattle.std.specs.Prelude.{◌≡◌, ◌↔◌, true, IsTrue, Some};
ghost use Rattle.backend_trait.specs.Runnable.{IsRunnable};
ghost use Rattle.backend_trait.specs.Store.{is_refusal};
ghost use Rattle.classifier.specs.Classes.{lock_of};
ghost use Rattle.backend_rolls.specs.Known.{Admits, HasLock, MayPostBy, MayRun, MaySet, after_answer, after_poll, after_post, awaits_as, has_serial, holds_behind, locked_behind, nothing_known};
ghost use Rattle.backend_rolls.specs.declared.known.Awaits.TheVariants as awaiting;
ghost use Rattle.backend_rolls.specs.declared.known.Holds.TheVariants as holding;

use backend_trait::{Answer, Catalogue, Checked, Polled, Request, is_runnable};
use classifier::lock_of;

/// Whether a session has a transaction at a backend.
#[derive(Clone, Copy)]
pub enum Holds {
    Nothing,
    Live,
    Dead,
}

/// What a session waits for at a backend, by what the answer leaves.
#[derive(Clone, Copy)]
pub enum Awaits {
    Nothing,
    /// A transaction begins.
    Begin,
    /// The transaction goes on.
    Work,
    /// The transaction goes on with that table locked.
    Lock(u8),
    /// The transaction ends.
    End,
}

/// What is known of a session at a backend.
#[derive(Clone, Copy)]
pub struct Known {
    pub holds: Holds,
    pub awaits: Awaits,
    /// The table that its transaction has locked last.
    pub locked: Option<u8>,
}

impl Known {
    /// It has no transaction, and waits for nothing.
    pub fn nothing() -> Known
        ensures { result ≡ nothing_known }
    {
        Known {
            holds: Holds::Nothing,
            awaits: Awaits::Nothing,
            locked: None,
        }
    }

    /// Whether it waits for nothing.
    pub fn is_idle(self) -> bool
        ensures { IsTrue result ↔ (self.awaits ≡ awaiting.Nothing) }
    {
        match self.awaits {
            Awaits::Nothing => true,
            Awaits::Begin | Awaits::Work | Awaits::Lock(_) | Awaits::End => false,
        }
    }

    /// Whether it has no transaction.
    fn is_free(self) -> bool
        ensures { IsTrue result ↔ (self.holds ≡ holding.Nothing) }
    {
        match self.holds {
            Holds::Nothing => true,
            Holds::Live | Holds::Dead => false,
        }
    }

    /// Whether its transaction is live.
    fn is_live(self) -> bool
        ensures { IsTrue result ↔ (self.holds ≡ holding.Live) }
    {
        match self.holds {
            Holds::Live => true,
            Holds::Nothing | Holds::Dead => false,
        }
    }

    /// Whether it has the lock that is wanted, if one is.
    fn has_lock(self, wanted: Option<u8>) -> bool
        ensures { IsTrue result ↔ HasLock self.locked wanted }
    {
        match wanted {
            None => true,
            Some(table) => match self.locked {
                Some(locked) => locked == table,
                None => false,
            },
        }
    }

    /// Whether its transaction may run a statement, at a backend of these tables.
    fn may_run(self, tables: &Catalogue, statement: &Checked) -> bool
        ensures { IsTrue result ↔ MayRun tables.now self statement.now }
    {
        self.is_live() && self.has_lock(lock_of(statement)) && is_runnable(tables, statement)
    }

    /// Whether its transaction may set the number of a table's serial column, at a backend of these
    /// tables.
    fn may_set(self, tables: &Catalogue, table: u8, number: i64) -> bool
        ensures { IsTrue result ↔ MaySet tables.now self table number }
    {
        self.is_live() && self.has_lock(Some(table)) && has_serial(tables, table) && number >= 1
    }

    /// Whether its transaction allows the request, at a backend of these tables.
    fn admits(self, tables: &Catalogue, request: &Request) -> bool
        ensures { IsTrue result ↔ Admits tables.now self request.now }
    {
        match request {
            Request::TakeSnapshot => self.is_free(),
            Request::Run(statement) => self.may_run(tables, statement),
            Request::Lock(_) | Request::Commit => self.is_live(),
            Request::Rollback => true,
            Request::ReadSerial(table) => has_serial(tables, *table),
            Request::SetSerial(table, number) => self.may_set(tables, *table, *number),
        }
    }

    /// Whether it may post the request to a backend of these tables.
    pub fn may_post(self, tables: &Catalogue, request: &Request) -> bool
        ensures { IsTrue result ↔ MayPostBy tables.now self request.now }
    {
        self.is_idle() && self.admits(tables, request)
    }

    /// What is known once it has posted a request.
    pub fn after_post(self, request: &Request) -> Known
        ensures { result ≡ after_post self request.now }
    {
        Known {
            holds: self.holds,
            awaits: awaits_of(request),
            locked: self.locked,
        }
    }

    /// What is known once an answer has come: a refusal, or none.
    fn after_answer(self, refused: bool) -> Known
        ensures { result ≡ after_answer self refused }
    {
        if refused {
            return Known {
                holds: Holds::Dead,
                awaits: Awaits::Nothing,
                locked: None,
            };
        }
        Known {
            holds: self.holds_behind(),
            awaits: Awaits::Nothing,
            locked: self.locked_behind(),
        }
    }

    /// Whether there is a transaction behind an answer that is no refusal.
    fn holds_behind(self) -> Holds
        ensures { result ≡ holds_behind self.holds self.awaits }
    {
        match self.awaits {
            Awaits::Begin => Holds::Live,
            Awaits::End => Holds::Nothing,
            Awaits::Nothing | Awaits::Work | Awaits::Lock(_) => self.holds,
        }
    }

    /// The table that is locked last behind an answer that is no refusal.
    fn locked_behind(self) -> Option<u8>
        ensures { result ≡ locked_behind self.locked self.awaits }
    {
        match self.awaits {
            Awaits::Begin | Awaits::End => None,
            Awaits::Lock(table) => Some(table),
            Awaits::Nothing | Awaits::Work => self.locked,
        }
    }

    /// What is known behind a poll.
    pub fn after_poll(self, polled: &Polled) -> Known
        ensures { result ≡ after_poll self polled.now }
    {
        match polled {
            Polled::Answered(answer) => self.after_answer(is_refusal(answer)),
            Polled::NotYet | Polled::Lost | Polled::NoMemory => self,
        }
    }
}

/// Whether a table has a serial column.
fn has_serial(tables: &Catalogue, table: u8) -> bool
    ensures { result ≡ has_serial tables.now table }
{
    match tables.table(table) {
        Some(table) => table.serial.is_some(),
        None => false,
    }
}

/// What is waited for behind a request.
fn awaits_of(request: &Request) -> Awaits
    ensures { result ≡ awaits_as (Some request.now) }
{
    match request {
        Request::TakeSnapshot => Awaits::Begin,
        Request::Run(_) | Request::ReadSerial(_) | Request::SetSerial(_, _) => Awaits::Work,
        Request::Lock(table) => Awaits::Lock(*table),
        Request::Commit | Request::Rollback => Awaits::End,
    }
}

/// Whether an answer is a refusal.
fn is_refusal(answer: &Answer) -> bool
    ensures { result ≡ is_refusal answer.now }
{
    match answer {
        Answer::Refused(_) => true,
        Answer::Began
        | Answer::Rows(_)
        | Answer::Count(_)
        | Answer::Locked
        | Answer::Done
        | Answer::Serial(_) => false,
    }
}
