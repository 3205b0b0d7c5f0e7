//! What becomes of an order, as bytes for the client.
ghost use Rattle.std.specs.Prelude.{◌≡◌, ◌≤◌, [], length, nat_eq, false, true, None, Some, IfOk, IsTrue, IsOk, OnOk};
ghost use Rattle.wire_reply.specs.Rows.{AreInRange};
ghost use Rattle.session_wire.specs.Answers.{MayAnswer, Says, SaysExecute, SaysRecovery, SaysRefused, SaysStatement, code_of, ends_block, ends_now, implicit_after, keeps_portals, left_after, of_recovery, saying_of, skips};
ghost use Rattle.wire_session.specs.Kept.{HasNone};
ghost use Rattle.session_wire.specs.Hears.{with_session};
ghost use Rattle.session_wire.specs.Sayings.{HasRoom};
ghost use Rattle.session_wire.specs.Shown.{frame_of, shown};
ghost use Rattle.session_wire.specs.declared.due.Due.TheVariants as dues;
ghost use Rattle.session_orders.specs.declared.outcome.Outcome.TheVariants.{Rows, Nodes, Error as Failed};

use crate::due::Due;
use crate::wire::Wire;
use pool_base::{BackendSet, Code, List, NoMemory, Text};
use pool_config::Config;
use session_orders::{Outcome, Tag};
use sql_eval::Row;
use wire_extended::first_rows;
use wire_nodes::nodes_bytes;
use wire_reply::{Saying, of_backend, rows_bytes};

impl Wire {
    /// Takes the outcome of the last order, and the status of the session behind it: `I`, `T` or
    /// `E`.
    pub fn answer(&mut self, config: &Config, outcome: Outcome, status: u8) -> Result<(), NoMemory>
        requires range { MayAnswer outcome }
        // What is told, by what the order was for.
        ensures says { (due : _) → (shown self.old).due ≡ Some due
            → OnOk result (Says config.now.nodes due outcome status (shown self.old)
            (shown self.new)) }
        ensures status { (due : _) → (shown self.old).due ≡ Some due
            → OnOk result ((shown self.new).session.status ≡ status) }
        ensures implicit { (due : _) → (shown self.old).due ≡ Some due
            → OnOk result ((shown self.new).session.implicit
            ≡ implicit_after (shown self.old).session.implicit outcome status) }
        ensures skips { (due : _) → (shown self.old).due ≡ Some due
            → OnOk result ((shown self.new).session.skipping
            ≡ skips due outcome (shown self.old).session.skipping) }
        // All else stays: the bytes that were fed and not taken, where the session stands, the
        // names of statements. An error of a Query drops the statements that are left of its text.
        ensures kept { frame_of (shown self.new) ≡ frame_of (shown self.old) }
        ensures left { (due : _) → (shown self.old).due ≡ Some due
            → OnOk result ((shown self.new).left ≡ left_after due outcome (shown self.old).left) }
        ensures portals { (due : _) → (shown self.old).due ≡ Some due
            → keeps_portals due outcome status ≡ true
            → OnOk result ((shown self.new).session.portals ≡ (shown self.old).session.portals) }
        // Portals end with their block, and outside one with Settle.
        ensures ended { (due : _) → (shown self.old).due ≡ Some due → ends_block outcome ≡ true
            → OnOk result (HasNone (shown self.new).session.portals) }
        ensures settled { (shown self.old).due ≡ Some dues.Settle → status ≡ 73
            → OnOk result (HasNone (shown self.new).session.portals) }
        // The order has its outcome; without one that waits for it nothing is done.
        ensures gone { (shown self.new).due ≡ None }
        ensures none { (shown self.old).due ≡ None → shown self.new ≡ shown self.old }

        // The end of a block, and a Settle, take no memory where there is room for them.
        ensures commit { (due : _) → (shown self.old).due ≡ Some due
            → IsTrue (ends_now due outcome) → HasRoom self.old.output → IsOk result }
    {
        match self.due.take() {
            None => {
                drop(outcome);
                Ok(())
            }
            Some(due) => {
                let implicit = implicit_after(self.session.implicit, &outcome, status);
                let ends = ends_block(&outcome);
                self.say(config, due, outcome, status)?;
                self.turn(implicit, status, ends);
                Ok(())
            }
        }
    }

    /// Where the session stands behind an outcome. Where a block ended no portal is left.
    fn turn(&mut self, implicit: bool, status: u8, ends: bool)
        ensures status { self.new.session.status ≡ status }
        ensures implicit { self.new.session.implicit ≡ implicit }
        ensures skipping { self.new.session.skipping ≡ self.old.session.skipping }
        ensures output { self.new.output ≡ self.old.output }
        ensures due { self.new.due ≡ self.old.due }
        ensures session { shown self.new ≡ with_session self.new.session (shown self.old) }
        ensures statements { self.new.session.statements ≡ self.old.session.statements }
        ensures portals { ends ≡ false → self.new.session.portals ≡ self.old.session.portals }
        ensures ended { ends ≡ true → HasNone self.new.session.portals }
        ensures kept { HasNone self.old.session.portals → HasNone self.new.session.portals }
    {
        self.session.implicit = implicit;
        self.session.status = status;
        if ends {
            self.session.portals.clear();
        }
    }

    fn say(
        &mut self,
        config: &Config,
        due: Due,
        outcome: Outcome,
        status: u8,
    ) -> Result<(), NoMemory>
        requires range { MayAnswer outcome }
        ensures says { OnOk result (Says config.now.nodes due outcome status (shown self.old)
            (shown self.new)) }
        ensures skips { OnOk result (self.new.session.skipping
            ≡ skips due outcome self.old.session.skipping) }
        ensures due { self.new.due ≡ self.old.due }
        ensures kept { frame_of (shown self.new) ≡ frame_of (shown self.old) }
        ensures left { OnOk result ((shown self.new).left
            ≡ left_after due outcome (shown self.old).left) }
        ensures portals { keeps_portals due outcome status ≡ true
            → OnOk result (self.new.session.portals ≡ self.old.session.portals) }
        ensures settled { due ≡ dues.Settle → status ≡ 73
            → OnOk result (HasNone self.new.session.portals) }
        ensures commit { IsTrue (ends_now due outcome) → HasRoom self.old.output → IsOk result }
    {
        match due {
            Due::Statement { description, last } => {
                self.statement(config, description, last, outcome)?;
                Ok(())
            }
            Due::Recovery { last } => {
                self.recovered(last, outcome)?;
                Ok(())
            }
            Due::Refused { code, saying, last } => {
                self.refused(code, saying, last, outcome)?;
                Ok(())
            }
            Due::Declined { code, saying } => {
                self.refused(code, saying, false, outcome)?;
                self.session.skipping = true;
                Ok(())
            }
            Due::Execute { portal, limit } => {
                self.executed(portal, limit, outcome)?;
                Ok(())
            }
            Due::Settle => {
                self.settled(outcome, status)?;
                Ok(())
            }
        }
    }

    /// The outcome of a statement of a Query. An error ends the text.
    #[tactic(auto, using(crate::proofs::Saying::none_left))]
    fn statement(
        &mut self,
        config: &Config,
        description: List<u8>,
        last: bool,
        outcome: Outcome,
    ) -> Result<(), NoMemory>
        requires range { MayAnswer outcome }
        ensures says { OnOk result (SaysStatement config.now.nodes description last outcome
            (shown self.old) (shown self.new)) }
        ensures session { self.new.session ≡ self.old.session }
        ensures due { self.new.due ≡ self.old.due }
        ensures kept { frame_of (shown self.new) ≡ frame_of (shown self.old) }
        ensures left { OnOk result ((shown self.new).left ≡ left_after
            (dues.Statement description last) outcome (shown self.old).left) }
        ensures commit { IsTrue (ends_now (dues.Statement description last) outcome)
            → HasRoom self.old.output → IsOk result }
    {
        match outcome {
            Outcome::Rows { rows, tag } => {
                self.rows(description, rows.as_slice(), tag, last)?;
                Ok(())
            }
            Outcome::Done { tag, warning } => {
                self.output.put_done(self.alloc, last, tag, warning)?;
                Ok(())
            }
            Outcome::Nodes(attached) => {
                self.nodes(config, attached, last)?;
                Ok(())
            }
            Outcome::Error { code, name } => {
                drop(name);
                self.at = self.text.len();
                self.output.put_error(last, code, of_backend(code), &[])?;
                Ok(())
            }
            Outcome::Settled => {
                self.output.put(last, &[])?;
                Ok(())
            }
        }
    }

    /// The rows of a statement of a Query behind their description, and its tag.
    fn rows(
        &mut self,
        description: List<u8>,
        rows: &[Row],
        tag: Tag,
        last: bool,
    ) -> Result<(), NoMemory>
        requires range { AreInRange rows.now }
        ensures says { OnOk result ((nodes : _) → SaysStatement nodes description last
            (Rows rows.now tag) (shown self.old) (shown self.new)) }
        ensures session { self.new.session ≡ self.old.session }
        ensures due { self.new.due ≡ self.old.due }
        ensures kept { frame_of (shown self.new) ≡ frame_of (shown self.old) }
        ensures left { (shown self.new).left ≡ (shown self.old).left }
    {
        let bytes = rows_bytes(self.alloc, rows, &[])?;
        self.output.put(last, description.as_slice())?;
        self.output.put(last, bytes.as_slice())?;
        self.output.put_done(self.alloc, last, tag, None)?;
        Ok(())
    }

    /// The rows of SHOW pool_nodes.
    fn nodes(&mut self, config: &Config, attached: BackendSet, last: bool) -> Result<(), NoMemory>
        ensures says { OnOk result ((description : _) → SaysStatement config.now.nodes description
            last (Nodes attached) (shown self.old) (shown self.new)) }
        ensures session { self.new.session ≡ self.old.session }
        ensures due { self.new.due ≡ self.old.due }
        ensures kept { frame_of (shown self.new) ≡ frame_of (shown self.old) }
        ensures left { (shown self.new).left ≡ (shown self.old).left }
    {
        let bytes = nodes_bytes(self.alloc, config.nodes.as_slice(), attached)?;
        self.output.put(last, bytes.as_slice())?;
        self.output.put_done(self.alloc, last, Tag::Show, None)?;
        Ok(())
    }

    /// The outcome of a recovery, whose reply waits for Settle or not. An error ends the text.
    fn recovered(&mut self, waits: bool, outcome: Outcome) -> Result<(), NoMemory>
        requires range { MayAnswer outcome }
        ensures says { OnOk result (SaysRecovery waits outcome (shown self.old)
            (shown self.new)) }
        ensures session { self.new.session ≡ self.old.session }
        ensures due { self.new.due ≡ self.old.due }
        ensures kept { frame_of (shown self.new) ≡ frame_of (shown self.old) }
        ensures left { OnOk result ((shown self.new).left ≡ left_after (dues.Recovery waits) outcome
            (shown self.old).left) }
    {
        match outcome {
            Outcome::Done { tag, warning } => {
                self.output.put_done(self.alloc, waits, tag, warning)?;
                Ok(())
            }
            Outcome::Error { code, name } => {
                self.report_recovered(waits, code, name)?;
                Ok(())
            }
            other => {
                drop(other);
                self.output.put(waits, &[])?;
                Ok(())
            }
        }
    }

    #[tactic(auto, using(crate::proofs::Saying::none_left))]
    fn report_recovered(&mut self, waits: bool, code: Code, name: Text) -> Result<(), NoMemory>
        requires short { length name ≤ 1000 }
        ensures says { OnOk result (SaysRecovery waits (Failed code name) (shown self.old)
            (shown self.new)) }
        ensures session { self.new.session ≡ self.old.session }
        ensures due { self.new.due ≡ self.old.due }
        ensures kept { frame_of (shown self.new) ≡ frame_of (shown self.old) }
        ensures left { (shown self.new).left ≡ [] }
    {
        self.at = self.text.len();
        let saying = of_recovery(code, name.as_bytes());
        self.output.put_error(waits, code, saying, name.as_bytes())?;
        Ok(())
    }

    /// The outcome of a refusal: the code that was refused has the text of its cause.
    fn refused(
        &mut self,
        asked: Code,
        saying: Saying,
        last: bool,
        outcome: Outcome,
    ) -> Result<(), NoMemory>
        requires range { MayAnswer outcome }
        ensures says { OnOk result (SaysRefused asked saying last outcome (shown self.old)
            (shown self.new)) }
        ensures session { self.new.session ≡ self.old.session }
        ensures due { self.new.due ≡ self.old.due }
        ensures kept { frame_of (shown self.new) ≡ frame_of (shown self.old) }
        ensures left { (shown self.new).left ≡ (shown self.old).left }
    {
        match outcome {
            Outcome::Error { code, name } => {
                let saying = saying_of(asked, saying, code);
                self.output.put_error(last, code, saying, name.as_bytes())?;
                Ok(())
            }
            other => {
                drop(other);
                self.output.put(last, &[])?;
                Ok(())
            }
        }
    }

    /// The outcome of an Execute. After an error messages are dropped up to the next Sync.
    fn executed(&mut self, portal: List<u8>, limit: i32, outcome: Outcome) -> Result<(), NoMemory>
        requires range { MayAnswer outcome }
        ensures says { OnOk result (SaysExecute portal limit outcome (shown self.old)
            (shown self.new)) }
        ensures skips { OnOk result (self.new.session.skipping
            ≡ skips (dues.Execute portal limit) outcome self.old.session.skipping) }
        ensures due { self.new.due ≡ self.old.due }
        ensures kept { frame_of (shown self.new) ≡ frame_of (shown self.old) }
        ensures left { (shown self.new).left ≡ (shown self.old).left }
        ensures portals { (status : _) → keeps_portals (dues.Execute portal limit) outcome status
            ≡ true → OnOk result (self.new.session.portals ≡ self.old.session.portals) }
        ensures commit { IsTrue (ends_now (dues.Execute portal limit) outcome)
            → HasRoom self.old.output → IsOk result }
    {
        match outcome {
            Outcome::Rows { rows, tag: _ } => {
                self.first_rows(portal, limit, rows.as_slice())?;
                Ok(())
            }
            Outcome::Done { tag, warning } => {
                self.output.put_done(self.alloc, false, tag, warning)?;
                Ok(())
            }
            Outcome::Error { code, name } => {
                drop(name);
                self.output.put_error(false, code, of_backend(code), &[])?;
                self.session.skipping = true;
                Ok(())
            }
            Outcome::Settled | Outcome::Nodes(_) => {
                self.output.put(false, &[])?;
                Ok(())
            }
        }
    }

    /// The first rows of a portal.
    fn first_rows(&mut self, portal: List<u8>, limit: i32, rows: &[Row]) -> Result<(), NoMemory>
        requires range { AreInRange rows.now }
        ensures says { OnOk result ((tag : _) → SaysExecute portal limit (Rows rows.now tag)
            (shown self.old) (shown self.new)) }
        ensures skipping { self.new.session.skipping ≡ self.old.session.skipping }
        ensures due { self.new.due ≡ self.old.due }
        ensures kept { frame_of (shown self.new) ≡ frame_of (shown self.old) }
        ensures left { (shown self.new).left ≡ (shown self.old).left }
    {
        let name = portal.as_slice();
        let bytes = first_rows(self.alloc, &mut self.session.portals, name, limit, rows)?;
        self.output.put(false, bytes.as_slice())?;
        Ok(())
    }

    /// The outcome of a Settle: the reply that waited, or an error in its place, and the end of the
    /// answer. Outside a block no portal is left.
    fn settled(&mut self, outcome: Outcome, status: u8) -> Result<(), NoMemory>
        ensures says { OnOk result ((nodes : _) → Says nodes dues.Settle outcome status
            (shown self.old) (shown self.new)) }
        ensures skipping { self.new.session.skipping ≡ self.old.session.skipping }
        ensures due { self.new.due ≡ self.old.due }
        ensures kept { frame_of (shown self.new) ≡ frame_of (shown self.old) }
        ensures left { (shown self.new).left ≡ (shown self.old).left }
        ensures portals { nat_eq status 73 ≡ false
            → OnOk result (self.new.session.portals ≡ self.old.session.portals) }
        ensures settled { status ≡ 73 → OnOk result (HasNone self.new.session.portals) }
        ensures commit { HasRoom self.old.output → IsOk result }
    {
        let error = code_of(&outcome);
        drop(outcome);
        self.output.settle(error, status)?;
        if status != b'I' {
            return Ok(());
        }
        self.session.portals.clear();
        Ok(())
    }
}

/// What is said of the code of an error in answer to a recovery.
///
/// House rule: `0A000` has the text of what is not taken where a name comes with it, which is so
/// where the order was refused; a backend's has no name.
fn of_recovery(code: Code, name: &[u8]) -> Saying
    ensures { result ≡ of_recovery code.bytes name.now }
{
    if code.bytes == *b"55000" {
        Saying::NotRecoverable
    } else if code.bytes == *b"0A000" && !name.is_empty() {
        Saying::NotInProfile
    } else {
        of_backend(code)
    }
}

/// What is said of the code of an outcome of a refusal.
fn saying_of(asked: Code, saying: Saying, code: Code) -> Saying
    ensures { result ≡ saying_of asked.bytes saying code.bytes }
{
    if code.bytes == asked.bytes {
        saying
    } else {
        of_backend(code)
    }
}

/// The code of an error.
fn code_of(outcome: &Outcome) -> Option<Code>
    ensures { result ≡ code_of outcome.now }
{
    match outcome {
        Outcome::Error { code, .. } => Some(*code),
        Outcome::Rows { .. } | Outcome::Done { .. } | Outcome::Settled | Outcome::Nodes(_) => None,
    }
}

/// Whether a transaction is live behind an outcome that no block began.
fn implicit_after(before: bool, outcome: &Outcome, status: u8) -> bool
    ensures { result ≡ implicit_after before outcome.now status }
{
    match outcome {
        Outcome::Nodes(_) => before,
        Outcome::Error { .. } | Outcome::Settled => false,
        Outcome::Rows { .. } => status == b'I',
        Outcome::Done { tag, .. } => match tag {
            Tag::Insert(_) | Tag::Update(_) | Tag::Delete(_) | Tag::Select(_) => status == b'I',
            Tag::Begin | Tag::Commit | Tag::Rollback | Tag::Show | Tag::Recover => false,
        },
    }
}

/// Whether a block was ended.
fn ends_block(outcome: &Outcome) -> bool
    ensures { result ≡ ends_block outcome.now }
{
    match outcome {
        Outcome::Done { tag, .. } => match tag {
            Tag::Commit | Tag::Rollback => true,
            Tag::Insert(_) | Tag::Update(_) | Tag::Delete(_) | Tag::Select(_) => false,
            Tag::Begin | Tag::Show | Tag::Recover => false,
        },
        Outcome::Rows { .. } | Outcome::Error { .. } | Outcome::Settled | Outcome::Nodes(_) => {
            false
        }
    }
}
