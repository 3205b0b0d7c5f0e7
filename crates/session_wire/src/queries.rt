//! What is done at a Query.
ghost use Rattle.std.specs.Prelude.{◌≡◌, Some, IfOk, OnOk};
ghost use Rattle.std.specs.List.{list_any};
ghost use Rattle.wire_extended.specs.Keeping.{DropsUnnamed};
ghost use Rattle.wire_query.specs.Texts.{is_control};
ghost use Rattle.session_wire.specs.Heeds.{RefusesNamed};
ghost use Rattle.session_wire.specs.Hears.{refuse, refusing};
ghost use Rattle.session_wire.specs.Queries.{Queries, QueriesText, Starts as StartsText, is_mixed, started};
ghost use Rattle.session_wire.specs.Sayings.{RoomFor};
ghost use Rattle.session_wire.specs.Shown.{shown};

use crate::due::Due;
use crate::wire::Wire;
use pg_messages::ServerMessage;
use pool_base::{List, NoMemory};
use session_orders::OrderBody;
use sql_tree::Statement;
use wire_query::{Reading, is_control, read_text};
use wire_reply::message_bytes;
use wire_session::{Refusal, not_in_profile};

impl Wire {
    /// Orders that what is named be refused, as a Query is.
    pub(crate) fn refuse_named(&mut self, name: &str) -> Result<Option<OrderBody>, NoMemory>
        ensures refuses { IfOk result (λ body. RefusesNamed name.now body (shown self.old)
            (shown self.new)) }
        ensures room { IfOk result (λ body. RoomFor body self.new.output) }
    {
        let refusal = not_in_profile(self.alloc, name)?;
        Ok(Some(self.refuse_query(refusal, false)))
    }

    pub(crate) fn query(&mut self, text: List<u8>) -> Result<Option<OrderBody>, NoMemory>
        ensures queries { IfOk result (λ body. QueriesText text body (shown self.old)
            (shown self.new)) }
        ensures room { IfOk result (λ body. RoomFor body self.new.output) }
    {
        let reading = read_text(self.alloc, text.as_slice())?;
        let empty = message_bytes(self.alloc, &ServerMessage::Empty)?;
        let several = not_in_profile(
            self.alloc,
            "transaction control in a text of several statements",
        )?;
        self.drop_unnamed();
        let body = self.query_read(reading, several, empty)?;
        Ok(body)
    }

    /// Drops the statement and the portal of the empty name.
    fn drop_unnamed(&mut self)
        ensures names { shown self.new ≡ record (shown self.old) { session = self.new.session } }
        ensures drops { DropsUnnamed self.old.session self.new.session }
    {
        self.session.statements.close(&[]);
        self.session.portals.close(&[]);
    }

    /// A text that was read: it is refused, or its statements are to be asked for.
    fn query_read(
        &mut self,
        reading: Reading,
        several: Refusal,
        empty: List<u8>,
    ) -> Result<Option<OrderBody>, NoMemory>
        ensures queries { IfOk result (λ body. Queries reading several empty body (shown self.old)
            (shown self.new)) }
        ensures room { IfOk result (λ body. RoomFor body self.new.output) }
    {
        match reading {
            Reading::Refused(refusal) => Ok(Some(self.refuse_query(refusal, false))),
            Reading::Statements(statements) => {
                let body = self.query_all(statements, several, empty)?;
                Ok(body)
            }
        }
    }

    fn query_all(
        &mut self,
        statements: List<Statement>,
        several: Refusal,
        empty: List<u8>,
    ) -> Result<Option<OrderBody>, NoMemory>
        ensures queries { IfOk result (λ body. StartsText (is_mixed statements) statements several
            empty body (shown self.old) (shown self.new)) }
        ensures room { IfOk result (λ body. RoomFor body self.new.output) }
    {
        if is_mixed(statements.as_slice()) {
            drop(statements);
            return Ok(Some(self.refuse_query(several, false)));
        }
        self.begin(statements, empty)?;
        Ok(None)
    }

    /// The statements of a text are to be asked for one by one, and then settled.
    fn begin(&mut self, statements: List<Statement>, empty: List<u8>) -> Result<(), NoMemory>
        ensures ok { OnOk result (shown self.new ≡ started statements empty (shown self.old)) }
    {
        match statements.as_slice() {
            [] => self.output.held.extend_from_slice(empty.as_slice())?,
            [_, ..] => {}
        }
        drop(std::mem::replace(&mut self.text, statements));
        self.at = 0;
        self.settles = true;
        Ok(())
    }

    /// Orders that a Query be refused; it is settled then.
    pub(crate) fn refuse_query(&mut self, refusal: Refusal, last: bool) -> OrderBody
        ensures shown { shown self.new ≡ refusing refusal last (shown self.old) }
        ensures order { result ≡ refuse refusal }
        ensures output { self.new.output ≡ self.old.output }
    {
        let Refusal { saying, code, name } = refusal;
        self.at = self.text.len();
        self.settles = true;
        self.due = Some(Due::Refused { code, saying, last });
        OrderBody::Refuse { code, name }
    }
}

fn has_control(statements: &[Statement]) -> bool
    ensures { result ≡ list_any is_control statements.now }
{
    for statement in statements {
        if is_control(statement) {
            return true;
        }
    }
    false
}

/// Whether control stands in a text of several statements.
fn is_mixed(statements: &[Statement]) -> bool
    ensures { result ≡ is_mixed statements.now }
{
    statements.len() > 1 && has_control(statements)
}
