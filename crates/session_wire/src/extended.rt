//! The messages of the extended query.
ghost use Rattle.std.specs.Prelude.{◌≡◌, Some, IfOk};
ghost use Rattle.schema.specs.Grammar.{IsWithin};
ghost use Rattle.wire_extended.specs.Keeping.{Drops};
ghost use Rattle.session_wire.specs.Asking.{has_failed};
ghost use Rattle.session_wire.specs.Heeds.{BindsPortal, Closes, Describes, Executes, LeadsTo, Parses, Replies, TellsDescribe};
ghost use Rattle.session_wire.specs.Hears.{declining, refuse, with_session};
ghost use Rattle.session_wire.specs.Sayings.{RoomFor};
ghost use Rattle.session_wire.specs.Shown.{shown};

use crate::due::Due;
use crate::wire::Wire;
use catalogue::Catalogue;
use pg_messages::ServerMessage;
use pool_base::{List, NoMemory};
use session_orders::OrderBody;
use wire_extended::{
    Binding, Executed, Replied, bind_portal, describe_portal, describe_statement, execute, parse,
};
use wire_reply::message_bytes;
use wire_session::Refusal;

impl Wire {
    /// A reply without an order, or the order of a refusal.
    fn replied(&mut self, replied: Replied) -> Result<Option<OrderBody>, NoMemory>
        ensures replies { IfOk result (λ body. Replies replied body (shown self.old)
            (shown self.new)) }
        ensures room { IfOk result (λ body. RoomFor body self.new.output) }
    {
        match replied {
            Replied::Bytes(bytes) => {
                self.output.bytes.extend_from_slice(bytes.as_slice())?;
                Ok(None)
            }
            Replied::Refused(refusal) => Ok(Some(self.decline(refusal))),
        }
    }

    /// Orders that an extended message be refused.
    fn decline(&mut self, refusal: Refusal) -> OrderBody
        ensures shown { shown self.new ≡ declining refusal (shown self.old) }
        ensures order { result ≡ refuse refusal }
        ensures output { self.new.output ≡ self.old.output }
    {
        let Refusal { saying, code, name } = refusal;
        self.due = Some(Due::Declined { code, saying });
        OrderBody::Refuse { code, name }
    }

    pub(crate) fn parse(
        &mut self,
        tables: &Catalogue,
        name: List<u8>,
        text: &[u8],
        kinds: &[u32],
    ) -> Result<Option<OrderBody>, NoMemory>
        requires within { IsWithin tables.now }
        ensures parses { IfOk result (λ body. Parses tables.now name text.now kinds.now body
            (shown self.old) (shown self.new)) }
        ensures room { IfOk result (λ body. RoomFor body self.new.output) }
    {
        let replied = parse(self.alloc, tables, &mut self.session, name, text, kinds)?;
        let body = self.replied(replied)?;
        Ok(body)
    }

    pub(crate) fn bind(&mut self, binding: Binding) -> Result<Option<OrderBody>, NoMemory>
        ensures binds { IfOk result (λ body. BindsPortal binding body (shown self.old)
            (shown self.new)) }
        ensures room { IfOk result (λ body. RoomFor body self.new.output) }
    {
        let replied = bind_portal(self.alloc, &mut self.session, binding)?;
        let body = self.replied(replied)?;
        Ok(body)
    }

    fn described(&self, portal: bool, name: &[u8]) -> Result<Replied, NoMemory>
        ensures { IfOk result (TellsDescribe portal (has_failed (shown self.now)) name.now
            (shown self.now).session) }
    {
        if portal {
            let replied = describe_portal(self.alloc, &self.session, name)?;
            return Ok(replied);
        }
        let replied = describe_statement(self.alloc, &self.session, name)?;
        Ok(replied)
    }

    pub(crate) fn describe(
        &mut self,
        portal: bool,
        name: &[u8],
    ) -> Result<Option<OrderBody>, NoMemory>
        ensures describes { IfOk result (λ body. Describes portal name.now body (shown self.old)
            (shown self.new)) }
        ensures room { IfOk result (λ body. RoomFor body self.new.output) }
    {
        let replied = self.described(portal, name)?;
        let body = self.replied(replied)?;
        Ok(body)
    }

    pub(crate) fn close(&mut self, portal: bool, name: &[u8]) -> Result<Option<OrderBody>, NoMemory>
        ensures closes { IfOk result (λ body. Closes portal name.now body (shown self.old)
            (shown self.new)) }
        ensures room { IfOk result (λ body. RoomFor body self.new.output) }
    {
        let reply = message_bytes(self.alloc, &ServerMessage::CloseComplete)?;
        self.output.bytes.extend_from_slice(reply.as_slice())?;
        self.drop_name(portal, name);
        Ok(None)
    }

    /// Drops the portal of a name, or else the statement, if it is there.
    fn drop_name(&mut self, portal: bool, name: &[u8])
        ensures names { shown self.new ≡ with_session self.new.session (shown self.old) }
        ensures drops { Drops portal name.now self.old.session self.new.session }
    {
        if portal {
            self.session.portals.close(name);
        } else {
            self.session.statements.close(name);
        }
    }

    /// Executes a portal: its order, its rows, or why it is refused.
    pub(crate) fn execute(
        &mut self,
        portal: List<u8>,
        limit: i32,
    ) -> Result<Option<OrderBody>, NoMemory>
        ensures executes { IfOk result (λ body. Executes portal limit body (shown self.old)
            (shown self.new)) }
        ensures room { IfOk result (λ body. RoomFor body self.new.output) }
    {
        self.make_room()?;
        let executed = execute(self.alloc, &mut self.session, portal.as_slice(), limit)?;
        let body = self.led(portal, limit, executed)?;
        Ok(body)
    }

    fn led(
        &mut self,
        portal: List<u8>,
        limit: i32,
        executed: Executed,
    ) -> Result<Option<OrderBody>, NoMemory>
        ensures leads { IfOk result (λ body. LeadsTo executed portal limit body (shown self.old)
            (shown self.new)) }
        ensures output { (b : _) → IfOk result (λ body. body ≡ Some b
            → self.new.output ≡ self.old.output) }
    {
        match executed {
            Executed::Bytes(bytes) => {
                self.output.bytes.extend_from_slice(bytes.as_slice())?;
                self.session.portals.advance(portal.as_slice(), limit);
                Ok(None)
            }
            Executed::Order(body) => {
                self.due = Some(Due::Execute { portal, limit });
                Ok(Some(body))
            }
            Executed::Refused(refusal) => Ok(Some(self.decline(refusal))),
        }
    }
}
