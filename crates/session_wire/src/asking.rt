//! What is ordered of a text that was read: its statements one by one, and then that it be settled.
ghost use Rattle.std.specs.Prelude.{◌≡◌, ◌<◌, length, Some, IfOk, OnOk};
ghost use Rattle.schema.specs.Grammar.{IsWithin};
ghost use Rattle.session_wire.specs.Asking.{AsksFirst, Orders, OrdersFirst, OrdersNext};
ghost use Rattle.session_wire.specs.Sayings.{HasRoom};
ghost use Rattle.session_wire.specs.Shown.{shown};

use crate::due::{Due, due_of};
use crate::wire::Wire;
use catalogue::Catalogue;
use pool_base::NoMemory;
use session_orders::OrderBody;
use wire_query::{Asked, ask};

/// So many bytes an outcome without rows takes at most.
const OUTCOME_ROOM: usize = 1200;

impl Wire {
    /// The next order of what was read before: a statement's, or a Settle.
    pub(crate) fn asked(&mut self, tables: &Catalogue) -> Result<Option<OrderBody>, NoMemory>
        requires within { IsWithin tables.now }
        ensures orders { IfOk result (λ body. OrdersNext tables.now (shown self.old).left
            (shown self.old).settles body (shown self.old) (shown self.new)) }
        ensures room { IfOk result (λ body. (b : _) → body ≡ Some b → HasRoom self.new.output) }
    {
        if self.at < self.text.len() {
            let body = self.ask_statement(tables)?;
            return Ok(Some(body));
        }
        if !self.settles {
            return Ok(None);
        }
        self.make_room()?;
        self.settles = false;
        self.due = Some(Due::Settle);
        Ok(Some(OrderBody::Settle))
    }

    /// Room for the end of a transaction: its outcome takes no memory then.
    pub(crate) fn make_room(&mut self) -> Result<(), NoMemory>
        ensures same { shown self.new ≡ shown self.old }
        ensures text { self.new.text ≡ self.old.text }
        ensures at { self.new.at ≡ self.old.at }
        ensures room { OnOk result (HasRoom self.new.output) }
    {
        let Some(room) = self.output.held.len().checked_add(OUTCOME_ROOM) else {
            return Err(NoMemory);
        };
        self.output.bytes.reserve(room)?;
        self.output.held.reserve(OUTCOME_ROOM)?;
        Ok(())
    }

    fn ask_statement(&mut self, tables: &Catalogue) -> Result<OrderBody, NoMemory>
        requires within { IsWithin tables.now }
        requires some { self.old.at < length self.old.text }
        ensures orders { IfOk result (λ body. OrdersFirst tables.now body (shown self.old)
            (shown self.new)) }
        ensures room { OnOk result (HasRoom self.new.output) }
    {
        self.make_room()?;
        let asked = self.ask_first(tables)?;
        Ok(self.take_asked(asked))
    }

    /// What the first statement that is left asks for.
    fn ask_first(&self, tables: &Catalogue) -> Result<Asked, NoMemory>
        requires within { IsWithin tables.now }
        requires some { self.now.at < length self.now.text }
        ensures { IfOk result (AsksFirst tables.now (shown self.now).session.status
            (shown self.now).session.implicit (shown self.now).left) }
    {
        let statements = self.text.as_slice();
        let statement = &statements[self.at];
        let status = self.session.status;
        let asked = ask(self.alloc, tables, statement, status, self.session.implicit)?;
        Ok(asked)
    }

    /// Orders what a statement asks for, or that its text be refused.
    fn take_asked(&mut self, asked: Asked) -> OrderBody
        requires some { self.old.at < length self.old.text }
        ensures orders { Orders asked result (shown self.old) (shown self.new) }
        ensures output { self.new.output ≡ self.old.output }
    {
        let count = self.text.len();
        let last = self.at + 1 == count;
        match asked {
            Asked::Order { body, description } => {
                self.at += 1;
                self.due = Some(due_of(&body, description, last));
                body
            }
            Asked::Refused(refusal) => self.refuse_query(refusal, last),
        }
    }
}
