//! What is done at each message.
ghost use Rattle.std.specs.Prelude.{◌≡◌, ◌<◌, ◌≤◌, length, drop, true, [], None, Some, is_some, IfOk, IsTrue, OnOk, OnErr};
ghost use Rattle.session_wire.specs.declared.wire.WireStep.TheVariants.{NeedInput, NeedOutcome, Close, Order as Ordered};
ghost use Rattle.pg_messages.specs.declared.read.Read.TheVariants.{Whole};
ghost use Rattle.session_wire.specs.Waiting.{Falls, IsWaiting, work};
ghost use Rattle.pg_messages.specs.Fronts.{start_front, client_front};
ghost use Rattle.schema.specs.Grammar.{IsWithin};
ghost use Rattle.session_wire.specs.declared.wire.Stage.TheVariants.{Starting, Open, Closed};
ghost use Rattle.session_wire.specs.Cuts.{Takes};
ghost use Rattle.session_wire.specs.Sayings.{HasRoom, RoomBehind, RoomFor, ends};
ghost use Rattle.session_wire.specs.Shown.{shown};
ghost use Rattle.session_wire.specs.Starts.{failing, broken, too_long, Waits, rejected, without, Starts, GreetsAs};
ghost use Rattle.session_wire.specs.Heeds.{Heard, Hears, Heeds, HeedsOther};
ghost use Rattle.session_wire.specs.Steps.{Goes, GoesAt, IsNext, Meets, Opens, is_answered, step_of};

use crate::output::report;
use crate::wire::{Stage, Wire, WireStep};
use catalogue::Catalogue;
use pg_messages::{ClientMessage, Read, StartMessage, read_client, read_start};
use pool_base::{Code, NoMemory};
use session_orders::{Order, OrderBody};
use wire_extended::Binding;
use wire_reply::{Saying, Severity};
use wire_start::{Greeting, Rejection, greeting_of, opening_bytes};

impl Wire {
    /// The next order, or why there is none.
    pub fn next(&mut self, tables: &Catalogue, moment: i64) -> Result<WireStep, NoMemory>
        requires within { IsWithin tables.now }
        // It is the one that the rules of the dialogue lead to, step by step.
        ensures exact { IfOk result (λ step. IsNext tables.now moment (shown self.old) step
            (shown self.new)) }
        // All orders but a Leave have an outcome, and while one is awaited nothing is ordered.
        ensures due { (o : _) → IfOk result (λ step. step ≡ Ordered o
            → is_answered o.body ≡ true → is_some (shown self.new).due ≡ true) }
        ensures awaits { is_some (shown self.old).due ≡ true → IfOk result (λ step.
            (step ≡ NeedOutcome) × (shown self.new ≡ shown self.old)) }
        // Whole messages are taken from the front of what was fed, one after another.
        ensures takes { OnOk result (Takes (shown self.old) (shown self.new)) }
        // More input is asked for where the bytes that are left are less than a message, nothing of
        // the messages before is to be ordered, and the input has not ended.
        ensures waits { IfOk result (λ step. step ≡ NeedInput → IsWaiting (shown self.new)) }
        ensures closes { (refused : _) → IfOk result (λ step. step ≡ Close refused
            → (shown self.new).stage ≡ Closed refused) }
        // There is room for the outcome of what may end a transaction.
        ensures room { (o : _) → IfOk result (λ step. step ≡ Ordered o → IsTrue (ends o.body)
            → HasRoom self.new.output) }
    {
        loop {
            if let Some(step) = self.one(tables, moment)? {
                return Ok(step);
            }
        }
    }

    /// One step: an order, the end, or one message more; nothing while an outcome is awaited.
    fn one(&mut self, tables: &Catalogue, moment: i64) -> Result<Option<WireStep>, NoMemory>
        requires within { IsWithin tables.now }
        ensures goes { IfOk result (λ step. Goes tables.now moment (shown self.old) step
            (shown self.new)) }
        ensures takes { OnOk result (Takes (shown self.old) (shown self.new)) }
        ensures falls { IfOk result (λ step. Falls step (shown self.old) (shown self.new)) }
        ensures room { IfOk result (λ step. RoomBehind step self.new.output) }
    {
        if self.due.is_some() {
            return Ok(Some(WireStep::NeedOutcome));
        }
        let step = self.at_stage(tables, moment)?;
        Ok(step)
    }

    /// One step of a wire that awaits no outcome.
    fn at_stage(&mut self, tables: &Catalogue, moment: i64) -> Result<Option<WireStep>, NoMemory>
        requires within { IsWithin tables.now }
        ensures goes { IfOk result (λ step. GoesAt tables.now moment (shown self.old).stage
            (shown self.old) step (shown self.new)) }
        ensures takes { OnOk result (Takes (shown self.old) (shown self.new)) }
        ensures falls { IfOk result (λ step. Falls step (shown self.old) (shown self.new)) }
        ensures room { IfOk result (λ step. RoomBehind step self.new.output) }
    {
        match self.stage {
            Stage::Closed { refused } => Ok(Some(WireStep::Close { refused })),
            Stage::Leaving { refused } => {
                self.stage = Stage::Closed { refused };
                Ok(Some(order(moment, OrderBody::Leave)))
            }
            Stage::Starting { ssl, gss } => self.start(ssl, gss),
            Stage::Open => self.go_on(tables, moment),
        }
    }

    /// One step of a client that was let in.
    fn go_on(&mut self, tables: &Catalogue, moment: i64) -> Result<Option<WireStep>, NoMemory>
        requires within { IsWithin tables.now }
        requires open { (shown self.old).stage ≡ Open }
        ensures opens { IfOk result (λ step. Opens tables.now moment (shown self.old).left
            (shown self.old).settles (shown self.old) step (shown self.new)) }
        ensures takes { OnOk result (Takes (shown self.old) (shown self.new)) }
        ensures falls { IfOk result (λ step. Falls step (shown self.old) (shown self.new)) }
        ensures room { IfOk result (λ step. RoomBehind step self.new.output) }
    {
        match self.asked(tables)? {
            Some(body) => Ok(Some(order(moment, body))),
            None => {
                let step = self.message(tables, moment)?;
                Ok(step)
            }
        }
    }

    /// The bytes that there are begin no whole message.
    fn wait(&mut self) -> Option<WireStep>
        ensures waits { Waits (shown self.old) (shown self.new) result }
    {
        if self.ended {
            self.stage = Stage::Leaving { refused: false };
            None
        } else {
            Some(WireStep::NeedInput)
        }
    }

    /// The session ends with an error.
    fn fail(&mut self, code: Code, saying: Saying, name: &[u8]) -> Result<(), NoMemory>
        requires short { length name.now ≤ 1000 }
        ensures ok { OnOk result (shown self.new ≡ failing code.bytes saying name.now
            (shown self.old)) }
        ensures err { OnErr result (shown self.new ≡ shown self.old) }
    {
        report(&mut self.output.bytes, Severity::Fatal, code, saying, name)?;
        self.stage = Stage::Leaving { refused: true };
        Ok(())
    }

    fn fail_bytes(&mut self) -> Result<(), NoMemory>
        ensures ok { OnOk result (shown self.new ≡ broken (shown self.old)) }
        ensures err { OnErr result (shown self.new ≡ shown self.old) }
    {
        self.fail(Code { bytes: *b"08P01" }, Saying::ProtocolViolation, &[])
    }

    fn fail_length(&mut self) -> Result<(), NoMemory>
        ensures ok { OnOk result (shown self.new ≡ too_long (shown self.old)) }
        ensures err { OnErr result (shown self.new ≡ shown self.old) }
    {
        self.fail(Code { bytes: *b"54000" }, Saying::LimitPassed, &[])
    }

    fn start(&mut self, ssl: bool, gss: bool) -> Result<Option<WireStep>, NoMemory>
        requires starting { (shown self.old).stage ≡ Starting ssl gss }
        ensures takes { OnOk result (Takes (shown self.old) (shown self.new)) }
        ensures ok { IfOk result (Starts ssl gss (start_front (shown self.old).rest)
            (shown self.old) (shown self.new)) }
        ensures falls { IfOk result (λ step. Falls step (shown self.old) (shown self.new)) }
        ensures err { OnErr result (shown self.new ≡ shown self.old) }
    {
        match self.first_front()? {
            Read::More => Ok(self.wait()),
            Read::Bad { .. } => {
                self.fail_bytes()?;
                Ok(None)
            }
            Read::TooLong { .. } => {
                self.fail_length()?;
                Ok(None)
            }
            Read::Whole { message, length } => self.take_first(ssl, gss, message, length),
        }
    }

    fn greet(&mut self, ssl: bool, gss: bool, message: StartMessage) -> Result<(), NoMemory>
        ensures rest { (shown self.new).rest ≡ (shown self.old).rest }
        ensures ok { OnOk result (GreetsAs ssl gss message (shown self.old) (shown self.new)) }
        ensures err { OnErr result (shown self.new ≡ shown self.old) }
    {
        match greeting_of(ssl, gss, message) {
            Greeting::Declined { ssl, gss } => {
                self.output.bytes.push(b'N')?;
                self.stage = Stage::Starting { ssl, gss };
                Ok(())
            }
            Greeting::LetIn { options } => {
                let opening = opening_bytes(self.alloc, self.s)?;
                self.output.bytes.extend_from_slice(opening.as_slice())?;
                self.options = options;
                self.stage = Stage::Open;
                Ok(())
            }
            Greeting::Refused(rejection) => self.reject(rejection),
            Greeting::Cancelled => {
                self.stage = Stage::Closed { refused: false };
                Ok(())
            }
        }
    }

    fn reject(&mut self, rejection: Rejection) -> Result<(), NoMemory>
        ensures ok { OnOk result (shown self.new ≡ rejected rejection (shown self.old)) }
        ensures err { OnErr result (shown self.new ≡ shown self.old) }
    {
        match rejection {
            Rejection::AskedTwice => self.fail_bytes(),
            Rejection::MinorVersion => {
                let code = Code { bytes: *b"0A000" };
                self.fail(code, Saying::NotInProfile, b"protocol minor version")
            }
            Rejection::Encoding => self.fail(Code { bytes: *b"22023" }, Saying::NotUtf8, &[]),
        }
    }

    /// What stands at the front of what was fed, before the client is let in.
    #[tactic(auto, using(crate::proofs::Lengths::start_len))]
    fn first_front(&self) -> Result<Read<StartMessage>, NoMemory>
        ensures exact { IfOk result (λ read. read ≡ start_front (shown self.now).rest) }
        ensures fits { IfOk result (λ read. (m : _) (n : _) → read ≡ Whole m n
            → (0 < n) × (n ≤ length (shown self.now).rest)) }
    {
        let bytes = self.input.as_slice();
        let read = read_start(self.alloc, bytes)?;
        Ok(read)
    }

    /// What stands at the front of what was fed, behind that.
    #[tactic(auto, using(crate::proofs::Lengths::client_len))]
    fn later_front(&self) -> Result<Read<ClientMessage>, NoMemory>
        ensures exact { IfOk result (λ read. read ≡ client_front (shown self.now).rest) }
        ensures fits { IfOk result (λ read. (m : _) (n : _) → read ≡ Whole m n
            → (0 < n) × (n ≤ length (shown self.now).rest)) }
    {
        let bytes = self.input.as_slice();
        let read = read_client(self.alloc, bytes)?;
        Ok(read)
    }

    /// Drops the bytes of a message.
    fn drop_input(&mut self, count: usize)
        requires fits { count ≤ length (shown self.old).rest }
        ensures shown { shown self.new ≡ without count (shown self.old) }
        ensures output { self.new.output ≡ self.old.output }
    {
        self.input.take(count);
    }

    fn take_first(
        &mut self,
        ssl: bool,
        gss: bool,
        message: StartMessage,
        count: usize,
    ) -> Result<Option<WireStep>, NoMemory>
        requires starting { (shown self.old).stage ≡ Starting ssl gss }
        requires some { 0 < count }
        requires fits { count ≤ length (shown self.old).rest }
        requires front { start_front (shown self.old).rest ≡ Whole message count }
        ensures ok { IfOk result (Starts ssl gss (Whole message count) (shown self.old)
            (shown self.new)) }
        ensures takes { OnOk result (Takes (shown self.old) (shown self.new)) }
        ensures falls { OnOk result (work (shown self.new) < work (shown self.old)) }
        ensures err { OnErr result (shown self.new ≡ shown self.old) }
    {
        self.greet(ssl, gss, message)?;
        self.drop_input(count);
        Ok(None)
    }

    fn take_later(
        &mut self,
        tables: &Catalogue,
        moment: i64,
        message: ClientMessage,
        count: usize,
    ) -> Result<Option<WireStep>, NoMemory>
        requires within { IsWithin tables.now }
        requires open { (shown self.old).stage ≡ Open }
        requires some { 0 < count }
        requires fits { count ≤ length (shown self.old).rest }
        requires front { client_front (shown self.old).rest ≡ Whole message count }
        ensures meets { IfOk result (λ step. Meets tables.now moment (Whole message count)
            (shown self.old) step (shown self.new)) }
        ensures takes { OnOk result (Takes (shown self.old) (shown self.new)) }
        ensures falls { OnOk result (work (shown self.new) < work (shown self.old)) }
        ensures room { IfOk result (λ step. RoomBehind step self.new.output) }
    {
        let body = self.take(tables, message)?;
        self.drop_input(count);
        Ok(step_of(moment, body))
    }

    fn message(&mut self, tables: &Catalogue, moment: i64) -> Result<Option<WireStep>, NoMemory>
        requires within { IsWithin tables.now }
        requires open { (shown self.old).stage ≡ Open }
        ensures meets { IfOk result (λ step. Meets tables.now moment
            (client_front (shown self.old).rest) (shown self.old) step (shown self.new)) }
        ensures takes { OnOk result (Takes (shown self.old) (shown self.new)) }
        ensures falls { IfOk result (λ step. Falls step (shown self.old) (shown self.new)) }
        ensures room { IfOk result (λ step. RoomBehind step self.new.output) }
    {
        match self.later_front()? {
            Read::More => Ok(self.wait()),
            Read::Bad { .. } => {
                self.fail_bytes()?;
                Ok(None)
            }
            Read::TooLong { .. } => {
                self.fail_length()?;
                Ok(None)
            }
            Read::Whole { message, length } => {
                let step = self.take_later(tables, moment, message, length)?;
                Ok(step)
            }
        }
    }

    /// Takes a message, and answers it where it asks for no order.
    fn take(
        &mut self,
        tables: &Catalogue,
        message: ClientMessage,
    ) -> Result<Option<OrderBody>, NoMemory>
        requires within { IsWithin tables.now }
        ensures hears { IfOk result (λ body. Hears tables.now message body (shown self.old)
            (shown self.new)) }
        ensures room { IfOk result (λ body. RoomFor body self.new.output) }
    {
        match message {
            ClientMessage::Terminate => {
                self.stage = Stage::Leaving { refused: false };
                Ok(None)
            }
            ClientMessage::Sync => {
                self.session.skipping = false;
                self.settles = true;
                Ok(None)
            }
            ClientMessage::Flush => Ok(None),
            other => {
                let body = self.hear(tables, other)?;
                Ok(body)
            }
        }
    }

    /// Takes a message that is dropped up to the next Sync where an error went before.
    fn hear(
        &mut self,
        tables: &Catalogue,
        message: ClientMessage,
    ) -> Result<Option<OrderBody>, NoMemory>
        requires within { IsWithin tables.now }
        ensures heard { IfOk result (λ body. Heard tables.now message body (shown self.old)
            (shown self.new)) }
        ensures room { IfOk result (λ body. RoomFor body self.new.output) }
    {
        if self.session.skipping {
            drop(message);
            return Ok(None);
        }
        // A reply finds room, so that a name is put only where its reply is.
        self.make_room()?;
        let body = self.heed(tables, message)?;
        Ok(body)
    }

    /// Takes a message that is not dropped.
    fn heed(
        &mut self,
        tables: &Catalogue,
        message: ClientMessage,
    ) -> Result<Option<OrderBody>, NoMemory>
        requires within { IsWithin tables.now }
        ensures heeds { IfOk result (λ body. Heeds tables.now message body (shown self.old)
            (shown self.new)) }
        ensures room { IfOk result (λ body. RoomFor body self.new.output) }
    {
        match message {
            ClientMessage::Query { text } => self.query(text),
            ClientMessage::Parse { name, text, kinds } => {
                self.parse(tables, name, text.as_slice(), kinds.as_slice())
            }
            ClientMessage::Bind {
                portal,
                name,
                formats,
                values,
                results,
            } => self.bind(Binding {
                portal,
                name,
                formats,
                values,
                results,
            }),
            ClientMessage::Describe { portal, name } => self.describe(portal, name.as_slice()),
            ClientMessage::Close { portal, name } => self.close(portal, name.as_slice()),
            ClientMessage::Execute { portal, limit } => self.execute(portal, limit),
            ClientMessage::Other { tag } => self.other(tag),
            ClientMessage::Flush | ClientMessage::Sync | ClientMessage::Terminate => Ok(None),
        }
    }

    /// A function call and a password are refused; parts of a COPY are passed over.
    fn other(&mut self, tag: u8) -> Result<Option<OrderBody>, NoMemory>
        ensures heeds { IfOk result (λ body. HeedsOther tag body (shown self.old)
            (shown self.new)) }
        ensures room { IfOk result (λ body. RoomFor body self.new.output) }
    {
        if tag == b'F' {
            return self.refuse_named("message F");
        }
        if tag == b'p' {
            return self.refuse_named("message p");
        }
        Ok(None)
    }
}

/// The order of a message, if it asks for one.
fn step_of(moment: i64, body: Option<OrderBody>) -> Option<WireStep>
    ensures { result ≡ step_of moment body }
{
    match body {
        Some(body) => Some(order(moment, body)),
        None => None,
    }
}

pub(crate) fn order(moment: i64, body: OrderBody) -> WireStep
    ensures { result ≡ Ordered (record { moment = moment; body = body }) }
{
    WireStep::Order(Order { moment, body })
}
