//! Requests as messages.
ghost use Rattle.std.specs.Prelude.{◌≡◌, ◌++◌, IfOk, OnOk, Err, None};
ghost use Rattle.postgres_talk.specs.Texts.{Sends, end_text, next_text, query, snapshot_text, text_of};

use crate::texts::{lock_text, read_serial_text, set_serial_text};
use backend_trait::Request;
use catalogue::{Catalogue, Checked, CheckedBody};
use checked_print::print_checked;
use pg_messages::{ClientMessage, fits, write_client};
use pg_values::ColType;
use pool_base::{List, NoMemory, Text};
use postgres_link::{Verb, Wanted, Word};
use std::alloc::Global;

/// How many bytes of the message Query stand around its text.
const HEAD: usize = 6;

/// A request as it is sent, and what it is to be answered by.
#[derive(Drop)]
pub struct Spelled {
    pub bytes: List<u8>,
    pub wanted: Wanted,
}

/// How a block ends.
#[derive(Clone, Copy, Debug)]
pub enum Ending {
    Commit,
    Rollback,
}

/// Why a request is not sent.
#[derive(Clone, Copy, Debug, Drop)]
pub enum NotSpelled {
    /// Its text does not fit into a message.
    TooLong,
    /// It names a table, or a serial column, that is not there.
    NotThere,
    NoMemory,
}

impl From<NoMemory> for NotSpelled {
    ghost use Rattle.postgres_talk.specs.declared.spelled.NotSpelled.TheVariants as fault;

    ghost from_gives = { λ _ given. given ≡ fault.NoMemory };

    fn from(_: NoMemory) -> NotSpelled {
        NotSpelled::NoMemory
    }
}

/// Puts a text behind the bytes, as the message Query.
fn put_query(text: &[u8], onto: &mut List<u8>) -> Result<(), NotSpelled>
    ensures put { OnOk result (onto.new ≡ onto.old ++ query text.now) }
    ensures there { result ≡ Err NotSpelled.NotThere → ⊥ }
{
    onto.reserve(text.len().saturating_add(HEAD))?;
    let text = List::from_slice(onto.allocator(), text)?;
    let message = ClientMessage::Query { text };
    if !fits(&message) {
        drop(message);
        return Err(NotSpelled::TooLong);
    }
    let written = write_client(&message, onto);
    drop(message);
    Ok(written?)
}

/// A text, and what it is to be answered by.
fn one_text(alloc: Global, text: &[u8], wanted: Wanted) -> Result<Spelled, NotSpelled>
    ensures bytes { IfOk result (λ spelled. spelled.bytes ≡ query text.now) }
    ensures there { result ≡ Err NotSpelled.NotThere → ⊥ }
{
    let mut bytes = List::new(alloc);
    match put_query(text, &mut bytes) {
        Ok(()) => Ok(Spelled { bytes, wanted }),
        Err(fault) => {
            drop(wanted);
            Err(fault)
        }
    }
}

/// The same, where the text is there.
fn if_there(alloc: Global, text: Option<Text>, wanted: Wanted) -> Result<Spelled, NotSpelled>
    ensures bytes { IfOk result (λ spelled. Sends text spelled.bytes) }
    ensures there { result ≡ Err NotSpelled.NotThere → text ≡ None }
{
    let Some(text) = text else {
        drop(wanted);
        return Err(NotSpelled::NotThere);
    };
    one_text(alloc, text.as_bytes(), wanted)
}

/// A text that opens a block by this word, and takes its snapshot by `SELECT 1`.
fn opening(alloc: Global, text: &[u8], word: Word) -> Result<Spelled, NotSpelled>
    ensures bytes { IfOk result (λ spelled. spelled.bytes ≡ query text.now) }
    ensures there { result ≡ Err NotSpelled.NotThere → ⊥ }
{
    let kinds = List::from_slice(alloc, &[ColType::Int4])?;
    let wanted = Wanted::Rows {
        kinds,
        opener: Some(word),
    };
    one_text(alloc, text, wanted)
}

/// `BEGIN ISOLATION LEVEL REPEATABLE READ; SELECT 1`: its second statement takes the snapshot.
fn snapshot(alloc: Global) -> Result<Spelled, NotSpelled>
    ensures bytes { IfOk result (λ spelled. spelled.bytes ≡ query snapshot_text) }
    ensures there { result ≡ Err NotSpelled.NotThere → ⊥ }
{
    let text = b"BEGIN ISOLATION LEVEL REPEATABLE READ; SELECT 1";
    opening(alloc, text, Word::Begin)
}

/// The message of a block's end, and what it is to be answered by.
pub fn spell_end(alloc: Global, ending: Ending) -> Result<Spelled, NotSpelled>
    ensures bytes { IfOk result (λ spelled. spelled.bytes ≡ query (end_text ending)) }
    ensures there { result ≡ Err NotSpelled.NotThere → ⊥ }
{
    match ending {
        Ending::Commit => one_text(alloc, b"COMMIT", Wanted::Done(Word::Commit)),
        Ending::Rollback => one_text(alloc, b"ROLLBACK", Wanted::Done(Word::Rollback)),
    }
}

/// The message of a block's end and of the next snapshot in one, and what it is to be answered by:
/// the next block is of the same kind. A server that is in no block refuses it.
pub fn spell_next(alloc: Global, ending: Ending) -> Result<Spelled, NotSpelled>
    ensures bytes { IfOk result (λ spelled. spelled.bytes ≡ query (next_text ending)) }
    ensures there { result ≡ Err NotSpelled.NotThere → ⊥ }
{
    match ending {
        Ending::Commit => opening(alloc, b"COMMIT AND CHAIN; SELECT 1", Word::Commit),
        Ending::Rollback => opening(alloc, b"ROLLBACK AND CHAIN; SELECT 1", Word::Rollback),
    }
}

/// Rows with columns of these types.
fn rows_of(kinds: List<ColType>) -> Wanted {
    Wanted::Rows {
        kinds,
        opener: None,
    }
}

/// The types of the columns of a statement's result.
fn kinds_of(alloc: Global, checked: &Checked) -> Result<List<ColType>, NoMemory> {
    let mut kinds = List::new(alloc);
    for column in checked.columns.as_slice() {
        kinds.push(column.kind)?;
    }
    Ok(kinds)
}

/// What a statement is to be answered by.
fn wanted_of(alloc: Global, checked: &Checked) -> Result<Wanted, NoMemory> {
    match &checked.body {
        CheckedBody::Read(_) => Ok(rows_of(kinds_of(alloc, checked)?)),
        CheckedBody::Insert(_) => Ok(Wanted::Count(Verb::Insert)),
        CheckedBody::Change(_) => Ok(Wanted::Count(Verb::Update)),
        CheckedBody::Remove(_) => Ok(Wanted::Count(Verb::Delete)),
    }
}

fn statement(alloc: Global, tables: &Catalogue, checked: &Checked) -> Result<Spelled, NotSpelled>
    ensures bytes { IfOk result (λ spelled. Sends (text_of tables.now (Request.Run checked.now))
        spelled.bytes) }
    ensures there { result ≡ Err NotSpelled.NotThere → ⊥ }
{
    let text = print_checked(alloc, tables, checked)?;
    let wanted = wanted_of(alloc, checked)?;
    one_text(alloc, text.as_bytes(), wanted)
}

/// The types of what is read of a sequence: its last number, and whether it was given out.
fn sequence_kinds(alloc: Global) -> Result<List<ColType>, NoMemory> {
    List::from_slice(alloc, &[ColType::Int8, ColType::Bool])
}

/// The messages of a request, and what they are to be answered by.
pub fn spell(alloc: Global, tables: &Catalogue, request: &Request) -> Result<Spelled, NotSpelled>
    // What is sent is the request's text in one message, and nothing else.
    ensures bytes { IfOk result (λ spelled. Sends (text_of tables.now request.now) spelled.bytes) }

    ensures there { result ≡ Err NotSpelled.NotThere → text_of tables.now request.now ≡ None }
{
    match request {
        Request::TakeSnapshot => snapshot(alloc),
        Request::Run(checked) => statement(alloc, tables, checked),
        Request::Lock(table) => {
            let text = lock_text(alloc, tables, *table)?;
            if_there(alloc, text, Wanted::Done(Word::LockTable))
        }
        Request::Commit => spell_end(alloc, Ending::Commit),
        Request::Rollback => spell_end(alloc, Ending::Rollback),
        Request::ReadSerial(table) => {
            let kinds = sequence_kinds(alloc)?;
            let text = read_serial_text(alloc, tables, *table)?;
            if_there(alloc, text, rows_of(kinds))
        }
        Request::SetSerial(table, next) => {
            let kinds = List::from_slice(alloc, &[ColType::Int8])?;
            let text = set_serial_text(alloc, tables, *table, *next)?;
            if_there(alloc, text, rows_of(kinds))
        }
    }
}
