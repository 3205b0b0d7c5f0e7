//! The messages that are measured. Each message of a client takes 64 bytes.
ghost use Rattle.std.specs.Prelude.{◌≡◌, ◌+◌, length, IfOk, OnOk};
ghost use Rattle.bench.specs.Runs.{IsSample};
ghost use Rattle.pg_messages.specs.Server as server;

use pg_messages::{ClientMessage, ServerMessage, write_client};
use pool_base::{List, NoMemory};
use std::alloc::Global;

/// A statement as a text.
pub fn query(alloc: Global) -> Result<ClientMessage, NoMemory>
    ensures { IfOk result IsSample }
{
    let text = b"SELECT v, w FROM accounts WHERE id = 1000001 AND v > 25000";
    Ok(ClientMessage::Query {
        text: List::from_slice(alloc, text)?,
    })
}

/// A statement to be prepared, with a parameter of type int4.
pub fn parse(alloc: Global) -> Result<ClientMessage, NoMemory>
    ensures { IfOk result IsSample }
{
    let text = b"SELECT v, w FROM accounts WHERE id=$1 AND v > 10";
    Ok(ClientMessage::Parse {
        name: List::from_slice(alloc, b"S_1")?,
        text: List::from_slice(alloc, text)?,
        kinds: List::from_slice(alloc, &[23])?,
    })
}

/// The value of a text.
fn some(alloc: Global, text: &[u8]) -> Result<Option<List<u8>>, NoMemory>
    ensures { IfOk result (λ made. made ≡ Some text.now) }
{
    Ok(Some(List::from_slice(alloc, text)?))
}

/// A portal of a statement with two parameters.
pub fn bind(alloc: Global) -> Result<ClientMessage, NoMemory>
    ensures { IfOk result IsSample }
{
    let mut values = List::new(alloc);
    values.push(some(alloc, b"1000001")?)?;
    values.push(some(alloc, b"2026-11-27 04:05:06.789012+00")?)?;
    Ok(ClientMessage::Bind {
        portal: List::new(alloc),
        name: List::from_slice(alloc, b"S_1")?,
        formats: List::new(alloc),
        values,
        results: List::from_slice(alloc, &[0, 0])?,
    })
}

/// A row of a number, a text, a null and a moment.
pub fn row(alloc: Global) -> Result<ServerMessage, NoMemory>
    ensures { IfOk result server.Fits }
{
    let mut values = List::new(alloc);
    values.push(some(alloc, b"1000001")?)?;
    values.push(some(alloc, b"Ada Lovelace")?)?;
    values.push(None)?;
    values.push(some(alloc, b"2026-11-27 04:05:06.789+00")?)?;
    Ok(ServerMessage::DataRow { values })
}

/// The bytes of a thousand messages: of each four, two are a text, one is a statement to be
/// prepared and one a portal.
pub fn batch(alloc: Global) -> Result<List<u8>, NoMemory>
    ensures { IfOk result (λ bytes. length bytes ≡ 64000) }
{
    let text = query(alloc)?;
    let statement = match parse(alloc) {
        Ok(statement) => statement,
        Err(full) => {
            drop(text);
            return Err(full);
        }
    };
    let portal = match bind(alloc) {
        Ok(portal) => portal,
        Err(full) => {
            drop(text);
            drop(statement);
            return Err(full);
        }
    };
    let bytes = put_rounds(alloc, &text, &statement, &portal);
    drop(text);
    drop(statement);
    drop(portal);
    bytes
}

fn put_rounds(
    alloc: Global,
    text: &ClientMessage,
    statement: &ClientMessage,
    portal: &ClientMessage,
) -> Result<List<u8>, NoMemory>
    requires text { IsSample text.now }
    requires statement { IsSample statement.now }
    requires portal { IsSample portal.now }
    ensures { IfOk result (λ bytes. length bytes ≡ 64000) }
{
    let mut bytes = List::new(alloc);
    for round in 0..250u32 {
        put_round(text, statement, portal, &mut bytes)?;
    }
    Ok(bytes)
}

fn put_round(
    text: &ClientMessage,
    statement: &ClientMessage,
    portal: &ClientMessage,
    onto: &mut List<u8>,
) -> Result<(), NoMemory>
    requires text { IsSample text.now }
    requires statement { IsSample statement.now }
    requires portal { IsSample portal.now }
    ensures { OnOk result (length onto.new ≡ length onto.old + 256) }
{
    put(text, onto)?;
    put(text, onto)?;
    put(statement, onto)?;
    put(portal, onto)
}

fn put(message: &ClientMessage, onto: &mut List<u8>) -> Result<(), NoMemory>
    requires { IsSample message.now }
    ensures { OnOk result (length onto.new ≡ length onto.old + 64) }
{
    write_client(message, onto)
}
