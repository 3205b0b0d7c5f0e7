//! What a client is told that is let in.
ghost use Rattle.std.specs.Prelude.{◌≡◌, ◌++◌, ◌≤◌, pos, length, codes, IfOk, OnOk};
ghost use Rattle.std.specs.List.{flat_map};
ghost use Rattle.pg_messages.specs.declared.server.ServerMessage.TheVariants.{ParameterStatus, BackendKey};
ghost use Rattle.pg_messages.specs.Server.{spelling};
ghost use Rattle.wire_start.specs.Opening.{settings, opening};

use pool_base::{List, NoMemory, SessionId};
use std::alloc::Global;

/// A setting that is told.
fn put_setting(onto: &mut List<u8>, name: &str, value: &str) -> Result<(), NoMemory>
    requires name { length name.now ≤ 100 }
    requires value { length value.now ≤ 100 }
    ensures { OnOk result (onto.new ≡ onto.old ++ spelling (ParameterStatus name.now value.now)) }
{
    let size = name.len() + value.len() + 6;
    onto.push(b'S')?;
    onto.extend_from_slice(&(size as u32).to_be_bytes())?;
    onto.extend_from_slice(name.as_bytes())?;
    onto.push(0)?;
    onto.extend_from_slice(value.as_bytes())?;
    onto.push(0)
}

fn put_encodings(onto: &mut List<u8>) -> Result<(), NoMemory>
    ensures { OnOk result (onto.new ≡ onto.old ++ (
        spelling (ParameterStatus (codes "client_encoding") (codes "UTF8"))
        ++ (spelling (ParameterStatus (codes "DateStyle") (codes "ISO, MDY"))
        ++ (spelling (ParameterStatus (codes "integer_datetimes") (codes "on"))
        ++ spelling (ParameterStatus (codes "server_encoding") (codes "UTF8")))))) }
{
    put_setting(onto, "client_encoding", "UTF8")?;
    put_setting(onto, "DateStyle", "ISO, MDY")?;
    put_setting(onto, "integer_datetimes", "on")?;
    put_setting(onto, "server_encoding", "UTF8")?;
    Ok(())
}

fn put_settings(onto: &mut List<u8>) -> Result<(), NoMemory>
    ensures { OnOk result (onto.new ≡ onto.old ++ flat_map spelling settings) }
{
    put_encodings(onto)?;
    put_setting(onto, "server_version", "14.0")?;
    put_setting(onto, "standard_conforming_strings", "on")?;
    put_setting(onto, "TimeZone", "UTC")?;
    Ok(())
}

/// The key of a session: its number, and no secret.
fn put_key(onto: &mut List<u8>, s: SessionId) -> Result<(), NoMemory>
    ensures { OnOk result (onto.new ≡ onto.old
        ++ spelling (BackendKey (pos s.number) (pos 0))) }
{
    onto.extend_from_slice(&[b'K', 0, 0, 0, 12])?;
    onto.extend_from_slice(&(s.number as i32).to_be_bytes())?;
    onto.extend_from_slice(&[0, 0, 0, 0])
}

/// The bytes that a client gets that is let in: that no password is asked for, the settings, the
/// key of the session, which is its number, and that the session waits.
///
/// Source: PostgreSQL, Frontend/Backend Protocol, "Start-up". House rule: the version that the pool
/// speaks as is 14.0.
pub fn opening_bytes(alloc: Global, s: SessionId) -> Result<List<u8>, NoMemory>
    ensures { IfOk result (λ bytes. bytes ≡ opening s.number) }
{
    let mut bytes = List::new(alloc);
    bytes.extend_from_slice(b"R\0\0\0\x08\0\0\0\0")?;
    put_settings(&mut bytes)?;
    put_key(&mut bytes, s)?;
    bytes.extend_from_slice(b"Z\0\0\0\x05I")?;
    Ok(bytes)
}
