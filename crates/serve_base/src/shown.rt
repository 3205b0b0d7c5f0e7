//! How a client's words stand in the log: on one line, whatever they are.
ghost use Rattle.std.specs.Prelude.{◌≡◌, ◌++◌, IfOk, OnOk};
ghost use Rattle.serve_base.specs.Shown.{shown_byte, shown_of};

use pool_base::{List, NoMemory};
use std::alloc::Global;

/// So many bytes are shown: a name at PostgreSQL has no more.
const MOST: usize = 63;

/// A byte as it is shown: printable ASCII as it is, any other as `?`.
fn shown_byte(byte: u8) -> u8
    ensures { result ≡ shown_byte byte }
{
    if 33 <= byte && byte <= 126 {
        byte
    } else {
        b'?'
    }
}

/// The first 63 bytes of a name as they are shown.
pub fn shown_name(alloc: Global, name: &[u8]) -> Result<List<u8>, NoMemory>
    ensures { IfOk result (λ text. text ≡ shown_of 63 name.now) }
{
    let mut text = List::new(alloc);
    put_shown(&mut text, name, MOST)?;
    Ok(text)
}

/// Puts so many bytes of a name behind the text as they are shown.
fn put_shown(text: &mut List<u8>, name: &[u8], room: usize) -> Result<(), NoMemory>
    ensures { OnOk result (text.new ≡ text.old ++ shown_of room name.now) }
{
    if room == 0 {
        return Ok(());
    }
    match name {
        [first, rest @ ..] => {
            text.push(shown_byte(*first))?;
            put_shown(text, rest, room - 1)
        }
        [] => Ok(()),
    }
}
