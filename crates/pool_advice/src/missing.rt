//! The required parameters that a configuration does not give.
ghost use Rattle.std.specs.Prelude.{◌≡◌, IfOk, IfSome, OnOk};
ghost use Rattle.pool_config.specs.Configuration.{Lacks};
ghost use Rattle.pool_advice.specs.Missing.{AreMissing, IsGiven};

use pool_base::{List, NoMemory, Text};
use pool_config::{ConfigFault, parse_config};
use std::alloc::Global;

/// So many parameters are required at most: the mode, and two of each backend and of each user.
const MOST: u32 = 49;

/// A verifier that is given for each that is missing. It is that of no password.
const VERIFIER: &[u8] = b" = 'SCRAM-SHA-256$1:$AAAAAAAAAAAAAAAAAAAAAAAAAAAAAAAAAAAAAAAAAAA=:\
    AAAAAAAAAAAAAAAAAAAAAAAAAAAAAAAAAAAAAAAAAAA='";

/// A text of so many bytes is not looked at.
const LIMIT: usize = 1_000_000;

/// What is missing of a text, one parameter after another: the first is the one that the reader
/// misses, and each other one that which it misses once those before it are given.
#[tactic(auto, using(crate::proofs::Giving::goes_on))]
pub fn missing_names(alloc: Global, text: &[u8]) -> Result<List<Text>, NoMemory>
    ensures { IfOk result (AreMissing text.now) }
{
    let mut names = List::new(alloc);
    let mut all = List::from_slice(alloc, text)?;
    for _ in 0..MOST {
        match next_missing(alloc, all.as_slice())? {
            Some(name) => {
                give(&mut all, name.as_bytes())?;
                names.push(name)?;
            }
            None => return Ok(names),
        }
    }
    Ok(names)
}

/// What the reader of a text misses, if that is its fault.
fn next_missing(alloc: Global, text: &[u8]) -> Result<Option<Text>, NoMemory>
    ensures { IfOk result (λ found. IfSome found (λ name. Lacks text.now name)) }
{
    if text.len() > LIMIT {
        return Ok(None);
    }
    match parse_config(alloc, text) {
        Ok(_) => Ok(None),
        Err(ConfigFault::Missing(name)) => Ok(Some(name)),
        Err(ConfigFault::NoMemory) => Err(NoMemory),
        Err(ConfigFault::BadLine(_)) => Ok(None),
        Err(ConfigFault::UnknownName(_)) => Ok(None),
        Err(ConfigFault::WrongMode(_)) => Ok(None),
    }
}

/// A line behind the text gives the parameter.
fn give(all: &mut List<u8>, name: &[u8]) -> Result<(), NoMemory>
    ensures { OnOk result (IsGiven all.old name.now all.new) }
{
    all.push(b'\n')?;
    all.extend_from_slice(name)?;
    all.extend_from_slice(value_for(name))
}

/// A value that the parameter takes.
fn value_for(name: &[u8]) -> &'static [u8] {
    if name.starts_with(b"backend_port") {
        b" = 1"
    } else if name.starts_with(b"backend_hostname") {
        b" = 'a'"
    } else if name.starts_with(b"scram_user") {
        b" = 'a'"
    } else if name.starts_with(b"scram_verifier") {
        VERIFIER
    } else {
        b" = 'snapshot_isolation'"
    }
}
