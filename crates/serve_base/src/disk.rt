//! A small file, read whole and written anew.
ghost use Rattle.std.specs.Prelude.{◌≤◌, IfOk, IfSome, length};

use crate::fault::OpenFault;
use pool_base::List;
use std::alloc::Global;
use std::fs::{File, OpenFile, TryLockError};
use std::io::{ErrorKind, Read, Write};
use std::path::Path;
use std::rt::Files;
use std::{fs, io};

/// A status file has at most so many bytes.
const LIMIT: usize = 65_536;

/// How many bytes are read at once.
const PIECE: usize = 4096;

/// What a file has, if it is there.
pub(crate) fn read_file<R: Files>(
    rt: &R,
    alloc: Global,
    path: &str,
) -> Result<Option<List<u8>>, OpenFault>
    ensures short { IfOk result (λ found. IfSome found (λ bytes. length bytes ≤ 65536)) }
{
    let mut file = match fs::open(rt, path) {
        Ok(file) => file,
        Err(fault) if fault.kind() == ErrorKind::NotFound => return Ok(None),
        Err(fault) => return Err(OpenFault::NotRead(fault)),
    };
    let mut bytes = List::new(alloc);
    let mut piece = [0u8; PIECE];
    for _ in 0..u64::MAX {
        match file.read(&mut piece) {
            Ok(0) => return Ok(Some(bytes)),
            Ok(count) => {
                if count > LIMIT - bytes.len() {
                    return Err(OpenFault::TooLong);
                }
                bytes.extend_from_slice(&piece[..count])?;
            }
            Err(fault) => return Err(OpenFault::NotRead(fault)),
        }
    }
    Err(OpenFault::TooLong)
}

/// The folder of a file.
fn folder_of(path: &str) -> &str {
    match Path::new(path).parent() {
        Some(folder) if !folder.as_str().is_empty() => folder.as_str(),
        _ => ".",
    }
}

/// Writes a file anew: who reads it finds all that was there, or all of this, and so does who
/// reads it behind a crash of the machine. It is written beside itself, and renamed.
pub(crate) fn write_file<R: Files>(
    rt: &R,
    alloc: Global,
    path: &str,
    bytes: &[u8],
) -> io::Result<()> {
    let fresh = format!(in alloc; "{path}.new")?;
    let mut file = fs::create(rt, fresh.as_str())?;
    file.write_all(bytes)?;
    file.sync_all()?;
    drop(file);
    fs::rename(rt, fresh.as_str(), path)?;
    fs::open(rt, folder_of(path))?.sync_all()
}

/// Takes the lock of a file, as long as what is handed out is there. Another process that has it
/// keeps it.
pub(crate) fn hold<R: Files<File = File>>(
    rt: &R,
    alloc: Global,
    path: &str,
) -> Result<File, OpenFault> {
    let Ok(name) = format!(in alloc; "{path}.lock") else {
        return Err(OpenFault::NoMemory);
    };
    let opened = File::options()
        .read(true)
        .write(true)
        .create(true)
        .open(rt, name.as_str());
    let file = match opened {
        Ok(file) => file,
        Err(fault) => return Err(OpenFault::NotLocked(fault)),
    };
    match file.try_lock() {
        Ok(()) => Ok(file),
        Err(TryLockError::WouldBlock) => Err(OpenFault::Held),
        Err(TryLockError::Error(fault)) => Err(OpenFault::NotLocked(fault)),
    }
}
