//! Why a status file cannot be held.

use crate::status::StatusFault;
use pool_base::NoMemory;
use std::{fmt, io};

/// Why a status file cannot be held.
#[derive(Drop)]
pub enum OpenFault {
    /// Another pool holds it.
    Held,
    /// It is not there.
    NotThere,
    /// The line is the first that is not of the grammar. Lines count from 1.
    BadLine(u32),
    /// It has more bytes than any status of a pool.
    TooLong,
    /// The system does not let its lock be taken.
    NotLocked(io::Error),
    /// The system does not let it be read.
    NotRead(io::Error),
    /// The system does not let it be written.
    NotWritten(io::Error),
    NoMemory,
}

impl From<NoMemory> for OpenFault {
    fn from(_: NoMemory) -> OpenFault {
        OpenFault::NoMemory
    }
}

impl From<StatusFault> for OpenFault {
    fn from(fault: StatusFault) -> OpenFault {
        match fault {
            StatusFault::BadLine(line) => OpenFault::BadLine(line),
            StatusFault::NoMemory => OpenFault::NoMemory,
        }
    }
}

impl fmt::Display for OpenFault {
    fn fmt<W: fmt::Write>(&self, f: &mut fmt::Formatter<W>) -> fmt::Result {
        match self {
            OpenFault::Held => f.write_str("another pool holds it"),
            OpenFault::NotThere => f.write_str("it is not there"),
            OpenFault::BadLine(line) => write!(f, "line {line}: bad line"),
            OpenFault::TooLong => f.write_str("it is too long"),
            OpenFault::NotLocked(fault) => write!(f, "it cannot be locked: {fault}"),
            OpenFault::NotRead(fault) => write!(f, "it cannot be read: {fault}"),
            OpenFault::NotWritten(fault) => write!(f, "it cannot be written: {fault}"),
            OpenFault::NoMemory => f.write_str("there was no memory"),
        }
    }
}
