//! What the pool itself lacks where it asks the system for a connection.

use session_links::Want;
use std::io;
use std::net::SocketAddr;

/// The system's number for "resource temporarily unavailable".
///
/// Source: errno(3) of Linux, so all of these.
const AGAIN: i32 = 11;

/// .. for "cannot allocate memory".
const NO_MEMORY: i32 = 12;

/// .. for "too many open files in system".
const FILES_OF_SYSTEM: i32 = 23;

/// .. for "too many open files" of one process.
const FILES: i32 = 24;

/// .. for "cannot assign requested address": no port of its own is free.
const NO_PORT: i32 = 99;

/// .. for "no buffer space available".
const NO_BUFFERS: i32 = 105;

/// What the pool itself lacks, by a fault of the system. `None`: it is the peer's.
fn want_of(fault: &io::Error) -> Option<Want> {
    match fault.raw_os_error() {
        Some(FILES_OF_SYSTEM | FILES) => Some(Want::Descriptors),
        Some(AGAIN | NO_MEMORY | NO_BUFFERS) => Some(Want::Memory),
        _ => None,
    }
}

/// The same where a connection to an address was asked for. This machine may have no address of
/// version 6 at all: that is no want of a port.
pub(crate) fn want_at(addr: &SocketAddr, fault: &io::Error) -> Option<Want> {
    match (fault.raw_os_error(), addr) {
        (Some(NO_PORT), SocketAddr::V4(_)) => Some(Want::Memory),
        _ => want_of(fault),
    }
}
