//! The word to stop: it is said once, and the door and the sessions look whether it was.
//!
//! ```text
//! open --stop--> stopping --close, by the door--> closed
//! ```

use crate::host::Host;
use std::net::TcpStream;
use std::sync::atomic::{AtomicBool, Ordering};
use std::thread;
use std::time::Duration;

/// How often it is knocked at a door that does not close.
const KNOCKS: u32 = 600;

/// How long is waited between two of these.
///
/// Units: milliseconds.
const PAUSE: u64 = 100;

/// Whether the pool is to stop, and whether its door is closed.
#[derive(Drop)]
pub struct Control {
    stopping: AtomicBool,
    closed: AtomicBool,
}

impl Control {
    /// Nobody has said that the pool is to stop.
    pub fn new() -> Control {
        Control {
            stopping: AtomicBool::new(false),
            closed: AtomicBool::new(false),
        }
    }

    /// Whether the pool is to stop.
    pub fn is_stopping(&self) -> bool {
        self.stopping.load(Ordering::SeqCst)
    }

    /// The door is closed.
    pub(crate) fn close(&self) {
        self.closed.store(true, Ordering::SeqCst);
    }

    /// Says that the pool is to stop, and knocks at its door, which waits for a connection, until
    /// it is closed.
    ///
    /// Units: `port` is a TCP port.
    pub fn stop<R: Host>(&self, rt: &R, host: &str, port: u16) {
        self.stopping.store(true, Ordering::SeqCst);
        for _ in 0..KNOCKS {
            if self.closed.load(Ordering::SeqCst) {
                return;
            }
            drop(TcpStream::connect(rt, (host, port)));
            thread::sleep(rt, Duration::from_millis(PAUSE));
        }
    }
}
