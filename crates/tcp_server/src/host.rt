//! What the server asks of the system.

use std::net::{Net, TcpListener, TcpStream};
use std::random::RandomSource;
use std::rt::{Clock, Env};
use std::sync::Wait;
use std::thread::Threads;

/// What the server asks of the system.
pub trait Host: Net<Listener = TcpListener, Stream = TcpStream>
    + Threads
    + Wait
    + Clock
    + RandomSource
    + Env
    + AllocGlobal
    + Eprint
    + Copy
    + Send
    + Sync
    + 'static {}

impl<R> Host for R
where
    R: Net<Listener = TcpListener, Stream = TcpStream>
        + Threads
        + Wait
        + Clock
        + RandomSource
        + Env
        + AllocGlobal
        + Eprint
        + Copy
        + Send
        + Sync
        + 'static,
{}
