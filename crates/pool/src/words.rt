//! The words by which the script that runs the program hands it the signals that it hears: lines of
//! standard input, where `POOL_WORDS` is `stdin`.
//!
//! | Line | What it means |
//! |---|---|
//! | `stop` | TERM or INT: the pool is to stop |
//! | `hup` | HUP: nothing; an operator is told so |
//!
//! The end of the lines is the end of the script: the pool is to stop as well.

use pool_base::{NoMemory, Text};
use pool_config::Config;
use serve_base::tell;
use std::alloc::Global;
use std::sync::Arc;
use std::{env, thread};
use tcp_server::{Control, Host};

/// The variable that says where words come from.
const VARIABLE: &str = "POOL_WORDS";

/// The host at which the program itself reaches the address that it listens at.
fn host_of(config: &Config) -> &str {
    match config.listen.as_str() {
        "*" => "127.0.0.1",
        name => name,
    }
}

/// Hears words to their end, and then has the pool stop.
fn hear<R: Host>(system: &HostRuntime, rt: &R, control: &Control, host: &str, port: u16) {
    for line in system.lines(system.alloc()) {
        let Ok(line) = line else {
            break;
        };
        match line.as_str() {
            "stop" => {
                tell(rt, system.alloc(), "hears TERM or INT");
                control.stop(rt, host, port);
            }
            "hup" => tell(
                rt,
                system.alloc(),
                "hears HUP, and ignores it: the configuration is read at the start alone",
            ),
            _ => {}
        }
    }
    control.stop(rt, host, port);
}

/// Whether a script says words.
fn is_told(system: &HostRuntime) -> bool {
    match env::var(system, VARIABLE) {
        Ok(value) => value.as_str() == "stdin",
        Err(_) => false,
    }
}

/// Starts to hear words, where a script says them. Answers where it is said that the pool is to
/// stop.
pub(crate) fn hear_words<R: Host>(
    system: &HostRuntime,
    rt: R,
    config: &Config,
) -> Result<Arc<Control, Global>, NoMemory> {
    let control = Arc::new(system.alloc(), Control::new())?;
    if !is_told(system) {
        return Ok(control);
    }
    let theirs = Arc::try_clone(&control)?;
    let host = Text::from_str(system.alloc(), host_of(config))?;
    let (port, input) = (config.port, *system);
    let started = thread::spawn(&rt, move || {
        hear(&input, &rt, &theirs, host.as_str(), port)
    });
    if started.is_err() {
        tell(
            &rt,
            system.alloc(),
            "hears no signals: the system gives no thread",
        );
    }
    Ok(control)
}
