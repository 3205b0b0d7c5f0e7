//! Which backends are attached where serving begins: their servers are waited for, and where
//! `PGDATABASE` is set they are compared.

use crate::check::asker;
use crate::reasons::reasons_of;
use crate::waiting::{tell_each, wait_for};
use pool_base::{BackendId, BackendSet, NoMemory};
use pool_config::Config;
use schema::Catalogue;
use serve_base::{Keeper, Notes, attached_of, tell};
use server_check::{Reason, start_by};
use std::alloc::Global;
use std::env;
use tcp_server::{Host, tell_unwritten};

/// What the status file says of a backend that was waited for in vain.
const ABSENT: &str = "it was not there at the start";

/// Whether servers are compared before they are served.
fn is_to_check(rt: &HostRuntime) -> bool {
    match env::var(rt, "PGDATABASE") {
        Ok(database) => !database.as_str().is_empty(),
        Err(_) => false,
    }
}

/// A backend is detached, in the status file too, and an operator is told why.
fn detach<R: Host>(
    rt: &R,
    alloc: Global,
    config: &Config,
    keeper: &Keeper,
    notes: &mut Notes,
    b: BackendId,
    why: &str,
) {
    tell_unwritten(rt, alloc, b, notes.note_down(rt, keeper, b, why));
    tell_out(rt, alloc, config, b, "is detached", why);
}

/// An operator is told why a backend is not attached.
fn tell_out<R: Host>(rt: &R, alloc: Global, config: &Config, b: BackendId, what: &str, why: &str) {
    let number = b.number;
    if let Some(node) = config.nodes.get(usize::from(number)) {
        let (host, port) = (node.host.as_str(), node.port);
        let line = format_args!("backend {number} ({host}, port {port}) {what}: {why}");
        tell(rt, alloc, line);
    }
}

/// Which backends are attached where nothing is compared. One whose server is not there is
/// detached; where none is there no backend has rows that another lacks, and all are attached.
fn attached_unchecked<R: Host>(
    rt: &R,
    alloc: Global,
    config: &Config,
    keeper: &Keeper,
    absent: BackendSet,
) -> BackendSet {
    let up = keeper.attached();
    let attached = attached_of(up, absent);
    let mut notes = Notes::new();
    for number in 0..8_u8 {
        let b = BackendId { number };
        if up.has(b) && !attached.has(b) {
            tell_unwritten(rt, alloc, b, notes.note_down(rt, keeper, b, ABSENT));
        }
    }
    let what = if attached == up {
        "is not there"
    } else {
        "is detached: it is not there"
    };
    tell_each(rt, alloc, config, absent, what);
    tell(rt, alloc, "no check was made: PGDATABASE is not set");
    attached
}

/// Which backends are attached where the servers are compared. None: no server is as the schema
/// says; the status file is left as it is.
fn attached_checked<R: Host>(
    rt: &HostRuntime,
    host: &R,
    config: &Config,
    tables: &Catalogue,
    keeper: &Keeper,
    absent: BackendSet,
) -> Result<Option<BackendSet>, NoMemory> {
    let alloc = rt.alloc();
    let asker = asker(rt, config)?;
    let start = start_by(
        host,
        alloc,
        config,
        tables,
        keeper.attached(),
        absent,
        &asker,
    );
    drop(asker);
    let start = start?;
    let attached = start.attached;
    let reasons = reasons_of(alloc, &start);
    drop(start);
    let reasons = reasons?;
    if attached.is_empty() {
        tell_none(host, alloc, config, reasons.as_slice());
        return Ok(None);
    }
    detach_all(host, alloc, config, keeper, reasons.as_slice());
    tell_compared(host, alloc, attached);
    Ok(Some(attached))
}

/// An operator is told that the servers were compared.
fn tell_compared<R: Host>(rt: &R, alloc: Global, attached: BackendSet) {
    let mut count = 0_u32;
    for number in 0..8_u8 {
        if attached.has(BackendId { number }) {
            count = count.saturating_add(1);
        }
    }
    tell(
        rt,
        alloc,
        format_args!("the servers were compared: {count} are equal"),
    );
}

/// All that are not attached are detached.
fn detach_all<R: Host>(
    rt: &R,
    alloc: Global,
    config: &Config,
    keeper: &Keeper,
    reasons: &[Reason],
) {
    let mut notes = Notes::new();
    for reason in reasons {
        let (b, why) = (reason.number, reason.why.as_str());
        detach(rt, alloc, config, keeper, &mut notes, b, why);
    }
}

/// No server can be served: an operator is told why of each.
fn tell_none<R: Host>(rt: &R, alloc: Global, config: &Config, reasons: &[Reason]) {
    for reason in reasons {
        let (b, why) = (reason.number, reason.why.as_str());
        tell_out(rt, alloc, config, b, "cannot be served", why);
    }
    tell(
        rt,
        alloc,
        "no backend can be served: the pool does not start",
    );
}

/// Waits for the servers of the backends that are up in the status file, and answers which backends
/// are attached. Where `PGDATABASE` is set the servers are compared. None: none can be served.
pub(crate) fn attached_at<R: Host>(
    rt: &HostRuntime,
    host: &R,
    config: &Config,
    tables: &Catalogue,
    keeper: &Keeper,
) -> Result<Option<BackendSet>, NoMemory> {
    let alloc = rt.alloc();
    let absent = wait_for(host, alloc, config, tables, keeper.attached());
    if is_to_check(rt) {
        return attached_checked(rt, host, config, tables, keeper, absent);
    }
    Ok(Some(attached_unchecked(host, alloc, config, keeper, absent)))
}
