//! What is written where no script is played.
ghost use Rattle.std.specs.Prelude.{◌≡◌, ◌≢◌, List as Sequence};
ghost use Rattle.backend_trait.specs.Store.{Store};
ghost use Rattle.pool_config.specs.declared.fault.ConfigFault.TheVariants as faults;
ghost use Rattle.pool_run.specs.Ends.{outside, NoCommandEnds, RefusedEnds, UnbuiltEnds, IsSchemaRefusal, Says, config_too_long, fault_line};
ghost use Rattle.pool_run.specs.Plan.{IsScriptRefusal, StopEnds};
ghost use Rattle.pool_run.specs.Schemas.{bad_schema_line};
ghost use Rattle.pool_run.specs.Scripts.{bad_line};
ghost use Rattle.pool_run.specs.declared.status.Status.TheVariants as status;
ghost use Rattle.pool_run.specs.declared.status.Status.TheVariants.{Refused, ScriptRefused, SinkFailed};

use crate::plan::Stop;
use crate::schemas::{SchemaStop, bad_schema_line};
use crate::scripts::{ScriptStop, bad_line};
use crate::status::Status;
use crate::texts::fault_line;
use pool_base::{Sink, write_all};
use pool_config::ConfigFault;
use std::alloc::Global;

/// Writes why no script is played.
pub fn tell<O: Sink>(alloc: Global, stop: &Stop, out: &mut O) -> Status
    ensures { (stores : Sequence Store) → StopEnds stop.now result (outside (O.fault_count out.old)
        (O.fault_count out.new) (O.taken out.old) (O.taken out.new) stores stores) }
{
    match stop {
        Stop::Unread(status) => *status,
        Stop::NoCommand => tell_no_command(out),
        Stop::ConfigTooLong => tell_long_config(out),
        Stop::Config(fault) => tell_fault(alloc, fault, out),
        Stop::Schema(stop) => refuse_schema(alloc, *stop, out),
        Stop::Script(stop) => refuse_script(alloc, *stop, out),
        Stop::NotBuilt => tell_not_built(out),
    }
}

fn tell_no_command<O: Sink>(out: &mut O) -> Status
    ensures { (stores : Sequence Store) → NoCommandEnds result (outside (O.fault_count out.old)
        (O.fault_count out.new) (O.taken out.old) (O.taken out.new) stores stores) }
{
    say(out, b"pool: the words are no command\n", Status::NoCommand)
}

fn tell_long_config<O: Sink>(out: &mut O) -> Status
    ensures { (stores : Sequence Store) → RefusedEnds Refused config_too_long result
        (outside (O.fault_count out.old) (O.fault_count out.new) (O.taken out.old)
        (O.taken out.new) stores stores) }
{
    say(out, b"pool: configuration is too long\n", Status::Refused)
}

fn tell_not_built<O: Sink>(out: &mut O) -> Status
    ensures { (stores : Sequence Store) → UnbuiltEnds result (outside (O.fault_count out.old)
        (O.fault_count out.new) (O.taken out.old) (O.taken out.new) stores stores) }
{
    say(out, b"pool: not built yet\n", Status::NotBuilt)
}

/// Ends with the fault of the configuration; want of memory is no fault of its text.
fn tell_fault<O: Sink>(alloc: Global, fault: &ConfigFault, out: &mut O) -> Status
    ensures memory { fault.now ≡ faults.NoMemory → (result ≡ status.NoMemory)
        × (O.taken out.new ≡ O.taken out.old) }
    ensures refuses { fault.now ≢ faults.NoMemory → (stores : Sequence Store)
        → RefusedEnds Refused (fault_line fault.now) result (outside (O.fault_count out.old)
        (O.fault_count out.new) (O.taken out.old) (O.taken out.new) stores stores) }
{
    match fault {
        ConfigFault::NoMemory => Status::NoMemory,
        _ => refuse(alloc, fault, out),
    }
}

/// Writes the line of a configuration's fault.
fn refuse<O: Sink>(alloc: Global, fault: &ConfigFault, out: &mut O) -> Status
    ensures { (stores : Sequence Store) → RefusedEnds Refused (fault_line fault.now) result (outside
        (O.fault_count out.old) (O.fault_count out.new) (O.taken out.old) (O.taken out.new)
        stores stores) }
{
    match fault_line(alloc, fault) {
        Err(_) => Status::NoMemory,
        Ok(line) => say(out, line.as_bytes(), Status::Refused),
    }
}

/// Writes why the schema is refused; want of memory is no fault of its text.
fn refuse_schema<O: Sink>(alloc: Global, stop: SchemaStop, out: &mut O) -> Status
    ensures { (stores : Sequence Store) → IsSchemaRefusal stop result (outside
        (O.fault_count out.old) (O.fault_count out.new) (O.taken out.old) (O.taken out.new)
        stores stores) }
{
    match stop {
        SchemaStop::NoMemory => Status::NoMemory,
        SchemaStop::TooLong => say(out, b"pool: schema is too long\n", Status::Refused),
        SchemaStop::BadLine(number) => refuse_schema_line(alloc, number, out),
    }
}

/// Writes which line of the schema is bad.
fn refuse_schema_line<O: Sink>(alloc: Global, number: u32, out: &mut O) -> Status
    ensures { (stores : Sequence Store) → RefusedEnds Refused (bad_schema_line number) result
        (outside (O.fault_count out.old) (O.fault_count out.new) (O.taken out.old)
        (O.taken out.new) stores stores) }
{
    match bad_schema_line(alloc, number) {
        Err(_) => Status::NoMemory,
        Ok(text) => say(out, text.as_bytes(), Status::Refused),
    }
}

/// Writes why the script is refused; want of memory is no fault of its text.
fn refuse_script<O: Sink>(alloc: Global, stop: ScriptStop, out: &mut O) -> Status
    ensures { (stores : Sequence Store) → IsScriptRefusal stop result (outside
        (O.fault_count out.old) (O.fault_count out.new) (O.taken out.old) (O.taken out.new)
        stores stores) }
{
    match stop {
        ScriptStop::NoMemory => Status::NoMemory,
        ScriptStop::TooLong => say(out, b"pool: script is too long\n", Status::ScriptRefused),
        ScriptStop::BadLine(number) => refuse_line(alloc, number, out),
    }
}

/// Writes which line of the script is bad.
fn refuse_line<O: Sink>(alloc: Global, number: u32, out: &mut O) -> Status
    ensures { (stores : Sequence Store) → RefusedEnds ScriptRefused (bad_line number) result
        (outside (O.fault_count out.old) (O.fault_count out.new) (O.taken out.old)
        (O.taken out.new) stores stores) }
{
    match bad_line(alloc, number) {
        Err(_) => Status::NoMemory,
        Ok(line) => say(out, line.as_bytes(), Status::ScriptRefused),
    }
}

/// Writes a line, and answers the status; where it cannot be written, the status says so.
fn say<O: Sink>(out: &mut O, line: &[u8], status: Status) -> Status
    requires { status ≢ SinkFailed }
    ensures { Says status result line.now (O.taken out.old) (O.taken out.new) (O.fault_count
        out.old) (O.fault_count out.new) }
{
    match write_all(out, line) {
        Ok(()) => status,
        Err(_) => Status::SinkFailed,
    }
}
