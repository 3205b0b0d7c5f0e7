//! Texts of a configuration and what an operator reads.
ghost use Rattle.std.specs.Prelude.{IfOk};
ghost use Rattle.pool_config.specs.Configuration.{IsAllowed};

use case_lines::{Around, Told, bytes_of};
use pool_config::{Config, ConfigFault, parse_config, write_config};
use std::alloc::Global;

/// The answer to a short text.
fn read(alloc: Global, text: &[u8]) -> Result<Config, ConfigFault>
    ensures { IfOk result (λ config. IsAllowed config) }
{
    if text.len() > 65536 {
        return Err(ConfigFault::BadLine(0));
    }
    parse_config(alloc, text)
}

/// Whether what is written of a configuration is read as the same.
fn is_read_again(alloc: Global, config: &Config) -> bool
    requires { IsAllowed config.now }
{
    let Ok(written) = write_config(alloc, config) else {
        return false;
    };
    match read(alloc, written.as_bytes()) {
        Ok(again) => *config == again,
        Err(_) => false,
    }
}

fn put_read(alloc: Global, text: &[u8], told: &mut Told) {
    match read(alloc, text) {
        Ok(config) => told.put(if is_read_again(alloc, &config) {
            "good"
        } else {
            "good, but not read again"
        }),
        Err(fault) => told.put_shown(&fault),
    }
}

/// What is told of the lines before, the line that is asked and those behind it.
pub(crate) fn put_configuration(alloc: Global, around: &Around, line: &str, told: &mut Told) {
    let mut text = Told::new(alloc);
    around.put_texts("before", &mut text);
    text.put(line);
    let mut behind = Told::new(alloc);
    around.put_texts("behind", &mut behind);
    if !behind.is("") {
        text.put("\n");
        text.put(behind.as_str());
    }
    match bytes_of(alloc, text.as_str()) {
        Ok(bytes) => put_read(alloc, bytes.as_slice(), told),
        Err(_) => told.put("no memory"),
    }
}
