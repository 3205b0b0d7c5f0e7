//! The reader: a text to its configuration, or to its first fault.
ghost use Rattle.std.specs.Prelude.{◌≡◌, ◌<◌, ◌+◌, ℕ, length, IfOk, IfErr, Ok, Err, option_map};
ghost use Rattle.pool_config.specs.Bytes.{lines};
ghost use Rattle.pool_config.specs.Form.{spelling_of};
ghost use Rattle.pool_config.specs.Value.{value_of};
ghost use Rattle.pool_config.specs.Configuration.{Says, IsConfiguration, IsAnswer, IsAllowed};
ghost use Rattle.pool_config.specs.Reader.{Gives, read_lines, setting_at, set_by, refused, answer_of};

use crate::assemble::{Setting, configuration};
use crate::config::Config;
use crate::fault::ConfigFault;
use crate::line::{Line, Written, cut_line, read_line};
use crate::parameter::{Parameter, parameter_named, takes};
use crate::value::{Value, read_value};
use pool_base::List;
use std::alloc::Global;

/// The configuration that the text says.
///
/// Shape: docs/CONFIGURATION.md, "Grammar".
/// Errors: the first faulty line decides; what is missing is looked for after all lines.
/// Source: Pgpool-II, "Server Configuration", of which this is a part.
pub fn parse_config(alloc: Global, text: &[u8]) -> Result<Config, ConfigFault>
    requires { length text.now < 4294967295 }
    // A configuration that the text says, or its first fault.
    ensures says { Says text.now result }
    // The configuration that the text says is the answer.
    ensures found { (config : Config) → IsConfiguration text.now config → IsAnswer config result }
    // The values are in their ranges, so `write_config` may write them.
    ensures allowed { IfOk result (λ config. IsAllowed config) }
{
    answer_to(alloc, text)
}

/// The answer of reading the lines and putting the configuration together.
fn answer_to(alloc: Global, text: &[u8]) -> Result<Config, ConfigFault>
    requires { length text.now < 4294967295 }
    ensures { Gives result (answer_of text.now) }
{
    let settings = read_settings(alloc, text)?;
    configuration(alloc, settings.as_slice())
}

/// What the lines of the text set, in their order.
fn read_settings(alloc: Global, text: &[u8]) -> Result<List<Setting>, ConfigFault>
    requires { length text.now < 4294967295 }
    ensures { Gives result (read_lines 1 (lines text.now)) }
{
    let mut settings = List::new(alloc);
    let mut left = text;
    let mut number: u32 = 1;
    loop {
        let (line, rest) = cut_line(left);
        if let Some(setting) = read_setting(alloc, line, number)? {
            settings.push(setting)?;
        }
        let Some(next) = rest else {
            return Ok(settings);
        };
        left = next;
        number += 1;
    }
}

/// What a line sets, if it is not empty.
fn read_setting(alloc: Global, line: &[u8], number: u32) -> Result<Option<Setting>, ConfigFault>
    ensures { Gives result (setting_at number line.now) }
{
    match read_line(line) {
        Line::Empty => Ok(None),
        Line::Other => Err(ConfigFault::BadLine(number)),
        Line::Assignment { name, written } => match parameter_named(name) {
            None => Err(ConfigFault::UnknownName(number)),
            Some(parameter) => Ok(Some(read_value_of(alloc, parameter, written, number)?)),
        },
    }
}

/// The setting of a parameter by a value that is written so.
fn read_value_of(
    alloc: Global,
    parameter: Parameter,
    written: Written,
    number: u32,
) -> Result<Setting, ConfigFault>
    ensures { Gives result (set_by number parameter (value_of (spelling_of written.entry))) }
{
    let Some(value) = read_value(alloc, written)? else {
        return Err(ConfigFault::BadLine(number));
    };
    if takes(alloc, parameter.kind(), &value)? {
        return Ok(Setting { parameter, value });
    }
    Err(refused(number, parameter, &value))
}

/// The fault of a value that the parameter does not take.
fn refused(number: u32, parameter: Parameter, value: &Value) -> ConfigFault
    ensures { result ≡ refused number parameter value.now }
{
    match (parameter, value) {
        (Parameter::ClusteringMode, Value::Text(_)) => ConfigFault::WrongMode(number),
        _ => ConfigFault::BadLine(number),
    }
}
