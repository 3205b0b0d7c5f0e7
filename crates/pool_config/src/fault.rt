//! Why a text is no configuration.
ghost use Rattle.std.specs.Prelude.{◌≡◌, Some};
ghost use Rattle.pool_config.specs.Printed.{shown};

use pool_base::{NoMemory, Text};
use std::fmt;

/// The first fault of a text. Lines count from 1.
#[derive(Debug, PartialEq, Eq, Drop)]
pub enum ConfigFault {
    /// The line is none of the grammar's, or its value is not of the parameter's kind and range.
    BadLine(u32),
    /// No parameter has the line's name.
    UnknownName(u32),
    /// The line asks for another clustering mode.
    WrongMode(u32),
    /// Every line is good, and this parameter is required and not given.
    Missing(Text),
    /// Memory was refused.
    NoMemory,
}

impl From<NoMemory> for ConfigFault {
    ghost use Rattle.pool_config.specs.declared.fault.ConfigFault.{ConfigFault};

    ghost from_gives = { λ _ fault. fault ≡ ConfigFault.NoMemory };

    fn from(_: NoMemory) -> ConfigFault {
        ConfigFault::NoMemory
    }
}

impl fmt::Display for ConfigFault {
    ghost output = { λ fault. Some (shown fault) };

    fn fmt<W: fmt::Write>(&self, f: &mut fmt::Formatter<W>) -> fmt::Result {
        match self {
            ConfigFault::BadLine(line) => write!(f, "configuration line {line}: bad line"),
            ConfigFault::UnknownName(line) => write!(f, "configuration line {line}: unknown name"),
            ConfigFault::WrongMode(line) => write!(f, "configuration line {line}: wrong mode"),
            ConfigFault::Missing(name) => {
                let name = name.as_str();
                write!(f, "configuration: {name} is missing")
            }
            ConfigFault::NoMemory => write!(f, "could not get memory"),
        }
    }
}
