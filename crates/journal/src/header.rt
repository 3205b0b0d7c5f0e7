//! The lines before the first event: the configuration and the schema.
ghost use Rattle.std.specs.Prelude.{◌≡◌, ◌++◌, IfOk, OnOk, string_bytes};
ghost use Rattle.pool_config.specs.Configuration.{IsAllowed};
ghost use Rattle.schema.specs.Ranges.{AreInRange};
ghost use Rattle.journal.specs.Header.{IsHeader, behind};

use crate::pieces::push_word;
use catalogue::Catalogue;
use pool_base::{NoMemory, Text};
use pool_config::{Config, write_config};
use schema_print::print_schema;
use std::alloc::Global;

/// The lines of a journal before its first event: each line of the printed configuration behind
/// `config `, and then each line of the printed schema behind `schema `.
///
/// Shape: docs/CONFIGURATION.md and docs/SCHEMAS.md, "The written form".
pub fn print_header(alloc: Global, config: &Config, tables: &Catalogue) -> Result<Text, NoMemory>
    requires allowed { IsAllowed config.now }
    requires in_range { AreInRange tables.now }
    ensures { IfOk result (λ header. IsHeader config.now tables.now header) }
{
    let mut header = String::new(alloc);
    let settings = write_config(alloc, config)?;
    push_lines("config ", settings.as_str(), &mut header)?;
    let schema = print_schema(alloc, tables)?;
    push_lines("schema ", schema.as_str(), &mut header)?;
    Ok(Text::from_string(header))
}

/// A text with a word in front of each of its lines.
fn push_lines(word: &str, text: &str, onto: &mut String) -> Result<(), NoMemory>
    ensures { OnOk result (string_bytes onto.new
        ≡ string_bytes onto.old ++ behind word.now text.now) }
{
    let mut left = text;
    'lines: while let Some((line, more)) = left.split_once('\n') {
        push_line(word, line, onto)?;
        push_word("\n", onto)?;
        left = more;
    }
    if left.is_empty() {
        return Ok(());
    }
    push_line(word, left, onto)
}

/// A line behind a word, without its end.
fn push_line(word: &str, line: &str, onto: &mut String) -> Result<(), NoMemory>
    ensures { OnOk result (string_bytes onto.new
        ≡ string_bytes onto.old ++ (word.now ++ line.now)) }
{
    push_word(word, onto)?;
    push_word(line, onto)
}
