//! The text forms of values.
ghost use Rattle.std.specs.Prelude.{◌≡◌, ◌<◌, ◌-◌, ◌^◌, Bool, List, ℕ, ℤ, pos, neg_ℤ, ◌-ℤ◌, ◌+ℤ◌, IfOk, MatchOption, FitsSigned, min, option_map, length, true};
ghost use Rattle.std.specs.Int.{w32, w64};
ghost use Rattle.pg_values.specs.declared.value.Value.{Value};
ghost use Rattle.pg_values.specs.declared.col_type.ColType.TheVariants as col;
ghost use Rattle.pg_values.specs.Range.{IsInRange};
ghost use Rattle.pg_values.specs.Text.{IsTextOf, IsNumberText, SpellsText, MisspellsText};
ghost use Rattle.pg_values.specs.Answers.{Tells, IfRefused, IsValueOr, IsCodeOr, IsRefusedFor, IsPlain, ReadsText, RefusesText};

use crate::codes::{
    CHARACTER_NOT_IN_REPERTOIRE, DATETIME_FIELD_OVERFLOW, INVALID_DATETIME_FORMAT,
    INVALID_TEXT_REPRESENTATION, NUMERIC_VALUE_OUT_OF_RANGE,
};
use crate::col_type::ColType;
use crate::moment::moment_of;
use crate::moment_reader::written;
use crate::plain::plain;
use crate::printer::moment_text;
use crate::value::Value;
use crate::value_fault::ValueFault;
use crate::word_reader::{Whole, truth, whole_number};
use pool_base::{NoMemory, Text};
use std::alloc::Global;

/// The one text form of a value, or None for Null.
///
/// Shape: `t` or `f`; a whole number in decimal; `YYYY-MM-DD HH:MM:SS+00`, with a point and the
/// fraction
/// without trailing zeros before `+00` where it is not 0.
/// Source: PostgreSQL, "Data Types", with the session's time zone UTC.
pub fn text_of(alloc: Global, value: &Value) -> Result<Option<Text>, NoMemory>
    requires { IsInRange value.now }
    ensures { IfOk result (IsTextOf value.now) }
{
    Ok(match value {
        Value::Null => None,
        Value::Bool(truth) => Some(Text::from_str(alloc, if *truth { "t" } else { "f" })?),
        Value::Int4(number) => Some(Text::from_string(format!(in alloc; "{number}")?)),
        Value::Int8(number) => Some(Text::from_string(format!(in alloc; "{number}")?)),
        Value::Text(text) => Some(text.clone()?),
        Value::Moment(micros) => Some(moment_text(alloc, *micros)?),
    })
}

fn read_bool(text: &[u8]) -> Result<Value, ValueFault>
    ensures { Tells result (SpellsText col.Bool text.now) (MisspellsText col.Bool text.now) ⊥ }
{
    match truth(text) {
        Some(truth) => Ok(Value::Bool(truth)),
        None => Err(ValueFault::Bad(INVALID_TEXT_REPRESENTATION)),
    }
}

fn read_int4(text: &[u8]) -> Result<Value, ValueFault>
    ensures { Tells result (SpellsText col.Int4 text.now) (MisspellsText col.Int4 text.now) ⊥ }
{
    match whole_number(text) {
        Whole::Misspelled => Err(ValueFault::Bad(INVALID_TEXT_REPRESENTATION)),
        Whole::TooLarge => Err(ValueFault::Bad(NUMERIC_VALUE_OUT_OF_RANGE)),
        Whole::Fits(number) => {
            if number < -2_147_483_648 || number > 2_147_483_647 {
                return Err(ValueFault::Bad(NUMERIC_VALUE_OUT_OF_RANGE));
            }
            Ok(Value::Int4(number as i32))
        }
    }
}

fn read_int8(text: &[u8]) -> Result<Value, ValueFault>
    ensures { Tells result (SpellsText col.Int8 text.now) (MisspellsText col.Int8 text.now) ⊥ }
{
    match whole_number(text) {
        Whole::Misspelled => Err(ValueFault::Bad(INVALID_TEXT_REPRESENTATION)),
        Whole::TooLarge => Err(ValueFault::Bad(NUMERIC_VALUE_OUT_OF_RANGE)),
        Whole::Fits(number) => Ok(Value::Int8(number)),
    }
}

fn read_moment(text: &[u8]) -> Result<Value, ValueFault>
    ensures { Tells result (SpellsText col.Moment text.now) (MisspellsText col.Moment text.now) ⊥ }
{
    match written(text) {
        None => Err(ValueFault::Bad(INVALID_DATETIME_FORMAT)),
        Some(written) => match moment_of(written) {
            Some(micros) => Ok(Value::Moment(micros)),
            None => Err(ValueFault::Bad(DATETIME_FIELD_OVERFLOW)),
        },
    }
}

/// The value of a plain text.
fn read_plain(alloc: Global, kind: ColType, text: &str) -> Result<Value, ValueFault>
    ensures { Tells result (SpellsText kind text.now)
        (MisspellsText kind text.now) (kind ≡ col.Text) }
{
    match kind {
        ColType::Bool => read_bool(text.as_bytes()),
        ColType::Int4 => read_int4(text.as_bytes()),
        ColType::Int8 => read_int8(text.as_bytes()),
        ColType::Text => Ok(Value::Text(Text::from_str(alloc, text)?)),
        ColType::Moment => read_moment(text.as_bytes()),
    }
}

fn read_text(alloc: Global, kind: ColType, text: &[u8]) -> Result<Value, ValueFault>
    ensures { Tells result (ReadsText kind text.now) (RefusesText kind text.now) (kind ≡ col.Text) }
{
    match plain(text) {
        Some(text) => read_plain(alloc, kind, text),
        None => Err(ValueFault::Bad(CHARACTER_NOT_IN_REPERTOIRE)),
    }
}

/// Reads a value of a type from its text form.
///
/// Shape: a bool is `t`, `true`, `yes`, `on`, `1`, `f`, `false`, `no`, `off` or `0` in any case;
/// a whole number
/// has an optional sign; spaces round these are dropped. A moment is `YYYY-MM-DD`, then perhaps a
/// space or `T`
/// and `HH:MM`, behind it perhaps `:SS`, a point and one to six digits behind that, and perhaps
/// `Z` or a
/// sign with `HH` or `HH:MM`. Without an offset it is UTC.
/// Errors: `22021` where the bytes are not UTF-8 or hold a zero byte, before all others; `22P02`
/// where a bool or
/// a number is not of its grammar, `22003` where a number is out of range; `22007` where a moment
/// is not of
/// its grammar, `22008` where a field of it or the moment is out of range.
/// Source: PostgreSQL, "Data Types"; House rule: the forms are those said here, since the pool
/// reads no others.
pub fn from_text(alloc: Global, kind: ColType, text: &[u8]) -> Result<Value, ValueFault>
    // What is read is a text form of the value, and what is refused has the code that fits.
    ensures value { IfOk result (ReadsText kind text.now) }
    ensures code { IfRefused result (RefusesText kind text.now) }

    // The other way round, unless memory was refused.
    ensures each_value { (value : Value) → ReadsText kind text.now value → IsValueOr result value }
    ensures each_code { (code : List ℕ) → RefusesText kind text.now code → IsCodeOr result code }
    ensures memory { IsRefusedFor result (kind ≡ col.Text) }
{
    read_text(alloc, kind, text)
}
