//! Leaves of expressions: strings and parameters.
ghost use Rattle.std.specs.Prelude.{◌≡◌, ◌++◌, ◌-◌, length, replicate, None, OnOk};
ghost use Rattle.typed_sql.specs.Steps.{Answers, with_kind};
ghost use Rattle.typed_sql.specs.Typing.{String as IsString, TextForm, Parameter};
ghost use Rattle.typed_sql.specs.Meaning.{IsUnread};

use crate::fault::{CheckFault, no_parameter, no_value};
use crate::own::known_kind;
use crate::typed::{TypedExpr, TypedForm};
use pg_values::{ColType, Value, ValueFault, from_text};
use pool_base::{NoMemory, Text};
use std::alloc::Global;

/// What is known of the parameters: for each number, from 1, its type, if the list of types or a
/// use
/// gave it one.
pub type Known = Vec<Option<ColType>>;

/// The value of a string that is its text form.
pub(crate) fn text_form(
    alloc: Global,
    kind: ColType,
    text: &Text,
    known: &[Option<ColType>],
) -> Result<TypedExpr, CheckFault>
    ensures { Answers (λ e. e) result known.now (TextForm kind text.now known.now) }
{
    match from_text(alloc, kind, text.as_bytes()) {
        Ok(value) => Ok(TypedExpr {
            kind,
            form: TypedForm::Literal(value),
        }),
        Err(fault) => Err(unread(alloc, fault)),
    }
}

/// Why a text is no value of its type.
fn unread(alloc: Global, fault: ValueFault) -> CheckFault
    ensures { IsUnread fault result }
{
    match fault {
        ValueFault::Bad(code) => no_value(alloc, code),
        ValueFault::NoMemory => CheckFault::NoMemory,
    }
}

/// A string at a place where this type is asked: a text itself, or the text form of a value.
pub(crate) fn string(
    alloc: Global,
    kind: ColType,
    text: &Text,
    known: &[Option<ColType>],
) -> Result<TypedExpr, CheckFault>
    ensures { Answers (λ e. e) result known.now (IsString kind text.now known.now) }
{
    match kind {
        ColType::Text => Ok(TypedExpr {
            kind,
            form: TypedForm::Literal(Value::Text(text.clone()?)),
        }),
        ColType::Bool | ColType::Int4 | ColType::Int8 | ColType::Moment => {
            text_form(alloc, kind, text, known)
        }
    }
}

/// As many types as this, or more: what is not known is none.
fn reach(count: usize, known: &mut Known) -> Result<(), NoMemory>
    ensures { OnOk result (known.new.items
        ≡ known.old.items ++ replicate (count - length known.old.items) None) }
{
    if known.len() < count {
        known.resize(count, None)?;
    }
    Ok(())
}

/// Makes a parameter's type known.
fn put_kind(number: u32, kind: ColType, known: &mut Known) -> Result<(), NoMemory>
    ensures { OnOk result (known.new.items ≡ with_kind number kind known.old.items) }
{
    if number == 0 {
        return Ok(());
    }
    reach(number as usize, known)?;
    known[number as usize - 1] = Some(kind);
    Ok(())
}

/// A parameter: it has the type that is known of it, and else the one that the place asks for,
/// which
/// is then known.
pub(crate) fn parameter(
    alloc: Global,
    may: bool,
    leaf: ColType,
    number: u32,
    known: &mut Known,
) -> Result<TypedExpr, CheckFault>
    ensures { Answers (λ e. e) result known.new.items (Parameter may leaf number known.old.items) }
{
    if !may {
        return Err(no_parameter(alloc));
    }
    if let Some(kind) = known_kind(number, known.as_slice()) {
        let form = TypedForm::Param(number);
        return Ok(TypedExpr { kind, form });
    }
    put_kind(number, leaf, known)?;
    let form = TypedForm::Param(number);
    Ok(TypedExpr { kind: leaf, form })
}
