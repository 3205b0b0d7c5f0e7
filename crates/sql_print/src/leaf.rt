//! The tokens of what holds no expression.
ghost use Rattle.std.specs.Prelude.{◌≡◌, ◌∷◌, [], OnOk};
ghost use Rattle.std.specs.List.{flat_map};
ghost use Rattle.sql_tokens.specs.declared.word.Word.TheVariants as words;
ghost use Rattle.sql_print.specs.Spelling.{string, word};
ghost use Rattle.sql_print.specs.Printed.{adds, call, column, compares, multiplies, negation, number, test, truth};
ghost use Rattle.sql_print.specs.Writing.{after, put, state};

use crate::writer::Writer;
use pool_base::{NoMemory, Text};
use sql_tokens::{Mark, Word};
use sql_tree::{Comparison, ProductSign};

/// A number, with its minus where it is negative.
pub(crate) fn write_number(given: i64, onto: &mut Writer) -> Result<(), NoMemory>
    ensures { OnOk result (state onto.new ≡ after (state onto.old) (number given).tokens) }
{
    if given < 0 {
        onto.sign()?;
    }
    onto.whole(given.unsigned_abs())
}

pub(crate) fn write_truth(given: bool, onto: &mut Writer) -> Result<(), NoMemory>
    ensures { OnOk result (state onto.new ≡ put (state onto.old) (truth given)) }
{
    if given {
        onto.word(Word::True)
    } else {
        onto.word(Word::False)
    }
}

/// A column, with its table's name before it where there is one.
pub(crate) fn write_column(
    qualifier: &Option<Text>,
    name: &Text,
    onto: &mut Writer,
) -> Result<(), NoMemory>
    ensures { OnOk result (state onto.new
        ≡ after (state onto.old) (column qualifier.now name.now)) }
{
    match qualifier {
        None => onto.name(name.as_str()),
        Some(table) => {
            onto.name(table.as_str())?;
            onto.mark(Mark::Dot)?;
            onto.name(name.as_str())
        }
    }
}

/// A function without arguments.
pub(crate) fn write_call(name: &str, onto: &mut Writer) -> Result<(), NoMemory>
    ensures { OnOk result (state onto.new ≡ after (state onto.old) (call name.now)) }
{
    onto.function(name)?;
    onto.mark(Mark::Open)?;
    onto.mark(Mark::Close)
}

/// TIMESTAMPTZ and its string.
pub(crate) fn write_moment(text: &Text, onto: &mut Writer) -> Result<(), NoMemory>
    ensures { OnOk result (state onto.new
        ≡ after (state onto.old) (word words.Timestamptz ∷ string text.now ∷ [])) }
{
    onto.word(Word::Timestamptz)?;
    onto.string(text.as_str())
}

/// IS NOT NULL for true, IS NULL for false, one behind the other.

pub(crate) fn write_tests(tests: &[bool], onto: &mut Writer) -> Result<(), NoMemory>
    ensures { OnOk result (state onto.new ≡ after (state onto.old) (flat_map test tests.now)) }
{
    for given in tests {
        write_test(*given, onto)?;
    }
    Ok(())
}

fn write_test(given: bool, onto: &mut Writer) -> Result<(), NoMemory>
    ensures { OnOk result (state onto.new ≡ after (state onto.old) (test given)) }
{
    onto.word(Word::Is)?;
    if given {
        onto.word(Word::Not)?;
        onto.word(Word::Null)
    } else {
        onto.word(Word::Null)
    }
}

/// NOT, or nothing.
pub(crate) fn write_negation(negated: bool, onto: &mut Writer) -> Result<(), NoMemory>
    ensures { OnOk result (state onto.new ≡ after (state onto.old) (negation negated)) }
{
    if negated {
        onto.word(Word::Not)
    } else {
        Ok(())
    }
}

pub(crate) fn compares(how: Comparison) -> Mark
    ensures { result ≡ compares how }
{
    match how {
        Comparison::Equal => Mark::Equal,
        Comparison::Unequal => Mark::Unequal,
        Comparison::Less => Mark::Less,
        Comparison::AtMost => Mark::AtMost,
        Comparison::Greater => Mark::Greater,
        Comparison::AtLeast => Mark::AtLeast,
    }
}

pub(crate) fn multiplies(sign: ProductSign) -> Mark
    ensures { result ≡ multiplies sign }
{
    match sign {
        ProductSign::Times => Mark::Star,
        ProductSign::Over => Mark::Slash,
        ProductSign::Rest => Mark::Percent,
    }
}

pub(crate) fn adds(minus: bool) -> Mark
    ensures { result ≡ adds minus }
{
    if minus { Mark::Minus } else { Mark::Plus }
}
