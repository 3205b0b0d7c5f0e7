//! A text to which tokens are added, each in its one spelling.
ghost use Rattle.std.specs.Prelude.{◌≡◌, ◌++◌, ◌∷◌, [], ◌||◌, Bool, map, OnOk, IfOk, if◌then◌else◌, string_bytes, true, false};
ghost use Rattle.std.specs.Char.{to_ascii_uppercase};
ghost use Rattle.sql_print.specs.Spelling.{Lexeme, word, mark, sign, name, function, command, whole, string, param, mark_text, mark_holds, mark_clings};
ghost use Rattle.sql_print.specs.Writing.{state, put, begun};

use crate::quoting::{push_name, push_string};
use pool_base::{NoMemory, Text};
use sql_tokens::{Mark, Word};
use std::alloc::Global;
use std::fmt::Write;

/// The text so far. `held`: no space is to stand behind it.
#[derive(Drop)]
pub(crate) struct Writer {
    text: String,
    held: bool,
}

impl Writer {
    pub(crate) fn new(alloc: Global) -> Writer
        ensures { state result ≡ begun }
    {
        Writer {
            text: String::new(alloc),
            held: true,
        }
    }

    /// The text.
    pub(crate) fn into_text(self) -> Text
        ensures { result ≡ (state self).text }
    {
        let Writer { text, held: _ } = self;
        Text::from_string(text)
    }

    /// A reserved word, in upper case.
    pub(crate) fn word(&mut self, given: Word) -> Result<(), NoMemory>
        ensures { OnOk result (state self.new ≡ put (state self.old) (word given)) }
    {
        push_gap(self.held, false, &mut self.text)?;
        push_upper(given.spelling(), &mut self.text)?;
        self.held = false;
        Ok(())
    }

    pub(crate) fn mark(&mut self, given: Mark) -> Result<(), NoMemory>
        ensures { OnOk result (state self.new ≡ put (state self.old) (mark given)) }
    {
        push_gap(self.held, clings(given), &mut self.text)?;
        self.text.push_str(mark_text(given))?;
        self.held = holds(given);
        Ok(())
    }

    /// The minus in front of an operand.
    pub(crate) fn sign(&mut self) -> Result<(), NoMemory>
        ensures { OnOk result (state self.new ≡ put (state self.old) sign) }
    {
        push_gap(self.held, false, &mut self.text)?;
        self.text.push_str("-")?;
        self.held = true;
        Ok(())
    }

    /// A name, in double quotes where it is not plain.
    pub(crate) fn name(&mut self, given: &str) -> Result<(), NoMemory>
        ensures { OnOk result (state self.new ≡ put (state self.old) (name given.now)) }
    {
        push_gap(self.held, false, &mut self.text)?;
        push_name(given, &mut self.text)?;
        self.held = false;
        Ok(())
    }

    /// The name of a function.
    pub(crate) fn function(&mut self, given: &str) -> Result<(), NoMemory>
        ensures { OnOk result (state self.new ≡ put (state self.old) (function given.now)) }
    {
        push_gap(self.held, false, &mut self.text)?;
        self.text.push_str(given)?;
        self.held = true;
        Ok(())
    }

    /// A word of a command that is not reserved, in upper case.
    pub(crate) fn command(&mut self, given: &str) -> Result<(), NoMemory>
        ensures { OnOk result (state self.new ≡ put (state self.old) (command given.now)) }
    {
        push_gap(self.held, false, &mut self.text)?;
        push_upper(given, &mut self.text)?;
        self.held = false;
        Ok(())
    }

    /// A whole number.
    pub(crate) fn whole(&mut self, given: u64) -> Result<(), NoMemory>
        ensures { OnOk result (state self.new ≡ put (state self.old) (whole given)) }
    {
        push_gap(self.held, false, &mut self.text)?;
        write!(self.text, "{given}")?;
        self.held = false;
        Ok(())
    }

    pub(crate) fn string(&mut self, given: &str) -> Result<(), NoMemory>
        ensures { OnOk result (state self.new ≡ put (state self.old) (string given.now)) }
    {
        push_gap(self.held, false, &mut self.text)?;
        push_string(given, &mut self.text)?;
        self.held = false;
        Ok(())
    }

    pub(crate) fn param(&mut self, given: u32) -> Result<(), NoMemory>
        ensures { OnOk result (state self.new ≡ put (state self.old) (param given)) }
    {
        push_gap(self.held, false, &mut self.text)?;
        write!(self.text, "${given}")?;
        self.held = false;
        Ok(())
    }
}

/// The space before a token, where one is to stand there.
fn push_gap(held: bool, clings: bool, onto: &mut String) -> Result<(), NoMemory>
    ensures { OnOk result (string_bytes onto.new ≡ string_bytes onto.old
        ++ (if held || clings then [] else 32 ∷ [])) }
{
    if !held && !clings {
        onto.push_str(" ")?;
    }
    Ok(())
}

fn push_upper(text: &str, onto: &mut String) -> Result<(), NoMemory>
    ensures { OnOk result (string_bytes onto.new ≡ string_bytes onto.old
        ++ map to_ascii_uppercase text.now) }
{
    let mut upper = String::from_str(*onto.allocator(), text)?;
    upper.make_ascii_uppercase();
    onto.push_str(upper.as_str())?;
    Ok(())
}

fn mark_text(mark: Mark) -> &'static str
    ensures { result.now ≡ mark_text mark }
{
    match mark {
        Mark::Open => "(",
        Mark::Close => ")",
        Mark::Comma => ",",
        Mark::Semicolon => ";",
        Mark::Dot => ".",
        Mark::Star => "*",
        Mark::Slash => "/",
        Mark::Percent => "%",
        Mark::Plus => "+",
        Mark::Minus => "-",
        Mark::Equal => "=",
        Mark::Unequal => "<>",
        Mark::Less => "<",
        Mark::AtMost => "<=",
        Mark::Greater => ">",
        Mark::AtLeast => ">=",
        Mark::Bars => "||",
    }
}

/// No space stands after the mark.
fn holds(mark: Mark) -> bool
    ensures { result ≡ mark_holds mark }
{
    matches!(mark, Mark::Open | Mark::Dot)
}

/// No space stands before the mark.
fn clings(mark: Mark) -> bool
    ensures { result ≡ mark_clings mark }
{
    matches!(mark, Mark::Close | Mark::Comma | Mark::Dot)
}
