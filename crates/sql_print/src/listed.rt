//! What has tokens, one after another with commas between them.
ghost use Rattle.std.specs.Prelude.{◌≡◌, List, OnOk};
ghost use Rattle.sql_tokens.specs.declared.mark.Mark.TheVariants.{Comma};
ghost use Rattle.sql_print.specs.Spelling.{Lexeme, mark};
ghost use Rattle.sql_print.specs.Printed.{joined};
ghost use Rattle.sql_print.specs.Writing.{after, state};

use crate::between::{Between, write_before};
use crate::writer::Writer;
use pool_base::NoMemory;

/// What has tokens.
pub(crate) trait Written {
    ghost tokens: { Self → List Lexeme };

    /// Adds the tokens.
    fn write(&self, onto: &mut Writer) -> Result<(), NoMemory>
        ensures { OnOk result (state onto.new ≡ after (state onto.old) (tokens self.now)) };
}

/// Each of the items, with a comma between two.

pub(crate) fn write_listed<T: Written>(items: &[T], onto: &mut Writer) -> Result<(), NoMemory>
    ensures { OnOk result (state onto.new
        ≡ after (state onto.old) (joined (mark Comma) T.tokens items.now)) }
{
    let mut before = None;
    for item in items {
        write_before(before, onto)?;
        item.write(onto)?;
        before = Some(Between::Comma);
    }
    Ok(())
}
