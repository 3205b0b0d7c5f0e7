//! Writes a statement and reads it again.
ghost use Rattle.std.specs.Prelude.{◌≡◌, ◌<◌, ◌^◌, ◌⊎◌, ◌∷◌, [], length, IfOk, IfErr};
ghost use Rattle.sql_tree.specs.Trees.{IsStatement};
ghost use Rattle.sql_print.specs.Printed.{statement_text};
ghost use Rattle.sql_reader.specs.declared.fault.SqlFault.TheVariants.{TooLong as Passed, NoMemory as Memory};
ghost use Rattle.sql_reader.specs.Text.{IsTextOf, IsRefusedBy, IsReadAs};
ghost use Rattle.sql_profile.specs.Fits.{Fits};

use pool_base::List;
use sql_print::print_statement;
use sql_reader::{SqlFault, read_statements};
use sql_tree::Statement;
use std::alloc::Global;

/// The statements that the text of a statement is read as, by the reader of texts of SQL.
pub fn statements_again(alloc: Global, statement: &Statement) -> Result<List<Statement>, SqlFault>
    // What is given is what the statement's text is read as.
    ensures found { IfOk result (IsTextOf (statement_text statement.now)) }
    ensures refused { length (statement_text statement.now) < 2 ^ 32
        → IfErr result (IsRefusedBy (statement_text statement.now)) }

    // It is that very statement alone, where it is of the grammar and a text can have its tokens.
    ensures same { IsStatement statement.now → Fits statement.now
        → IfOk result (λ all. all ≡ statement.now ∷ []) }

    // So it is wherever its text is within the limits, and it is refused only where one is passed.
    ensures within { IsStatement statement.now → Fits statement.now → (all : _)
        → IsTextOf (statement_text statement.now) all
        → length (statement_text statement.now) < 2 ^ 32 → IsReadAs result (statement.now ∷ []) }
    ensures limits { IsStatement statement.now → Fits statement.now
        → IfErr result (λ fault. (fault ≡ Memory) ⊎ (fault ≡ Passed)) }
{
    let text = print_statement(alloc, statement)?;
    if text.len() > u32::MAX as usize {
        return Err(SqlFault::TooLong);
    }
    read_statements(alloc, text.as_str())
}
