//! What holds of all texts of statements.
ghost use Rattle.std.specs.Prelude.{◌≡◌, ◌≤◌, ◌<◌, ◌^◌, ◌⊎◌, All, List as Sequence, length};
ghost use Rattle.sql_tree.specs.declared.statement.Statement.{Statement};
ghost use Rattle.sql_print.specs.Printed.{statement_text, tokens_of};
ghost use Rattle.sql_profile.specs.Lexemes.{AreLexemes};
ghost use Rattle.sql_reader.specs.declared.fault.SqlFault.TheVariants.{TooLong as Passed, NoMemory as Memory};
ghost use Rattle.sql_reader.specs.Text.{IsRefusedBy, IsTextOf};
ghost use Rattle.sql_profile.specs.Fits.{IsBackend};
ghost use Rattle.sql_profile.specs.Numbers.{expressions, greatest_number};
ghost use Rattle.sql_tree.specs.Trees.{IsStatement};
ghost use Rattle.sql_profile.specs.Writable.{AreWritable};

/// Where the text of a statement is one of statements, within the limits, a text can have each of
/// its tokens and has room for all.
pub fn tokens_fit()
    ensures { (statement : Statement) (all : Sequence Statement)
        → AreWritable (tokens_of statement) → IsTextOf (statement_text statement) all
        → AreLexemes (tokens_of statement) × (length (tokens_of statement) ≤ 65536) }
{}

/// Where the text of a statement of the grammar is refused, memory was, or a limit is passed.
pub fn refusals_are_limits()
    ensures { (statement : Statement) (fault : _) → IsStatement statement
        → All (λ expr. greatest_number expr < 2 ^ 63) (expressions statement)
        → IsBackend statement → AreWritable (tokens_of statement)
        → IsRefusedBy (statement_text statement) fault → (fault ≡ Memory) ⊎ (fault ≡ Passed) }
{}
