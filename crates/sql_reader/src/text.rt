//! Reads all statements of a text.
ghost use Rattle.std.specs.Prelude.{◌≡◌, ◌≤◌, length, IfOk, Ok, Err};
ghost use Rattle.sql_tokens.specs.Grammar.{IsPlace, IsTooDeep};
ghost use Rattle.sql_reader.specs.declared.text_fault.TextError.TheVariants.{Fault as Refused};
ghost use Rattle.sql_reader.specs.declared.text_fault.TextFault.TheVariants.{Syntax, WithoutFrom, TooDeep, TooMany};
ghost use Rattle.sql_reader.specs.TextGrammar.{IsText, IsTextWithin, HaveFrom, IsWithoutFrom, IsTooMany};
ghost use Rattle.sql_reader.specs.TextReading.{Answers, text_at};

use crate::statements::lines;
use crate::text_fault::{TextError, TextFault};
use pool_base::List;
use sql_tokens::{Awaited, Token};
use sql_tree::Statement;
use std::alloc::Global;

fn all(alloc: Global, tokens: &[Token]) -> Result<List<Statement>, TextError>
    ensures { Answers (λ x. x) result (text_at 64 tokens.now) }
{
    let (whole, rest) = lines(alloc, tokens)?;
    if !rest.is_empty() {
        return Err(TextError::Fault(TextFault::Syntax {
            left: rest.len(),
            awaited: Awaited::End,
        }));
    }
    Ok(whole)
}

/// Reads the statements that the tokens are a text of, in their order. Nothing may stand between
/// two `;`, before the first and behind the last; it gives no statement.
pub fn read_statements(alloc: Global, tokens: &[Token]) -> Result<List<Statement>, TextError>
    // What is read is of the grammar, and no deeper than the limit; it is not too much, and each
    // SELECT of `*` or `count(*)` has FROM.
    ensures found { IfOk result (λ all. IsTextWithin 64 tokens.now all) }
    ensures few { IfOk result (λ all. length all ≤ 256) }
    ensures have_from { IfOk result HaveFrom }
    // What is so is read, unless memory runs out. So no text is one of two lists of statements.
    ensures only { (all : _) → IsTextWithin 64 tokens.now all → length all ≤ 256 → HaveFrom all
        → Answers (λ x. x) result (Ok all) }

    // Which fault it is: the first token at which no text goes on, or that passes the limit.
    ensures place { (left : _) (awaited : _) → result ≡ Err (Refused (Syntax left awaited))
        → IsPlace IsText tokens.now left }
    ensures deep { (left : _) → result ≡ Err (Refused (TooDeep left))
        → IsTooDeep IsText (IsTextWithin 64) tokens.now left }
    // A SELECT of `*` or `count(*)` that ends without FROM, where nothing before it is refused.
    ensures without_from { (left : _) → result ≡ Err (Refused (WithoutFrom left))
        → IsWithoutFrom 64 tokens.now left }
    ensures without_from_told { (left : _) → IsWithoutFrom 64 tokens.now left
        → Answers (λ x. x) result (Err (WithoutFrom left)) }
    // The 257th statement, where nothing before it is refused.
    ensures too_many { (left : _) → result ≡ Err (Refused (TooMany left))
        → IsTooMany 64 tokens.now left }
    ensures too_many_told { (left : _) → IsTooMany 64 tokens.now left
        → Answers (λ x. x) result (Err (TooMany left)) }
    ensures exact { Answers (λ x. x) result (text_at 64 tokens.now) }
{
    all(alloc, tokens)
}
