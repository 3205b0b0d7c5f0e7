//! Reads a whole expression, or the one at the front.
ghost use Rattle.std.specs.Prelude.{◌≡◌, ◌<◌, length, IfOk, Ok, Err};
ghost use Rattle.sql_tokens.specs.declared.fault.Fault.TheVariants.{Syntax, TooDeep};
ghost use Rattle.sql_tokens.specs.declared.fault.ReadError.TheVariants.{Fault as ReadFault};
ghost use Rattle.sql_tokens.specs.Grammar.{IsPlace, IsTooDeep};
ghost use Rattle.sql_tokens.specs.Reading.{Gives};
ghost use Rattle.sql_expr.specs.Grammar.{IsText, IsTextWithin};
ghost use Rattle.sql_expr.specs.Reading.{expr_at, whole_at};

use crate::reading::disjunction;
use sql_tokens::{Awaited, ReadError, Token, unexpected};
use sql_tree::Expr;
use std::alloc::Global;

/// How many nestings of an expression may be open at once.
pub const NESTING_LIMIT: u32 = 64;

/// Reads the expression that stands at the front, as long as it can be.
pub fn read_front(alloc: Global, tokens: &[Token]) -> Result<(Expr, &[Token]), ReadError>
    ensures gives { Gives (λ x. (x.0, x.1.now)) result (expr_at 64 tokens.now) }
    ensures shorter { IfOk result (λ x. length x.1.now < length tokens.now) }
{
    disjunction(alloc, NESTING_LIMIT, tokens)
}

fn all(alloc: Global, tokens: &[Token]) -> Result<Expr, ReadError>
    ensures { Gives (λ x. x) result (whole_at 64 tokens.now) }
{
    let (whole, rest) = read_front(alloc, tokens)?;
    if !rest.is_empty() {
        drop(whole);
        return Err(unexpected(rest, Awaited::End));
    }
    Ok(whole)
}

/// Reads the expression that the tokens are a text of.
pub fn read_expr(alloc: Global, tokens: &[Token]) -> Result<Expr, ReadError>
    // What is read is of the grammar, and no deeper than the limit.
    ensures found { IfOk result (λ e. IsTextWithin 64 tokens.now e) }
    // What is so is read, unless memory runs out. So no text is one of two expressions.
    ensures only { (e : _) → IsTextWithin 64 tokens.now e → Gives (λ x. x) result (Ok e) }

    // Which fault it is: the first token at which no text goes on, or that passes the limit.
    ensures place { (left : _) (awaited : _) → result ≡ Err (ReadFault (Syntax left awaited))
        → IsPlace IsText tokens.now left }
    ensures deep { (left : _) → result ≡ Err (ReadFault (TooDeep left))
        → IsTooDeep IsText (IsTextWithin 64) tokens.now left }
    ensures exact { Gives (λ x. x) result (whole_at 64 tokens.now) }
{
    all(alloc, tokens)
}
