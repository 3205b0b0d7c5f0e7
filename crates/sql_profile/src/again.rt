//! Writes a statement and reads the tokens of its text.
ghost use Rattle.std.specs.Prelude.{◌≡◌, ◌≤◌, ◌^◌, length, map, IfOk, Err};
ghost use Rattle.sql_print.specs.Printed.{statement_text, tokens_of};
ghost use Rattle.sql_profile.specs.Lexemes.{AreLexemes, token_of};
ghost use Rattle.sql_profile.specs.declared.fault.AgainFault.TheVariants.{TooLong as LongText};

use crate::fault::AgainFault;
use pool_base::{List, NoMemory};
use sql_print::print_statement;
use sql_tokens::{Placed, Token, read_tokens};
use sql_tree::Statement;
use std::alloc::Global;

/// The tokens of a statement's text.
pub fn tokens_again(alloc: Global, statement: &Statement) -> Result<List<Token>, AgainFault>
    // They are those that were written, where a text can have each of them and has room for all.
    ensures same { AreLexemes (tokens_of statement.now) → length (tokens_of statement.now) ≤ 65536
        → IfOk result (λ tokens. tokens ≡ map token_of (tokens_of statement.now)) }

    ensures too_long { result ≡ Err LongText → 2 ^ 32 ≤ length (statement_text statement.now) }
{
    let text = print_statement(alloc, statement)?;
    if text.len() > u32::MAX as usize {
        return Err(AgainFault::TooLong);
    }
    let placed = read_tokens(alloc, text.as_str())?;
    Ok(tokens_alone(alloc, placed)?)
}

/// The tokens without their places.
fn tokens_alone(alloc: Global, placed: List<Placed>) -> Result<List<Token>, NoMemory>
    ensures { IfOk result (λ tokens. tokens ≡ map (λ item. item.token) placed) }
{
    let tokens: Vec<Token> = placed
        .into_vec()
        .into_iter()
        .map(|item| item.token)
        .collect(alloc)?;
    Ok(List::from_vec(tokens))
}
