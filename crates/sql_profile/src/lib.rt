//! SQL as the pool takes it: the trees of statements, a text read as its statements or refused by
//! name, and the one text of a statement. What it exports is built and proved in the crates below.
//!
//! Writes a statement and reads its text again: what is read are the tokens that were written, each
//! of them and no others.
//!
//! What a schema's text says are tables that a schema can have, so that they are written as a text
//! which says them again.
//!
//! What is read of a text of SQL: statements of the grammar, with short names, and with no more
//! rows than a text has tokens.
//!
//! Which name a refused text of SQL is told, said without its reader: at the token that is refused
//! one thing is due by the productions of the grammar, and the rules go by that.
//!
//! Writes a statement and reads its text again: what is read of a statement of the grammar is that
//! very statement alone, unless its text passes a limit.
//!
//! What the text of a statement that is read says of its tokens: a text can have each of them, and
//! has room for all.
#![tactic(auto)]

mod again;
mod due;
mod fault;
mod formed;
mod reader;
mod round;
mod schema_round;
mod schemas;
mod within;

pub use again::tokens_again;
pub use due::awaited_is_due;
pub use fault::AgainFault;
pub use formed::texts_are_formed;
pub use reader::read_statements;
pub use round::statements_again;
pub use schema_round::schema_again;
pub use schemas::schemas_are_allowed;
pub use sql_print::print_statement;
pub use sql_reader::{STATEMENT_LIMIT, SqlFault};
pub use sql_tree::{
    Cell, Comparison, Delete, Expr, Insert, OrderItem, ProductPart, ProductSign, Select,
    SelectItem, SelectList, SetItem, Statement, SumPart, Update,
};
pub use within::{refusals_are_limits, tokens_fit};
