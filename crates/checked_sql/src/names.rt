//! What may be named in an expression.
use pg_values::ColType;
use schema::ColumnDef;

/// The columns that an expression may name, and the types of its parameters.
#[derive(Clone, Copy)]
pub(crate) struct Names<'a> {
    pub(crate) columns: &'a [ColumnDef],
    pub(crate) kinds: &'a [ColType],
}
