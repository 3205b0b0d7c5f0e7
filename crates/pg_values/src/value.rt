//! Values.
ghost use Rattle.std.specs.Prelude.{◌≡◌};

use pool_base::Text;
use std::alloc::AllocError;

/// A value of one of the five types, or none.
#[derive(Debug, PartialEq, Eq, Drop)]
pub enum Value {
    Null,
    Bool(bool),
    Int4(i32),
    Int8(i64),
    Text(Text),
    /// Microseconds since 2000-01-01 00:00 UTC.
    Moment(i64),
}

impl Clone for Value {
    ghost is_clone = { λ value copy. copy ≡ value };

    fn clone(&self) -> Result<Value, AllocError> {
        Ok(match self {
            Value::Null => Value::Null,
            Value::Bool(truth) => Value::Bool(*truth),
            Value::Int4(number) => Value::Int4(*number),
            Value::Int8(number) => Value::Int8(*number),
            Value::Text(text) => Value::Text(text.clone()?),
            Value::Moment(micros) => Value::Moment(*micros),
        })
    }
}
