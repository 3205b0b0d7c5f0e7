//! Values of the five types, and their text and binary forms.
#![tactic(auto)]

mod binary_form;
mod calendar;
mod codes;
mod col_type;
mod digits;
mod laws;
mod moment;
mod moment_reader;
mod plain;
mod printer;
mod reading;
mod text_form;
mod value;
mod value_fault;
mod word_reader;
mod written;

pub use binary_form::{binary_of, from_binary};
pub use col_type::{ColType, kind_of, oid_of};
pub use laws::{a_value_has_one_text, binary_is_read_again, text_is_read_again};
pub use text_form::{from_text, text_of};
pub use value::Value;
pub use value_fault::ValueFault;
