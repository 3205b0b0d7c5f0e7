//! The replies of the pool to its clients: what errors say, and messages as bytes.
#![tactic(auto)]

mod codes;
mod fields;
mod formats;
mod range;
mod report;
mod rows;
mod saying;
mod tags;

pub use codes::{of_backend, of_check};
pub use fields::fields_of;
pub use formats::format_at;
pub use range::are_in_range;
pub use report::{
    READY_ROOM, REPORT_ROOM, Severity, TAG_ROOM, put_bytes, put_complete, put_ready, put_report,
};
pub use rows::{description_bytes, message_bytes, row_bytes, rows_bytes};
pub use saying::Saying;
pub use tags::{fixed_tag, tag_text};
