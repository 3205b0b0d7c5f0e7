//! The messages of the PostgreSQL frontend/backend protocol 3.0, read from bytes and written as
//! bytes.
//! Each message has one spelling, and every proper beginning of one asks for more.
#![tactic(auto)]

mod client;
mod client_reading;
mod client_writing;
mod entries;
mod field_fault;
mod fields;
mod frame;
mod laws;
mod login;
mod read;
mod server;
mod server_reading;
mod server_writing;
mod spelling;
mod start;
mod start_reading;
mod strings;

pub use client::ClientMessage;
pub use client_reading::read_client;
pub use client_writing::{fits, write_client};
pub use frame::{MESSAGE_LIMIT, START_LIMIT};
pub use laws::{
    beginnings_need_more, fronts_stay, no_form_begins_another, read_is_spelled, spelled_is_read,
    written_is_a_form,
};
pub use login::{login_fits, read_login, write_login};
pub use read::Read;
pub use server::{Field, Part, ServerMessage};
pub use server_reading::read_server;
pub use server_writing::{server_fits, write_server};
pub use start::{Pair, StartMessage};
pub use start_reading::read_start;
