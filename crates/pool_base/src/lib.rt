//! The words that every crate speaks: lists and texts, numbers of sessions and backends, the calls
//! of the gate, and what lies outside the program.
#![tactic(auto)]

mod backend_id;
mod backend_set;
mod boxed;
mod code;
mod copy;
mod fault_plan;
mod fixed_clock;
mod gate_call;
mod list;
mod memory;
mod no_memory;
mod outside;
mod read;
mod remaining;
mod session_id;
mod sure;
mod system;
mod text;
mod write;

pub use backend_id::BackendId;
pub use backend_set::BackendSet;
pub use boxed::Boxed;
pub use code::Code;
pub use fixed_clock::FixedClock;
pub use gate_call::{GateAnswer, GateCall, View};
pub use list::List;
pub use memory::{MemoryFiles, MemorySink, MemorySource};
pub use no_memory::NoMemory;
pub use outside::{Clock, Files, Got, Put, Sink, Source};
pub use read::{ReadFault, read_whole};
pub use session_id::SessionId;
pub use sure::{SureFiles, SureSink, SureSource};
pub use system::{ReaderSource, SystemClock, SystemFiles, WriterSink};
pub use text::Text;
pub use write::{SinkFailed, write_all};
