//! What is answered to a message that asks for no order.
use pool_base::List;
use wire_session::Refusal;

/// What is answered to a message.
#[derive(Drop)]
pub enum Replied {
    /// These bytes.
    Bytes(List<u8>),
    Refused(Refusal),
}
