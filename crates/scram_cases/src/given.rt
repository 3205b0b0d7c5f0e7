//! What stands in a table, and how faults are told.
use case_lines::{Around, Told, bytes_of};
use pool_base::{List, NoMemory};
use scram::ScramFault;
use std::alloc::Global;

/// The bytes that stand round the cases under this word.
pub(crate) fn given(alloc: Global, around: &Around, word: &str) -> Result<List<u8>, NoMemory> {
    let mut text = Told::new(alloc);
    around.put_texts(word, &mut text);
    bytes_of(alloc, text.as_str().trim_end_matches('\n'))
}

/// The bytes that a text spells. Where memory is refused they are none.
pub(crate) fn spelled(alloc: Global, text: &str) -> List<u8> {
    match bytes_of(alloc, text) {
        Ok(bytes) => bytes,
        Err(_) => List::new(alloc),
    }
}

pub(crate) fn put_fault(fault: ScramFault, told: &mut Told) {
    told.put(match fault {
        ScramFault::Malformed => "malformed",
        ScramFault::WrongProof => "wrong proof",
        ScramFault::NoMemory => "no memory",
    });
}

/// What was answered to a message.
pub(crate) fn put_reply(reply: &Result<List<u8>, ScramFault>, told: &mut Told) {
    match reply {
        Ok(reply) => told.put_escaped(reply.as_slice()),
        Err(fault) => put_fault(*fault, told),
    }
}
