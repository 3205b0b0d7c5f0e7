//! The server's side.
use crate::given::{given, put_fault, put_reply, spelled};
use case_lines::{Around, Told};
use pool_base::NoMemory;
use scram::{ScramFault, ScramServer, read_verifier};
use std::alloc::Global;

/// A server with the verifier and the nonce that stand round the case.
fn server_of(alloc: Global, around: &Around) -> Result<ScramServer, ScramFault> {
    let text = given(alloc, around, "verifier")?;
    let verifier = read_verifier(alloc, text.as_slice())?;
    let nonce = given(alloc, around, "nonce")?;
    Ok(ScramServer::new(verifier, nonce))
}

/// `FIRST LAST`: the answers to the two messages of a client.
pub(crate) fn put_server(alloc: Global, around: &Around, asked: &str, told: &mut Told) {
    let (first, last) = asked.split_once(' ').unwrap_or((asked, ""));
    let first = spelled(alloc, first);
    let last = spelled(alloc, last);
    match server_of(alloc, around) {
        Ok(mut server) => {
            put_reply(&server.first(alloc, first.as_slice()), told);
            told.put(" ");
            put_reply(&server.last(alloc, last.as_slice()), told);
        }
        Err(fault) => put_fault(fault, told),
    }
}
