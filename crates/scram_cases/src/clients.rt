//! The client's side.
use crate::given::{given, put_fault, put_reply, spelled};
use case_lines::{Around, Told};
use scram::{ScramClient, ScramFault, is_password};
use std::alloc::Global;

fn put_checked(checked: &Result<(), ScramFault>, told: &mut Told) {
    match checked {
        Ok(()) => told.put("accepted"),
        Err(fault) => put_fault(*fault, told),
    }
}

/// What a client says to two messages, with the name, the password and the nonce that stand round
/// the case.
fn put_said(
    alloc: Global,
    around: &Around,
    first: &[u8],
    last: &[u8],
    told: &mut Told,
) -> Result<(), ScramFault> {
    let user = given(alloc, around, "user")?;
    let password = given(alloc, around, "password")?;
    let nonce = given(alloc, around, "nonce")?;
    if !is_password(password.as_slice()) {
        told.put("not taken");
        return Ok(());
    }
    let mut client = ScramClient::new(user, password, nonce);
    let opening = client.first(alloc)?;
    told.put_escaped(opening.as_slice());
    told.put(" ");
    put_reply(&client.answer(alloc, first), told);
    told.put(" ");
    put_checked(&client.check(alloc, last), told);
    Ok(())
}

/// `FIRST LAST`: what a client says to the two messages of a server.
pub(crate) fn put_client(alloc: Global, around: &Around, asked: &str, told: &mut Told) {
    let (first, last) = asked.split_once(' ').unwrap_or((asked, ""));
    let first = spelled(alloc, first);
    let last = spelled(alloc, last);
    if let Err(fault) = put_said(alloc, around, first.as_slice(), last.as_slice(), told) {
        put_fault(fault, told);
    }
}
