//! Verifiers: of a text, and of a password.
use crate::given::{put_fault, spelled};
use case_lines::Told;
use scram::{Verifier, is_password, make_verifier, read_verifier};
use std::alloc::Global;

fn put_found(verifier: &Verifier, told: &mut Told) {
    told.put_number(u64::from(verifier.rounds));
    told.put(" ");
    told.put_all_hex(verifier.salt.as_slice());
    told.put(" ");
    told.put_all_hex(verifier.stored.as_slice());
    told.put(" ");
    told.put_all_hex(verifier.server.as_slice());
}

/// The parts of the verifier of a text.
pub(crate) fn put_verifier(alloc: Global, asked: &str, told: &mut Told) {
    let text = spelled(alloc, asked);
    match read_verifier(alloc, text.as_slice()) {
        Ok(verifier) => put_found(&verifier, told),
        Err(fault) => put_fault(fault, told),
    }
}

fn put_made_of(alloc: Global, password: &[u8], salt: &[u8], rounds: u32, told: &mut Told) {
    if !is_password(password) || rounds < 1 || rounds > 100_000 {
        return told.put("not taken");
    }
    match make_verifier(alloc, password, salt, rounds) {
        Ok(verifier) => put_found(&verifier, told),
        Err(_) => told.put("no memory"),
    }
}

/// `ROUNDS SALT PASSWORD`: the parts of the verifier that is made.
pub(crate) fn put_made(alloc: Global, asked: &str, told: &mut Told) {
    let (rounds, rest) = asked.split_once(' ').unwrap_or((asked, ""));
    let (salt, password) = rest.split_once(' ').unwrap_or((rest, ""));
    let salt = spelled(alloc, salt);
    let password = spelled(alloc, password);
    match rounds.parse::<u32>() {
        Ok(rounds) => put_made_of(alloc, password.as_slice(), salt.as_slice(), rounds, told),
        Err(_) => told.put("no number"),
    }
}
