//! Whose password a client is asked for.
ghost use Rattle.std.specs.Prelude.{◌≡◌, false, IfOk, length, option_map};
ghost use Rattle.login.specs.Candidates.{named, IsCandidate, IsLike, IsMadeUp};

use pool_base::{List, NoMemory, Text};
use scram::{Verifier, stand_in};
use std::alloc::Global;

/// A user who is let in with a password: its name, and what was made of the password.
#[derive(Drop)]
pub struct User {
    pub name: Text,
    pub verifier: Verifier,
}

/// The users, and the secret that made-up verifiers are made of.
#[derive(Clone, Copy)]
pub struct Guard<'a> {
    pub users: &'a [User],
    pub secret: &'a [u8],
}

/// The verifier that a client's proof is held against, and whether it is that of a user.
#[derive(Drop)]
pub struct Candidate {
    pub verifier: Verifier,
    pub is_user: bool,
}

/// The rounds of a made-up verifier where there is no user: those that PostgreSQL takes.
const ROUNDS: u32 = 4096;

/// A salt as long as PostgreSQL's.
const SALT: [u8; 16] = [0; 16];

/// The first of the users that has this name.
fn user_named<'a>(users: &'a [User], name: &[u8]) -> Option<&'a User>
    ensures { option_map (λ user. user.now) result ≡ named name.now users.now }
{
    let mut left = users;
    while let [user, rest @ ..] = left {
        if user.name.as_bytes() == name {
            return Some(user);
        }
        left = rest;
    }
    None
}

/// The same verifier again.
fn copy_of(alloc: Global, verifier: &Verifier) -> Result<Verifier, NoMemory>
    ensures { IfOk result (λ copy. copy ≡ verifier.now) }
{
    let salt = List::from_slice(alloc, verifier.salt.as_slice())?;
    Ok(Verifier {
        rounds: verifier.rounds,
        salt,
        stored: verifier.stored,
        server: verifier.server,
    })
}

/// What made-up verifiers are like: the verifier of the first user.
fn like(alloc: Global, users: &[User]) -> Result<Verifier, NoMemory>
    ensures { IfOk result (λ like. IsLike users.now like) }
{
    match users {
        [user, ..] => copy_of(alloc, &user.verifier),
        [] => Ok(Verifier {
            rounds: ROUNDS,
            salt: List::from_slice(alloc, SALT.as_slice())?,
            stored: [0; 32],
            server: [0; 32],
        }),
    }
}

impl<'a> Guard<'a> {
    /// A verifier that is made up, for a name that no user has.
    fn stranger(&self, alloc: Global, name: &[u8]) -> Result<Candidate, NoMemory>
        ensures other { IfOk result (λ c. c.is_user ≡ false) }
        ensures made_up { IfOk result (λ c. IsMadeUp self.now.users.now self.now.secret.now
            name.now c.verifier) }
    {
        let like = like(alloc, self.users)?;
        let verifier = stand_in(alloc, self.secret, name, &like)?;
        Ok(Candidate {
            verifier,
            is_user: false,
        })
    }

    /// Whose password a client of this name is asked for. A name that no user has gets a verifier
    /// that is the same each time, with the rounds of the first user and a salt as long as its.
    pub fn candidate(&self, alloc: Global, name: &[u8]) -> Result<Candidate, NoMemory>
        ensures is { IfOk result (λ c. IsCandidate (named name.now self.now.users.now) c) }
        ensures made_up { IfOk result (λ c. c.is_user ≡ false
            → IsMadeUp self.now.users.now self.now.secret.now name.now c.verifier) }
    {
        match user_named(self.users, name) {
            Some(user) => Ok(Candidate {
                verifier: copy_of(alloc, &user.verifier)?,
                is_user: true,
            }),
            None => self.stranger(alloc, name),
        }
    }
}
