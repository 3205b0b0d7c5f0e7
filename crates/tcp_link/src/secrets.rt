//! The users who show a password, and the secret for names that no user has.
ghost use Rattle.std.specs.Prelude.{◌≡◌, ◌++◌, IfNone, IfOk, IfSome, OnOk, Ok, None};
ghost use Rattle.pool_base.specs.Outside.{Rose};
ghost use Rattle.tcp_link.specs.Users.{Adds, AreUsersOf, one_user};

use login::{Guard, User};
use pool_base::{List, NoMemory};
use pool_config::{Config, ScramUser};
use scram::{ScramFault, Verifier, read_verifier};
use serve_base::tell;
use std::alloc::Global;
use std::random::RandomSource;
use std::rt::Clock;

/// How many bytes the secret has.
const SIZE: usize = 32;

/// The users who show a password, and the secret that made-up verifiers are made of.
#[derive(Drop)]
pub struct Secrets {
    pub users: List<User>,
    pub secret: [u8; SIZE],
}

impl Secrets {
    /// What a client is asked for its password by.
    pub fn guard(&self) -> Guard<'_>
        ensures { result.users.now ≡ self.now.users }
    {
        Guard {
            users: self.users.as_slice(),
            secret: self.secret.as_slice(),
        }
    }
}

/// The users of a configuration. One whose verifier is none is left out, and so is not let in.
fn users_of(alloc: Global, said: &[ScramUser]) -> Result<List<User>, NoMemory>
    ensures { IfOk result (AreUsersOf said.now) }
{
    let mut users = List::new(alloc);
    let mut left = said;
    while let [user, rest @ ..] = left {
        add_user(alloc, user, &mut users)?;
        left = rest;
    }
    Ok(users)
}

/// A user joins the others, if its verifier is one.
fn add_user(alloc: Global, said: &ScramUser, users: &mut List<User>) -> Result<(), NoMemory>
    ensures { OnOk result (Adds said.now users.old users.new) }
{
    match read_verifier(alloc, said.verifier.as_bytes()) {
        Ok(verifier) => push_user(said, verifier, users),
        Err(ScramFault::NoMemory) => Err(NoMemory),
        Err(ScramFault::Malformed) | Err(ScramFault::WrongProof) => Ok(()),
    }
}

/// A user joins the others, with this verifier.
fn push_user(said: &ScramUser, verifier: Verifier, users: &mut List<User>) -> Result<(), NoMemory>
    ensures { OnOk result (users.new ≡ users.old ++ one_user said.now.name verifier) }
{
    let name = said.name.clone()?;
    users.push(User { name, verifier })
}

/// The random bytes of the secret, where users have passwords. `None`: the count of faults rose.
fn secret_for<R: RandomSource + Clock + Eprint + Copy>(
    rt: &R,
    alloc: Global,
    faults: &mut u64,
    config: &Config,
) -> Option<[u8; SIZE]>
    ensures none { IfNone result (Rose faults.old faults.new) }
    ensures kept { IfSome result (λ _. faults.new ≡ faults.old) }
{
    let mut secret = [0u8; SIZE];
    if config.users.is_empty() || rt.fill_bytes(&mut secret).is_ok() {
        return Some(secret);
    }
    *faults = faults.saturating_add(1);
    tell(rt, alloc, "cannot listen: the system gives no random bytes");
    None
}

/// What clients are asked for their passwords by. `None`: the count of faults rose.
pub fn secrets_of<R: RandomSource + Clock + Eprint + Copy>(
    rt: &R,
    alloc: Global,
    faults: &mut u64,
    config: &Config,
) -> Result<Option<Secrets>, NoMemory>
    ensures none { result ≡ Ok None → Rose faults.old faults.new }
    ensures kept { IfOk result (λ found. IfSome found (λ _. faults.new ≡ faults.old)) }
    ensures users { IfOk result (λ found. IfSome found
        (λ secrets. AreUsersOf config.now.users secrets.users)) }
{
    match secret_for(rt, alloc, faults, config) {
        Some(secret) => Ok(Some(Secrets {
            users: users_of(alloc, config.users.as_slice())?,
            secret,
        })),
        None => Ok(None),
    }
}
