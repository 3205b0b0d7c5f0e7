//! The parameters, and what each takes.
ghost use Rattle.std.specs.Prelude.{◌≡◌, ◌≤◌, ◌++◌, take, drop, string_bytes, IfOk, OnOk};
ghost use Rattle.pool_config.specs.Table.{all_backends, name_of, with_number, place_of, backends_of, users_of, kind_of, is_secret, takes, takes_text, takes_number, takes_truth};
ghost use Rattle.pool_config.specs.Names.{parameter_named, single_named, numbered_named, of_stem, user_named};
ghost use Rattle.pool_config.specs.Users.{digits_of};

use crate::user::UserNumber;
use crate::user_names::user_at;
use crate::value::Value;
use pool_base::{BackendId, NoMemory, Text};
use scram::is_verifier;
use std::alloc::{AllocError, Global};

/// A parameter of the configuration.
#[derive(Clone, Copy, PartialEq, Eq)]
pub enum Parameter {
    ClusteringMode,
    Hostname(BackendId),
    BackendPort(BackendId),
    Weight(BackendId),
    ListenAddresses,
    Port,
    Children,
    LoadBalance,
    StatementBalance,
    InsertLock,
    StopOnMismatch,
    FailoverOnMismatch,
    ServerTimeout,
    AuthenticationTimeout,
    ClientIdleLimit,
    LogConnections,
    LogDisconnections,
    ScramUser(UserNumber),
    ScramVerifier(UserNumber),
    BackendPassword,
}

/// The number in the name of a parameter.
#[derive(Clone, Copy)]
pub enum Number {
    Nobody,
    OfBackend(BackendId),
    OfUser(UserNumber),
}

/// What values a parameter takes.
#[derive(Clone, Copy, PartialEq, Eq)]
pub enum Kind {
    /// The string `snapshot_isolation`.
    Mode,
    /// A string with something in it.
    HostName,
    /// Any string.
    Words,
    /// A number in this range, both ends in it.
    Number { low: u64, high: u64 },
    /// On or off.
    Truth,
    /// A safety parameter: on alone.
    OnlyOn,
    /// The text of a verifier.
    Verifier,
    /// A string of the bytes 32 to 126.
    Secret,
}

#[tactic(auto, using(crate::proofs::Backends::backends_are))]
/// The backends, by number.
pub(crate) fn all_backends() -> [BackendId; 8]
    ensures { result ≡ all_backends }
{
    [
        BackendId { number: 0 },
        BackendId { number: 1 },
        BackendId { number: 2 },
        BackendId { number: 3 },
        BackendId { number: 4 },
        BackendId { number: 5 },
        BackendId { number: 6 },
        BackendId { number: 7 },
    ]
}

impl Parameter {
    /// What a line and a fault call it.
    pub(crate) fn name(self, alloc: Global) -> Result<Text, NoMemory>
        ensures { IfOk result (λ name. name ≡ name_of self) }
    {
        let (stem, number) = self.stem();
        let mut name = String::from_str(alloc, stem)?;
        match number {
            Number::Nobody => {}
            Number::OfBackend(backend) => name.push((b'0' + backend.number) as char)?,
            Number::OfUser(user) => push_digits(&mut name, user)?,
        }
        Ok(Text::from_string(name))
    }

    /// Its name without the number, and the number.
    fn stem(self) -> (&'static str, Number)
        ensures { with_number result.0.now result.1 ≡ name_of self }
    {
        match self {
            Parameter::ClusteringMode => ("backend_clustering_mode", Number::Nobody),
            Parameter::Hostname(b) => ("backend_hostname", Number::OfBackend(b)),
            Parameter::BackendPort(b) => ("backend_port", Number::OfBackend(b)),
            Parameter::Weight(b) => ("backend_weight", Number::OfBackend(b)),
            Parameter::ListenAddresses => ("listen_addresses", Number::Nobody),
            Parameter::Port => ("port", Number::Nobody),
            Parameter::Children => ("num_init_children", Number::Nobody),
            Parameter::LoadBalance => ("load_balance_mode", Number::Nobody),
            Parameter::StatementBalance => ("statement_level_load_balance", Number::Nobody),
            Parameter::InsertLock => ("insert_lock", Number::Nobody),
            Parameter::StopOnMismatch => ("replication_stop_on_mismatch", Number::Nobody),
            Parameter::FailoverOnMismatch => (
                "failover_if_affected_tuples_mismatch",
                Number::Nobody,
            ),
            Parameter::ServerTimeout => ("server_timeout", Number::Nobody),
            Parameter::AuthenticationTimeout => ("authentication_timeout", Number::Nobody),
            Parameter::ClientIdleLimit => ("client_idle_limit", Number::Nobody),
            Parameter::LogConnections => ("log_connections", Number::Nobody),
            Parameter::LogDisconnections => ("log_disconnections", Number::Nobody),
            Parameter::ScramUser(u) => ("scram_user", Number::OfUser(u)),
            Parameter::ScramVerifier(u) => ("scram_verifier", Number::OfUser(u)),
            Parameter::BackendPassword => ("backend_password", Number::Nobody),
        }
    }

    /// Its place in the table of parameters, which no other has.
    pub(crate) fn place(self) -> u8
        ensures { result ≡ place_of self }
    {
        match self {
            Parameter::ClusteringMode => 0,
            Parameter::Hostname(b) => 8 + b.number,
            Parameter::BackendPort(b) => 16 + b.number,
            Parameter::Weight(b) => 24 + b.number,
            Parameter::ListenAddresses => 1,
            Parameter::Port => 2,
            Parameter::Children => 3,
            Parameter::LoadBalance => 4,
            Parameter::StatementBalance => 5,
            Parameter::InsertLock => 6,
            Parameter::StopOnMismatch => 7,
            Parameter::FailoverOnMismatch => 32,
            Parameter::ServerTimeout => 33,
            Parameter::AuthenticationTimeout => 34,
            Parameter::ClientIdleLimit => 35,
            Parameter::LogConnections => 36,
            Parameter::LogDisconnections => 37,
            Parameter::BackendPassword => 38,
            Parameter::ScramUser(u) => 40 + u.number,
            Parameter::ScramVerifier(u) => 56 + u.number,
        }
    }

    /// How many backends there are at least where it is set.
    pub(crate) fn backends(self) -> u8
        ensures count { result ≡ backends_of self }
        ensures few { result ≤ 8 }
    {
        match self {
            Parameter::Hostname(b) | Parameter::BackendPort(b) | Parameter::Weight(b) => b.number
                + 1,
            Parameter::ClusteringMode
            | Parameter::ListenAddresses
            | Parameter::Port
            | Parameter::Children
            | Parameter::LoadBalance
            | Parameter::StatementBalance
            | Parameter::InsertLock
            | Parameter::StopOnMismatch
            | Parameter::FailoverOnMismatch
            | Parameter::ServerTimeout
            | Parameter::AuthenticationTimeout
            | Parameter::ClientIdleLimit
            | Parameter::LogConnections
            | Parameter::LogDisconnections
            | Parameter::ScramUser(_)
            | Parameter::ScramVerifier(_)
            | Parameter::BackendPassword => 0,
        }
    }

    /// How many users there are at least where it is set.
    pub(crate) fn users(self) -> u8
        ensures count { result ≡ users_of self }
        ensures few { result ≤ 16 }
    {
        match self {
            Parameter::ScramUser(u) | Parameter::ScramVerifier(u) => u.number + 1,
            Parameter::ClusteringMode
            | Parameter::Hostname(_)
            | Parameter::BackendPort(_)
            | Parameter::Weight(_)
            | Parameter::ListenAddresses
            | Parameter::Port
            | Parameter::Children
            | Parameter::LoadBalance
            | Parameter::StatementBalance
            | Parameter::InsertLock
            | Parameter::StopOnMismatch
            | Parameter::FailoverOnMismatch
            | Parameter::ServerTimeout
            | Parameter::AuthenticationTimeout
            | Parameter::ClientIdleLimit
            | Parameter::LogConnections
            | Parameter::LogDisconnections
            | Parameter::BackendPassword => 0,
        }
    }

    /// What values it takes.
    pub(crate) fn kind(self) -> Kind
        ensures { result ≡ kind_of self }
    {
        match self {
            Parameter::ClusteringMode => Kind::Mode,
            Parameter::Hostname(_) => Kind::HostName,
            Parameter::BackendPort(_) | Parameter::Port => Kind::Number {
                low: 1,
                high: 65535,
            },
            Parameter::Weight(_) => Kind::Number { low: 0, high: 1000 },
            Parameter::ListenAddresses => Kind::Words,
            Parameter::Children => Kind::Number { low: 1, high: 64 },
            Parameter::LoadBalance
            | Parameter::StatementBalance
            | Parameter::LogConnections
            | Parameter::LogDisconnections => Kind::Truth,
            Parameter::ServerTimeout => Kind::Number { low: 2, high: 600 },
            Parameter::AuthenticationTimeout => Kind::Number { low: 1, high: 600 },
            Parameter::ClientIdleLimit => Kind::Number {
                low: 0,
                high: 86400,
            },
            Parameter::InsertLock | Parameter::StopOnMismatch | Parameter::FailoverOnMismatch => {
                Kind::OnlyOn
            }
            Parameter::ScramUser(_) => Kind::Words,
            Parameter::ScramVerifier(_) => Kind::Verifier,
            Parameter::BackendPassword => Kind::Secret,
        }
    }
}

/// The digits of a user's number, put behind a name.
fn push_digits(name: &mut String, user: UserNumber) -> Result<(), AllocError>
    ensures { OnOk result (string_bytes name.new
        ≡ string_bytes name.old ++ digits_of user.number) }
{
    if user.number < 10 {
        return name.push((b'0' + user.number) as char);
    }
    name.push('1')?;
    name.push((b'&' + user.number) as char)
}

/// The parameter of that name, if there is one.
#[tactic(auto, unfolding(crate::specs::Names::parameter_named))]
pub(crate) fn parameter_named(name: &[u8]) -> Option<Parameter>
    ensures { result ≡ parameter_named name.now }
{
    match single_named(name) {
        Some(parameter) => Some(parameter),
        None => match numbered_named(name) {
            Some(parameter) => Some(parameter),
            None => user_named(name),
        },
    }
}

/// A name's first bytes, and what stands behind them.
fn cut_at(name: &[u8], count: usize) -> (&[u8], &[u8])
    ensures front { result.0.now ≡ take count name.now }
    ensures behind { result.1.now ≡ drop count name.now }
{
    name.split_at(name.len().min(count))
}

/// The parameter of that name among those of one user.
fn user_named(name: &[u8]) -> Option<Parameter>
    ensures { result ≡ user_named name.now }
{
    let (stem, digits) = cut_at(name, 10);
    if stem == b"scram_user".as_slice() {
        return user_at(digits).map(Parameter::ScramUser);
    }
    let (stem, digits) = cut_at(name, 14);
    if stem == b"scram_verifier".as_slice() {
        return user_at(digits).map(Parameter::ScramVerifier);
    }
    None
}

/// The parameter of that name among those without a number.
fn single_named(name: &[u8]) -> Option<Parameter>
    ensures { result ≡ single_named name.now }
{
    if name == b"backend_clustering_mode".as_slice() {
        Some(Parameter::ClusteringMode)
    } else if name == b"listen_addresses".as_slice() {
        Some(Parameter::ListenAddresses)
    } else if name == b"port".as_slice() {
        Some(Parameter::Port)
    } else if name == b"num_init_children".as_slice() {
        Some(Parameter::Children)
    } else if name == b"load_balance_mode".as_slice() {
        Some(Parameter::LoadBalance)
    } else if name == b"statement_level_load_balance".as_slice() {
        Some(Parameter::StatementBalance)
    } else if name == b"insert_lock".as_slice() {
        Some(Parameter::InsertLock)
    } else if name == b"replication_stop_on_mismatch".as_slice() {
        Some(Parameter::StopOnMismatch)
    } else if name == b"failover_if_affected_tuples_mismatch".as_slice() {
        Some(Parameter::FailoverOnMismatch)
    } else if name == b"server_timeout".as_slice() {
        Some(Parameter::ServerTimeout)
    } else if name == b"authentication_timeout".as_slice() {
        Some(Parameter::AuthenticationTimeout)
    } else if name == b"client_idle_limit".as_slice() {
        Some(Parameter::ClientIdleLimit)
    } else if name == b"log_connections".as_slice() {
        Some(Parameter::LogConnections)
    } else if name == b"log_disconnections".as_slice() {
        Some(Parameter::LogDisconnections)
    } else if name == b"backend_password".as_slice() {
        Some(Parameter::BackendPassword)
    } else {
        None
    }
}

#[tactic(auto, using(crate::proofs::Backends::backend_at))]
/// The parameter of that name among those of one backend.
fn numbered_named(name: &[u8]) -> Option<Parameter>
    ensures { result ≡ numbered_named name.now }
{
    if name.is_empty() {
        return None;
    }
    let (stem, digits) = name.split_at(name.len() - 1);
    let digit = digits[0];
    if digit < b'0' {
        return None;
    }
    match BackendId::from_number(digit - b'0') {
        Some(backend) => of_stem(stem, backend),
        None => None,
    }
}

/// The parameter of that backend whose name begins so.
fn of_stem(stem: &[u8], backend: BackendId) -> Option<Parameter>
    ensures { result ≡ of_stem stem.now backend }
{
    if stem == b"backend_hostname".as_slice() {
        Some(Parameter::Hostname(backend))
    } else if stem == b"backend_port".as_slice() {
        Some(Parameter::BackendPort(backend))
    } else if stem == b"backend_weight".as_slice() {
        Some(Parameter::Weight(backend))
    } else {
        None
    }
}

/// Whether a parameter of that kind takes the value.
pub(crate) fn takes(alloc: Global, kind: Kind, value: &Value) -> Result<bool, NoMemory>
    ensures { IfOk result (λ taken. taken ≡ takes kind value.now) }
{
    match value {
        Value::Text(text) => takes_text(alloc, kind, text),
        Value::Number(number) => Ok(takes_number(kind, *number)),
        Value::Truth(on) => Ok(takes_truth(kind, *on)),
    }
}

fn takes_text(alloc: Global, kind: Kind, text: &Text) -> Result<bool, NoMemory>
    ensures { IfOk result (λ taken. taken ≡ takes_text kind text.now) }
{
    match kind {
        Kind::Mode => Ok(text.as_str() == "snapshot_isolation"),
        Kind::HostName => Ok(!text.is_empty()),
        Kind::Words => Ok(true),
        Kind::Number { .. } | Kind::Truth | Kind::OnlyOn => Ok(false),
        Kind::Verifier => is_verifier(alloc, text.as_str().as_bytes()),
        Kind::Secret => Ok(is_secret(text.as_str().as_bytes())),
    }
}

/// Whether all bytes are such as may stand in a password.
fn is_secret(text: &[u8]) -> bool
    ensures { result ≡ is_secret text.now }
{
    let mut left = text;
    while let [byte, rest @ ..] = left {
        if *byte < 32 || *byte > 126 {
            return false;
        }
        left = rest;
    }
    true
}

fn takes_number(kind: Kind, number: u64) -> bool
    ensures { result ≡ takes_number kind number }
{
    match kind {
        Kind::Number { low, high } => low <= number && number <= high,
        Kind::Mode
        | Kind::HostName
        | Kind::Words
        | Kind::Truth
        | Kind::OnlyOn
        | Kind::Verifier
        | Kind::Secret => false,
    }
}

fn takes_truth(kind: Kind, on: bool) -> bool
    ensures { result ≡ takes_truth kind on }
{
    match kind {
        Kind::Truth => true,
        Kind::OnlyOn => on,
        Kind::Mode
        | Kind::HostName
        | Kind::Words
        | Kind::Number { .. }
        | Kind::Verifier
        | Kind::Secret => false,
    }
}
