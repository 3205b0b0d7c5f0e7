//! From what the lines set to the configuration.
ghost use Rattle.std.specs.Prelude.{◌≡◌, ◌<◌, ◌≤◌, ◌^◌, ◌∷◌, [], Some, None, IfOk, map, option_map, find, take, Result, Ok};
ghost use Rattle.pool_config.specs.Table.{name_of};
ghost use Rattle.pool_config.specs.Configuration.{standing, count_of, backends_in, lacks, missing_of, required_at, required_of, users_in, user_count_of, user_of, later, text_in, text_there, number_in, truth_in, value_for, node_of, sessions_of, config_of};
ghost use Rattle.pool_config.specs.Reader.{Gives, unless_missing};
ghost use Rattle.pool_config.specs.Taken.{AllTaken};

use crate::config::{Config, Node, ScramUser, Sessions};
use crate::fault::ConfigFault;
use crate::parameter::{Parameter, all_backends};
use crate::user::UserNumber;
use crate::user_names::all_users;
use crate::value::Value;
use pool_base::{BackendId, List, NoMemory, Text};
use std::alloc::Global;

/// What one line sets.
#[derive(Drop)]
pub struct Setting {
    pub parameter: Parameter,
    pub value: Value,
}

const LISTEN: &str = "localhost";

const PORT: u16 = 9999;

const CHILDREN: u32 = 32;

const WEIGHT: u32 = 1;

const SERVER_TIMEOUT: u32 = 10;

const AUTHENTICATION_TIMEOUT: u32 = 30;

const CLIENT_IDLE_LIMIT: u32 = 0;

/// The value that stands for the parameter: that of the last line for it.
fn standing(settings: &[Setting], parameter: Parameter) -> Option<&Value>
    ensures { option_map (λ value. value.now) result ≡ standing parameter settings.now }
{
    let mut found = None;
    let mut left = settings;
    while let [setting, rest @ ..] = left {
        if setting.parameter.place() == parameter.place() {
            found = Some(&setting.value);
        }
        left = rest;
    }
    found
}

/// No setting gives the parameter.
fn lacks(settings: &[Setting], parameter: Parameter) -> bool
    ensures { result ≡ lacks settings.now parameter }
{
    standing(settings, parameter).is_none()
}

#[tactic(auto, using(crate::proofs::Ranges::from_one))]
/// How many backends the settings speak of: one more than the greatest number, and at least one.
fn backend_count(settings: &[Setting]) -> usize
    ensures count { result ≡ count_of settings.now }
    ensures few { result ≤ 8 }
{
    let mut count: u8 = 1;
    let mut left = settings;
    while let [setting, rest @ ..] = left {
        count = count.max(setting.parameter.backends());
        left = rest;
    }
    count as usize
}

/// The first of the backends whose hostname is not given.
fn lacking_hostname(settings: &[Setting], backends: &[BackendId]) -> Option<Parameter>
    ensures { result ≡ find (lacks settings.now) (map Parameter.Hostname backends.now) }
{
    let mut left = backends;
    while let [backend, rest @ ..] = left {
        let parameter = Parameter::Hostname(*backend);
        if lacks(settings, parameter) {
            return Some(parameter);
        }
        left = rest;
    }
    None
}

/// The first of the backends whose port is not given.
fn lacking_port(settings: &[Setting], backends: &[BackendId]) -> Option<Parameter>
    ensures { result ≡ find (lacks settings.now) (map Parameter.BackendPort backends.now) }
{
    let mut left = backends;
    while let [backend, rest @ ..] = left {
        let parameter = Parameter::BackendPort(*backend);
        if lacks(settings, parameter) {
            return Some(parameter);
        }
        left = rest;
    }
    None
}

/// How many users the settings speak of: one more than the greatest number, and else none.
fn user_count(settings: &[Setting]) -> usize
    ensures count { result ≡ user_count_of settings.now }
    ensures few { result ≤ 16 }
{
    let mut count: u8 = 0;
    let mut left = settings;
    while let [setting, rest @ ..] = left {
        count = count.max(setting.parameter.users());
        left = rest;
    }
    count as usize
}

/// The first of the users whose name is not given.
fn lacking_name(settings: &[Setting], users: &[UserNumber]) -> Option<Parameter>
    ensures { result ≡ find (lacks settings.now) (map Parameter.ScramUser users.now) }
{
    let mut left = users;
    while let [user, rest @ ..] = left {
        let parameter = Parameter::ScramUser(*user);
        if lacks(settings, parameter) {
            return Some(parameter);
        }
        left = rest;
    }
    None
}

/// The first of the users whose verifier is not given.
fn lacking_verifier(settings: &[Setting], users: &[UserNumber]) -> Option<Parameter>
    ensures { result ≡ find (lacks settings.now) (map Parameter.ScramVerifier users.now) }
{
    let mut left = users;
    while let [user, rest @ ..] = left {
        let parameter = Parameter::ScramVerifier(*user);
        if lacks(settings, parameter) {
            return Some(parameter);
        }
        left = rest;
    }
    None
}

/// The first parameter of the users that is not given.
fn missing_of_users(settings: &[Setting], users: &[UserNumber]) -> Option<Parameter>
    ensures { result ≡ find (lacks settings.now) (required_of users.now) }
{
    match lacking_name(settings, users) {
        Some(parameter) => Some(parameter),
        None => lacking_verifier(settings, users),
    }
}

/// The first required parameter that is not given.
fn missing(settings: &[Setting], backends: &[BackendId], users: &[UserNumber]) -> Option<Parameter>
    requires backends { backends.now ≡ backends_in settings.now }
    requires users { users.now ≡ users_in settings.now }
    ensures { result ≡ missing_of settings.now }
{
    match missing_at_backends(settings, backends) {
        Some(parameter) => Some(parameter),
        None => missing_of_users(settings, users),
    }
}

/// The mode, or the first parameter of the backends that is not given.
fn missing_at_backends(settings: &[Setting], backends: &[BackendId]) -> Option<Parameter>
    ensures { result ≡ find (lacks settings.now) (required_at backends.now) }
{
    if lacks(settings, Parameter::ClusteringMode) {
        return Some(Parameter::ClusteringMode);
    }
    match lacking_hostname(settings, backends) {
        Some(parameter) => Some(parameter),
        None => lacking_port(settings, backends),
    }
}

/// The configuration of the settings, if nothing is missing.
pub(crate) fn configuration(alloc: Global, settings: &[Setting]) -> Result<Config, ConfigFault>
    requires { AllTaken settings.now }
    ensures { Gives result (unless_missing (missing_of settings.now) settings.now) }
{
    let all = all_backends();
    let backends = &all[..backend_count(settings)];
    let everybody = all_users();
    let users = &everybody[..user_count(settings)];
    if let Some(parameter) = missing(settings, backends, users) {
        return Err(ConfigFault::Missing(parameter.name(alloc)?));
    }
    Ok(config_of(alloc, settings, backends, users)?)
}

#[tactic(auto, using(crate::proofs::Ranges::port_small, crate::proofs::Ranges::children_small))]
/// The configuration of settings that have all that is required.
fn config_of(
    alloc: Global,
    settings: &[Setting],
    backends: &[BackendId],
    users: &[UserNumber],
) -> Result<Config, NoMemory>
    requires taken { AllTaken settings.now }
    requires backends { backends.now ≡ backends_in settings.now }
    requires users { users.now ≡ users_in settings.now }
    ensures { IfOk result (λ config. config ≡ config_of settings.now) }
{
    let nodes = nodes_of(alloc, settings, backends)?;
    let listen = text_or(
        alloc,
        standing(settings, Parameter::ListenAddresses),
        LISTEN,
    )?;
    let port = port_or(standing(settings, Parameter::Port), PORT);
    let children = number_or(standing(settings, Parameter::Children), CHILDREN);
    let balance = truth_or(standing(settings, Parameter::LoadBalance), true);
    let per_statement = truth_or(standing(settings, Parameter::StatementBalance), false);
    let sessions = sessions_of(settings);
    let users = users_of(alloc, settings, users)?;
    let backend_password = text_there(standing(settings, Parameter::BackendPassword))?;
    Ok(Config {
        nodes,
        listen,
        port,
        children,
        balance,
        per_statement,
        sessions,
        users,
        backend_password,
    })
}

#[tactic(auto, using(crate::proofs::Ranges::server_small, crate::proofs::Ranges::authentication_small, crate::proofs::Ranges::idle_small))]
/// How long sessions wait, and what is told of them.
fn sessions_of(settings: &[Setting]) -> Sessions
    requires { AllTaken settings.now }
    ensures { result ≡ sessions_of settings.now }
{
    let server = standing(settings, Parameter::ServerTimeout);
    let authentication = standing(settings, Parameter::AuthenticationTimeout);
    let idle = standing(settings, Parameter::ClientIdleLimit);
    let connections = standing(settings, Parameter::LogConnections);
    let disconnections = standing(settings, Parameter::LogDisconnections);
    Sessions {
        server_timeout: number_or(server, SERVER_TIMEOUT),
        authentication_timeout: number_or(authentication, AUTHENTICATION_TIMEOUT),
        client_idle_limit: number_or(idle, CLIENT_IDLE_LIMIT),
        log_connections: truth_or(connections, false),
        log_disconnections: truth_or(disconnections, false),
    }
}

/// The users, from 0 on.
fn users_of(
    alloc: Global,
    settings: &[Setting],
    users: &[UserNumber],
) -> Result<List<ScramUser>, NoMemory>
    ensures { IfOk result (λ all. all ≡ map (user_of settings.now) users.now) }
{
    let mut all = List::new(alloc);
    let mut left = users;
    while let [user, rest @ ..] = left {
        all.push(user_of(alloc, settings, *user)?)?;
        left = rest;
    }
    Ok(all)
}

/// One user. Where its name or its verifier is not given, it is empty.
fn user_of(alloc: Global, settings: &[Setting], user: UserNumber) -> Result<ScramUser, NoMemory>
    ensures { IfOk result (λ one. one ≡ user_of settings.now user) }
{
    let name = text_or(alloc, standing(settings, Parameter::ScramUser(user)), "")?;
    let verifier = text_or(
        alloc,
        standing(settings, Parameter::ScramVerifier(user)),
        "",
    )?;
    Ok(ScramUser { name, verifier })
}

/// The backends, from 0 on.
fn nodes_of(
    alloc: Global,
    settings: &[Setting],
    backends: &[BackendId],
) -> Result<List<Node>, NoMemory>
    requires { AllTaken settings.now }
    ensures { IfOk result (λ nodes. nodes ≡ map (node_of settings.now) backends.now) }
{
    let mut nodes = List::new(alloc);
    let mut left = backends;
    while let [backend, rest @ ..] = left {
        nodes.push(node_of(alloc, settings, *backend)?)?;
        left = rest;
    }
    Ok(nodes)
}

#[tactic(auto, using(crate::proofs::Ranges::node_port_small, crate::proofs::Ranges::weight_small))]
/// One backend. Where its hostname or port is not given, it has none.
fn node_of(alloc: Global, settings: &[Setting], backend: BackendId) -> Result<Node, NoMemory>
    requires { AllTaken settings.now }
    ensures { IfOk result (λ node. node ≡ node_of settings.now backend) }
{
    let host = text_or(alloc, standing(settings, Parameter::Hostname(backend)), "")?;
    let port = port_or(standing(settings, Parameter::BackendPort(backend)), 0);
    let weight = number_or(standing(settings, Parameter::Weight(backend)), WEIGHT);
    Ok(Node { host, port, weight })
}

fn text_or(alloc: Global, value: Option<&Value>, default: &str) -> Result<Text, NoMemory>
    ensures { IfOk result (λ text. text
        ≡ text_in (later (option_map (λ v. v.now) value.entry) (Some (Value.Text default.now)))) }
{
    match value {
        Some(Value::Text(text)) => Ok(text.clone()?),
        Some(Value::Number(_) | Value::Truth(_)) => Text::from_str(alloc, ""),
        None => Text::from_str(alloc, default),
    }
}

/// The text of a value, where it is one.
fn text_there(value: Option<&Value>) -> Result<Option<Text>, NoMemory>
    ensures { IfOk result (λ text. text
        ≡ text_there (later (option_map (λ v. v.now) value.entry) None)) }
{
    match value {
        Some(Value::Text(text)) => Ok(Some(text.clone()?)),
        Some(Value::Number(_) | Value::Truth(_)) | None => Ok(None),
    }
}

fn number_or(value: Option<&Value>, default: u32) -> u32
    requires { number_in (option_map (λ v. v.now) value) < 2 ^ 32 }
    ensures { result
        ≡ number_in (later (option_map (λ v. v.now) value.entry) (Some (Value.Number default))) }
{
    match value {
        Some(Value::Number(number)) => *number as u32,
        Some(Value::Text(_) | Value::Truth(_)) => 0,
        None => default,
    }
}

fn port_or(value: Option<&Value>, default: u16) -> u16
    requires { number_in (option_map (λ v. v.now) value) < 2 ^ 16 }
    ensures { result
        ≡ number_in (later (option_map (λ v. v.now) value.entry) (Some (Value.Number default))) }
{
    match value {
        Some(Value::Number(number)) => *number as u16,
        Some(Value::Text(_) | Value::Truth(_)) => 0,
        None => default,
    }
}

fn truth_or(value: Option<&Value>, default: bool) -> bool
    ensures { result
        ≡ truth_in (later (option_map (λ v. v.now) value.entry) (Some (Value.Truth default))) }
{
    match value {
        Some(Value::Truth(on)) => *on,
        Some(Value::Text(_) | Value::Number(_)) => false,
        None => default,
    }
}
