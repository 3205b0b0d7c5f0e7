//! The writer: a configuration to its one text.
ghost use Rattle.std.specs.Prelude.{◌≡◌, ◌<◌, ◌++◌, length, IfOk, OnOk, string_bytes};
ghost use Rattle.pool_config.specs.Printed.{text_of, node_text, nodes_text, rest_text, sessions_text, number_unless, line_if_on, user_text, users_text, password_text, truth_word};
ghost use Rattle.pool_config.specs.Configuration.{IsAllowed, IsConfiguration};

use crate::config::{Config, Node, ScramUser, Sessions};
use pool_base::{NoMemory, Text};
use std::alloc::{AllocError, Global};
use std::fmt::Write;

/// The text that `parse_config` reads back as the same configuration.
///
/// Shape: docs/CONFIGURATION.md, "The written form".
pub fn write_config(alloc: Global, config: &Config) -> Result<Text, NoMemory>
    requires { IsAllowed config.now }
    ensures written { IfOk result (λ text. text ≡ text_of config.now) }
    // The text says this configuration, so `parse_config` answers it.
    ensures read_back { IfOk result (λ text. IsConfiguration text config.now) }
{
    written(alloc, config)
}

/// The one text of a configuration.
#[tactic(auto, using(crate::proofs::Nodes::four))]
fn written(alloc: Global, config: &Config) -> Result<Text, NoMemory>
    requires nodes { length config.now.nodes < 9 }
    requires users { length config.now.users < 17 }
    ensures { IfOk result (λ text. text ≡ text_of config.now) }
{
    let mut text = String::from_str(alloc, "backend_clustering_mode = 'snapshot_isolation'\n")?;
    write_nodes(&mut text, config.nodes.as_slice())?;
    write_rest(&mut text, config)?;
    write_sessions(&mut text, config.sessions)?;
    write_users(&mut text, config.users.as_slice())?;
    write_password(&mut text, &config.backend_password)?;
    Ok(Text::from_string(text))
}

/// The lines of the backends.
fn write_nodes(text: &mut String, nodes: &[Node]) -> Result<(), AllocError>
    requires { length nodes.now < 9 }
    ensures { OnOk result (string_bytes text.new
        ≡ string_bytes text.old ++ nodes_text 0 nodes.now) }
{
    let mut number: u32 = 0;
    let mut left = nodes;
    while let [node, rest @ ..] = left {
        write_node(text, number, node)?;
        number += 1;
        left = rest;
    }
    Ok(())
}

/// The lines of one backend.
fn write_node(text: &mut String, number: u32, node: &Node) -> Result<(), AllocError>
    ensures { OnOk result (string_bytes text.new
        ≡ string_bytes text.old ++ node_text number node.now) }
{
    let host = node.host.as_str();
    let port = node.port;
    let weight = node.weight;
    write!(text, "backend_hostname{number} = '{host}'\n")?;
    write!(text, "backend_port{number} = {port}\n")?;
    write!(text, "backend_weight{number} = {weight}\n")?;
    Ok(())
}

/// The lines behind those of the backends.
fn write_rest(text: &mut String, config: &Config) -> Result<(), AllocError>
    ensures { OnOk result (string_bytes text.new ≡ string_bytes text.old ++ rest_text config.now) }
{
    let listen = config.listen.as_str();
    let port = config.port;
    let children = config.children;
    let balance = truth_word(config.balance);
    let per_statement = truth_word(config.per_statement);
    write!(text, "listen_addresses = '{listen}'\n")?;
    write!(text, "port = {port}\n")?;
    write!(text, "num_init_children = {children}\n")?;
    write!(text, "load_balance_mode = {balance}\n")?;
    write!(text, "statement_level_load_balance = {per_statement}\n")?;
    Ok(())
}

/// The lines of how long sessions wait, and of what is told of them: those that are not at their
/// defaults.
fn write_sessions(text: &mut String, sessions: Sessions) -> Result<(), AllocError>
    ensures { OnOk result (string_bytes text.new
        ≡ string_bytes text.old ++ sessions_text sessions) }
{
    write_unless(text, "server_timeout", 10, sessions.server_timeout)?;
    write_unless(
        text,
        "authentication_timeout",
        30,
        sessions.authentication_timeout,
    )?;
    write_unless(text, "client_idle_limit", 0, sessions.client_idle_limit)?;
    write_if_on(text, "log_connections", sessions.log_connections)?;
    write_if_on(text, "log_disconnections", sessions.log_disconnections)?;
    Ok(())
}

/// The line of a number that is not at its default.
fn write_unless(text: &mut String, name: &str, default: u32, number: u32) -> Result<(), AllocError>
    ensures { OnOk result (string_bytes text.new
        ≡ string_bytes text.old ++ number_unless name.now default number) }
{
    if number == default {
        return Ok(());
    }
    write!(text, "{name} = {number}\n")?;
    Ok(())
}

/// The line of a switch that is on.
fn write_if_on(text: &mut String, name: &str, on: bool) -> Result<(), AllocError>
    ensures { OnOk result (string_bytes text.new
        ≡ string_bytes text.old ++ line_if_on name.now on) }
{
    if !on {
        return Ok(());
    }
    write!(text, "{name} = on\n")?;
    Ok(())
}

/// The lines of the users.
fn write_users(text: &mut String, users: &[ScramUser]) -> Result<(), AllocError>
    requires { length users.now < 17 }
    ensures { OnOk result (string_bytes text.new
        ≡ string_bytes text.old ++ users_text 0 users.now) }
{
    let mut number: u32 = 0;
    let mut left = users;
    while let [user, rest @ ..] = left {
        write_user(text, number, user)?;
        number += 1;
        left = rest;
    }
    Ok(())
}

/// The lines of one user.
fn write_user(text: &mut String, number: u32, user: &ScramUser) -> Result<(), AllocError>
    ensures { OnOk result (string_bytes text.new
        ≡ string_bytes text.old ++ user_text number user.now) }
{
    let name = user.name.as_str();
    let verifier = user.verifier.as_str();
    write!(text, "scram_user{number} = '{name}'\n")?;
    write!(text, "scram_verifier{number} = '{verifier}'\n")?;
    Ok(())
}

/// The line of the password, where there is one.
fn write_password(text: &mut String, password: &Option<Text>) -> Result<(), AllocError>
    ensures { OnOk result (string_bytes text.new
        ≡ string_bytes text.old ++ password_text password.now) }
{
    if let Some(password) = password {
        let password = password.as_str();
        write!(text, "backend_password = '{password}'\n")?;
    }
    Ok(())
}

fn truth_word(on: bool) -> &'static str
    ensures { result.now ≡ truth_word on }
{
    if on { "on" } else { "off" }
}
