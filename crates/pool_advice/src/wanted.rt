//! What the parameter of a name takes.
ghost use Rattle.std.specs.Prelude.{◌≡◌, option_map, take, drop};
ghost use Rattle.pool_config.specs.Table.{kind_of};
ghost use Rattle.pool_config.specs.Names.{single_named, numbered_named, of_stem, user_named, parameter_named};
ghost use Rattle.pool_advice.specs.Wanting.{kind_wanted};
ghost use Rattle.pool_base.specs.declared.backend_id.BackendId.{BackendId};

use pool_base::BackendId;
use pool_config::user_at;
use std::fmt;

/// What values a parameter takes.
#[derive(Clone, Copy, PartialEq, Eq, Drop)]
pub enum Wanted {
    /// The string `snapshot_isolation`.
    Mode,
    /// A string with something in it.
    HostName,
    /// Any string.
    Words,
    /// A number in this range, both ends in it.
    Number { low: u64, high: u64 },
    /// On or off.
    Truth,
    /// On alone.
    OnlyOn,
    /// A string that is the text of a verifier.
    Verifier,
    /// A string of the bytes 32 to 126.
    Secret,
}

/// What the parameter of that name takes, if there is one.
#[tactic(auto, unfolding(pool_config::specs::Names::parameter_named))]
pub fn wanted_of(name: &[u8]) -> Option<Wanted>
    ensures { option_map kind_wanted result ≡ option_map kind_of (parameter_named name.now) }
{
    match single_wanted(name) {
        Some(wanted) => Some(wanted),
        None => match numbered_wanted(name) {
            Some(wanted) => Some(wanted),
            None => user_wanted(name),
        },
    }
}

/// Of those without a number.
fn single_wanted(name: &[u8]) -> Option<Wanted>
    ensures { option_map kind_wanted result ≡ option_map kind_of (single_named name.now) }
{
    if name == b"backend_clustering_mode".as_slice() {
        Some(Wanted::Mode)
    } else if name == b"listen_addresses".as_slice() {
        Some(Wanted::Words)
    } else if name == b"port".as_slice() {
        Some(PORT)
    } else if name == b"num_init_children".as_slice() {
        Some(Wanted::Number { low: 1, high: 64 })
    } else if name == b"load_balance_mode".as_slice() {
        Some(Wanted::Truth)
    } else if name == b"statement_level_load_balance".as_slice() {
        Some(Wanted::Truth)
    } else if name == b"insert_lock".as_slice() {
        Some(Wanted::OnlyOn)
    } else if name == b"replication_stop_on_mismatch".as_slice() {
        Some(Wanted::OnlyOn)
    } else if name == b"failover_if_affected_tuples_mismatch".as_slice() {
        Some(Wanted::OnlyOn)
    } else if name == b"server_timeout".as_slice() {
        Some(Wanted::Number { low: 2, high: 600 })
    } else if name == b"authentication_timeout".as_slice() {
        Some(Wanted::Number { low: 1, high: 600 })
    } else if name == b"client_idle_limit".as_slice() {
        Some(Wanted::Number {
            low: 0,
            high: 86400,
        })
    } else if name == b"log_connections".as_slice() {
        Some(Wanted::Truth)
    } else if name == b"log_disconnections".as_slice() {
        Some(Wanted::Truth)
    } else if name == b"backend_password".as_slice() {
        Some(Wanted::Secret)
    } else {
        None
    }
}

/// A port.
const PORT: Wanted = Wanted::Number {
    low: 1,
    high: 65535,
};

#[tactic(auto, using(pool_config::proofs::Backends::backend_at))]
/// Of those of one backend.
fn numbered_wanted(name: &[u8]) -> Option<Wanted>
    ensures { option_map kind_wanted result ≡ option_map kind_of (numbered_named name.now) }
{
    if name.is_empty() {
        return None;
    }
    let (stem, digits) = name.split_at(name.len() - 1);
    let digit = digits[0];
    if digit < b'0' {
        return None;
    }
    match BackendId::from_number(digit - b'0') {
        Some(backend) => stem_wanted(stem, backend),
        None => None,
    }
}

/// Of that backend, by what its name begins with.
fn stem_wanted(stem: &[u8], _backend: BackendId) -> Option<Wanted>
    ensures { option_map kind_wanted result ≡ option_map kind_of (of_stem stem.now _backend) }
{
    if stem == b"backend_hostname".as_slice() {
        Some(Wanted::HostName)
    } else if stem == b"backend_port".as_slice() {
        Some(PORT)
    } else if stem == b"backend_weight".as_slice() {
        Some(Wanted::Number { low: 0, high: 1000 })
    } else {
        None
    }
}

/// A name's first bytes, and what stands behind them.
fn cut_at(name: &[u8], count: usize) -> (&[u8], &[u8])
    ensures front { result.0.now ≡ take count name.now }
    ensures behind { result.1.now ≡ drop count name.now }
{
    name.split_at(name.len().min(count))
}

/// Of those of one user.
fn user_wanted(name: &[u8]) -> Option<Wanted>
    ensures { option_map kind_wanted result ≡ option_map kind_of (user_named name.now) }
{
    let (stem, digits) = cut_at(name, 10);
    if stem == b"scram_user".as_slice() {
        return user_at(digits).map(|_user| Wanted::Words);
    }
    let (stem, digits) = cut_at(name, 14);
    if stem == b"scram_verifier".as_slice() {
        return user_at(digits).map(|_user| Wanted::Verifier);
    }
    None
}

impl fmt::Display for Wanted {
    fn fmt<W: fmt::Write>(&self, f: &mut fmt::Formatter<W>) -> fmt::Result {
        match self {
            Wanted::Mode => f.write_str("the string 'snapshot_isolation'"),
            Wanted::HostName => f.write_str("a string in single quotes, not empty"),
            Wanted::Words => f.write_str("a string in single quotes"),
            Wanted::Number { low, high } => write!(f, "a number from {low} to {high}, in digits"),
            Wanted::Truth => f.write_str("on, off, true or false"),
            Wanted::OnlyOn => f.write_str("on, or no line at all"),
            Wanted::Verifier => f.write_str(
                "a verifier in single quotes, as `pool verifier` makes one",
            ),
            Wanted::Secret => f.write_str("a string in single quotes, of the bytes 32 to 126"),
        }
    }
}
