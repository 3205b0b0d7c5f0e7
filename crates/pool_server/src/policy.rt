//! How reads are spread, by the configuration.
ghost use Rattle.std.specs.Prelude.{◌≡◌};
ghost use Rattle.pool_server.specs.Policies.{policy_of, weight_at};

use pool_config::Config;
use session_machine::ReadPolicy;

/// The weight of a backend; none where the configuration has no such backend.
fn weight_at(config: &Config, at: usize) -> u32
    ensures { result ≡ weight_at config.now.nodes at }
{
    match config.nodes.get(at) {
        Some(node) => node.weight,
        None => 0,
    }
}

/// The policy of a configuration: its weights by the numbers of its backends.
pub fn policy_of(config: &Config) -> ReadPolicy
    ensures { result ≡ policy_of config.now }
{
    ReadPolicy {
        weights: [
            weight_at(config, 0),
            weight_at(config, 1),
            weight_at(config, 2),
            weight_at(config, 3),
            weight_at(config, 4),
            weight_at(config, 5),
            weight_at(config, 6),
            weight_at(config, 7),
        ],
        balance: config.balance,
        per_statement: config.per_statement,
    }
}
