//! How the backend of a read is chosen, by the configuration.
ghost use Rattle.std.specs.Prelude.{◌≡◌};
ghost use Rattle.session_seat.specs.Policy.{policy_in, weight_in};

use pool_base::List;
use pool_config::{Config, Node};
use session_machine::ReadPolicy;

/// The weight of a backend; 0 where the configuration has none of that number.
fn weight_at(nodes: &List<Node>, at: usize) -> u32
    ensures { result ≡ weight_in nodes.now at }
{
    match nodes.get(at) {
        Some(node) => node.weight,
        None => 0,
    }
}

/// The policy of a configuration: its weights by the numbers of its backends.
pub fn policy_of(config: &Config) -> ReadPolicy
    ensures { result ≡ policy_in config.now }
{
    let nodes = &config.nodes;
    ReadPolicy {
        weights: [
            weight_at(nodes, 0),
            weight_at(nodes, 1),
            weight_at(nodes, 2),
            weight_at(nodes, 3),
            weight_at(nodes, 4),
            weight_at(nodes, 5),
            weight_at(nodes, 6),
            weight_at(nodes, 7),
        ],
        balance: config.balance,
        per_statement: config.per_statement,
    }
}
