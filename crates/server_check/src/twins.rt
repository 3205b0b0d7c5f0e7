//! Two numbers that are one server.
ghost use Rattle.std.specs.Prelude.{◌≡◌, option_copied};
ghost use Rattle.server_check.specs.Servers.{is_twin, twin_of};

use crate::server::Identity;

/// Whether two numbers are one server, and the first is the lower one.
fn is_twin(one: &Identity, lower: &Identity) -> bool
    ensures { result ≡ is_twin one.now lower.now }
{
    lower.number.number < one.number.number && lower.place == one.place
}

/// The first of these that is the same server under a lower number.
pub fn twin_of<'a>(servers: &'a [Identity], one: &Identity) -> Option<&'a Identity>
    ensures { option_copied result ≡ twin_of servers.now one.now }
{
    let [first, others @ ..] = servers else {
        return None;
    };
    if is_twin(one, first) {
        return Some(first);
    }
    twin_of(others, one)
}
