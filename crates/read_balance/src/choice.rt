//! The choice by weights and a ticket.
ghost use Rattle.std.specs.Prelude.{◌≡◌, ◌<◌, ◌≤◌, ◌%◌, ℕ, true, length, get_or};
ghost use Rattle.pool_base.specs.Sets.{has, IsEmptySet, IsLowest};
ghost use Rattle.read_balance.specs.Picking.{IsFirstOver, weight_at, weight_below, weight_of_all};

use pool_base::{BackendId, BackendSet};

/// The backend that answers a read: the attached backends take turns by their weights, as the
/// ticket
/// says; where no attached backend has a weight, the lowest of them. It takes no memory.
///
/// Units: `weights` has a weight for each backend by its number.
pub fn pick(weights: &[u32], attached: BackendSet, ticket: u64) -> BackendId
    requires some { ¬ (IsEmptySet attached.bits) }
    requires weighed { (b : ℕ) → b < 8 → has attached.bits b ≡ true → b < length weights.now }
    ensures idle { weight_of_all weights.now attached.bits ≡ 0
        → IsLowest attached.bits result.number }
    ensures turn { 0 < weight_of_all weights.now attached.bits
        → IsFirstOver weights.now attached.bits
        (ticket % weight_of_all weights.now attached.bits) result.number }
{
    let total = weight_of_all(weights, attached);
    if total > 0 {
        return first_over(weights, attached, ticket % total);
    }
    match attached.lowest() {
        Some(b) => b,
        None => unreachable!(),
    }
}

/// What a backend counts.
fn weight_at(weights: &[u32], attached: BackendSet, b: BackendId) -> u64
    requires { has attached.bits b.number ≡ true → b.number < length weights.now }
    ensures is { result ≡ weight_at weights.now attached.bits b.number }
    ensures small { result < 4294967296 }
{
    if attached.has(b) {
        u64::from(weights[usize::from(b.number)])
    } else {
        0
    }
}

/// What all backends count together.
fn weight_of_all(weights: &[u32], attached: BackendSet) -> u64
    requires { (b : ℕ) → b < 8 → has attached.bits b ≡ true → b < length weights.now }
    ensures { result ≡ weight_of_all weights.now attached.bits }
{
    let mut total = 0;
    for number in 0..8 {
        total += weight_at(weights, attached, BackendId { number });
    }
    total
}

/// The first attached backend at which the weights up to and with it are greater than `rest`.
fn first_over(weights: &[u32], attached: BackendSet, rest: u64) -> BackendId
    requires weighed { (b : ℕ) → b < 8 → has attached.bits b ≡ true → b < length weights.now }
    requires rest { rest < weight_of_all weights.now attached.bits }
    ensures { IsFirstOver weights.now attached.bits rest result.number }
{
    let mut sum = 0;
    for number in 0..8 {
        let b = BackendId { number };
        sum += weight_at(weights, attached, b);
        if sum > rest {
            return b;
        }
    }
    unreachable!()
}
