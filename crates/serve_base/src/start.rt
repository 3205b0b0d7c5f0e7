//! Which backends are attached at the start.
ghost use Rattle.std.specs.Prelude.{◌≡◌, ◌==◌, ◌<◌, ℕ, IfOk, bytes_eq, false, if◌then◌else◌, map, option_map, true};
ghost use Rattle.pool_base.specs.Sets.{has};
ghost use Rattle.serve_base.specs.Start.{down_at_start, first_down, has_line, is_attached, is_attached_at, is_of, is_there, standing_at_start};

use crate::status::{Down, Standing};
use pool_base::{BackendId, BackendSet, List, NoMemory};
use pool_config::Node;
use std::alloc::Global;

/// Whether the line is of that backend's address.
fn is_of(node: &Node, standing: &Standing) -> bool
    ensures { result ≡ is_of node.now standing.now }
{
    standing.host.as_slice() == node.host.as_bytes() && standing.port == node.port
}

/// Whether a line is of that backend's address.
fn has_line(node: &Node, all: &[Standing]) -> bool
    ensures { result ≡ has_line node.now all.now }
{
    let mut left = all;
    while let [first, rest @ ..] = left {
        if is_of(node, first) {
            return true;
        }
        left = rest;
    }
    false
}

/// Since when and why a backend is down, by the first line of its address that says that it is.
fn first_down<'a>(node: &Node, all: &'a [Standing]) -> Option<&'a Down>
    ensures { option_map (λ d. d.now) result ≡ first_down node.now all.entry.now }
{
    let mut left = all;
    while let [first, rest @ ..] = left {
        if is_of(node, first) {
            if let Some(down) = &first.down {
                return Some(down);
            }
        }
        left = rest;
    }
    None
}

/// Whether the file lets the backend be attached.
fn is_attached(file: Option<&[Standing]>, node: &Node) -> bool
    ensures { result ≡ is_attached (option_map (λ f. f.now) file.entry) node.now }
{
    match file {
        None => true,
        Some(all) => has_line(node, all) && first_down(node, all).is_none(),
    }
}

#[tactic(auto, using(crate::proofs::Sets::none_yet, crate::proofs::Sets::one_more_in))]
/// The backends that are attached at the start: those of the configuration that the file knows by
/// host and port, and does not say are down; all, where there is no file.
///
/// Units: of a configuration of more than eight backends the first eight count.
pub fn attached_at_start(file: Option<&[Standing]>, nodes: &[Node]) -> BackendSet
    ensures { (b : ℕ) → b < 8 → has result.bits b
        ≡ is_attached_at (option_map (λ f. f.now) file.entry) nodes.now b }
{
    let mut attached = BackendSet::EMPTY;
    for number in 0..8 {
        let b = BackendId { number };
        attached = with_one_more(attached, b, is_attached_at(file, nodes, b));
    }
    attached
}

/// Whether the backend with that number is there, and the file lets it be attached.
fn is_attached_at(file: Option<&[Standing]>, nodes: &[Node], b: BackendId) -> bool
    ensures { result
        ≡ is_attached_at (option_map (λ f. f.now) file.entry) nodes.now b.number }
{
    match nodes.get(usize::from(b.number)) {
        Some(node) => is_attached(file, node),
        None => false,
    }
}

#[tactic(auto, using(crate::proofs::Sets::none_more))]
/// The set, with that backend where it is to be in it.
fn with_one_more(set: BackendSet, b: BackendId, is_in: bool) -> BackendSet
    requires { has set.bits b.number ≡ false }
    ensures { (c : ℕ) → c < 8 → has result.bits c
        ≡ (if c == b.number then is_in else has set.bits c) }
{
    if is_in { set.with(b) } else { set }
}

/// The backends that are attached once their servers were waited for: those that are up and not
/// absent. Where all that are up are absent none has rows that another lacks, and all are
/// attached.
pub fn attached_of(up: BackendSet, absent: BackendSet) -> BackendSet
    ensures some { (c : ℕ) → c < 8 → is_there up.bits absent.bits c ≡ true
        → (b : ℕ) → b < 8 → has result.bits b ≡ is_there up.bits absent.bits b }
    ensures none { ((b : ℕ) → b < 8 → is_there up.bits absent.bits b ≡ false) → result ≡ up }
{
    let there = those_there(up, absent);
    if there.is_empty() { up } else { there }
}

#[tactic(auto, using(crate::proofs::Sets::none_yet, crate::proofs::Sets::one_more_in))]
/// Those that are up and not absent.
fn those_there(up: BackendSet, absent: BackendSet) -> BackendSet
    ensures { (b : ℕ) → b < 8 → has result.bits b ≡ is_there up.bits absent.bits b }
{
    let mut there = BackendSet::EMPTY;
    for number in 0..8 {
        let b = BackendId { number };
        there = with_one_more(there, b, up.has(b) && !absent.has(b));
    }
    there
}

/// What the file says from the start on: each backend of the configuration, in its order. `now`
/// is told of those that are new.
pub fn status_at_start(
    alloc: Global,
    file: Option<&[Standing]>,
    nodes: &[Node],
    now: &[u8],
) -> Result<List<Standing>, NoMemory>
    ensures { IfOk result (λ all. all
        ≡ map (standing_at_start (option_map (λ f. f.now) file.entry) now.now) nodes.now) }
{
    let mut all = List::new(alloc);
    let mut left = nodes;
    while let [node, rest @ ..] = left {
        all.push(standing_of(alloc, file, node, now)?)?;
        left = rest;
    }
    Ok(all)
}

/// What the file says of one backend.
fn standing_of(
    alloc: Global,
    file: Option<&[Standing]>,
    node: &Node,
    now: &[u8],
) -> Result<Standing, NoMemory>
    ensures { IfOk result (λ s. s
        ≡ standing_at_start (option_map (λ f. f.now) file.entry) now.now node.now) }
{
    Ok(Standing {
        host: List::from_slice(alloc, node.host.as_bytes())?,
        port: node.port,
        down: down_of(alloc, file, node, now)?,
    })
}

/// Since when and why it is down at the start.
fn down_of(
    alloc: Global,
    file: Option<&[Standing]>,
    node: &Node,
    now: &[u8],
) -> Result<Option<Down>, NoMemory>
    ensures { IfOk result (λ down. down
        ≡ down_at_start (option_map (λ f. f.now) file.entry) now.now node.now) }
{
    let Some(all) = file else {
        return Ok(None);
    };
    if !has_line(node, all) {
        return Ok(Some(down_since(alloc, now, b"it is new")?));
    }
    match first_down(node, all) {
        Some(down) => {
            let (since, why) = (down.since.as_slice(), down.why.as_slice());
            Ok(Some(down_since(alloc, since, why)?))
        }
        None => Ok(None),
    }
}

/// Down since then, for that reason.
pub fn down_since(alloc: Global, since: &[u8], why: &[u8]) -> Result<Down, NoMemory>
    ensures since { IfOk result (λ d. d.since ≡ since.now) }
    ensures why { IfOk result (λ d. d.why ≡ why.now) }
{
    Ok(Down {
        since: List::from_slice(alloc, since)?,
        why: List::from_slice(alloc, why)?,
    })
}
