//! How often passwords are tried from one address: so many answers a second are told there at most.
ghost use Rattle.std.specs.Prelude.{◌≡◌, ◌≤◌, [], IfOk, OnErr};
ghost use Rattle.login.specs.Trying.{IsClaim, count_of, newest, noted, recent, within, without};

use pool_base::{List, NoMemory};
use std::alloc::Global;
use std::mem;

/// How long an answer counts.
///
/// Units: milliseconds.
const SECOND: u64 = 1000;

/// How long an address is not told of again.
///
/// Units: milliseconds.
const MINUTE: u64 = 60_000;

/// So many answers are told to one address in that time.
const MOST: usize = 3;

/// So many answers are known besides one that is told now, and so many addresses of which an
/// operator was told. Where there are more the oldest are forgotten.
const ANSWERS: usize = 1023;

const LINES: usize = 63;

/// An answer to a password, or a line about an address.
#[derive(Clone, Copy, Drop)]
pub struct Try {
    /// An address of IPv6; one of IPv4 as it is mapped into these.
    pub address: u128,
    /// Units: milliseconds since the pool's start.
    pub at: u64,
}

/// The answers of late, and the lines of late.
#[derive(Drop)]
pub struct Tries {
    pub answered: List<Try>,
    pub told: List<Try>,
}

/// Whether an answer may be told.
#[derive(Clone, Copy)]
pub enum Claim {
    /// It may, and counts.
    Passes,
    /// It may not yet. Whether an operator is to be told.
    Waits { tells: bool },
}

/// Those that are not so long ago.
fn within(alloc: Global, tries: &[Try], span: u64, now: u64) -> Result<List<Try>, NoMemory>
    ensures { IfOk result (λ kept. kept ≡ within span now tries.now) }
{
    let mut kept = List::new(alloc);
    let mut left = tries;
    while let [first, rest @ ..] = left {
        if now.saturating_sub(first.at) < span {
            kept.push(*first)?;
        }
        left = rest;
    }
    Ok(kept)
}

/// The last ones.
fn newest(tries: &[Try], most: usize) -> &[Try]
    ensures { result.now ≡ newest most tries.now }
{
    &tries[tries.len().saturating_sub(most)..]
}

/// The last ones of those that are not so long ago.
fn recent(
    alloc: Global,
    tries: &[Try],
    span: u64,
    most: usize,
    now: u64,
) -> Result<List<Try>, NoMemory>
    ensures { IfOk result (λ kept. kept ≡ recent span most now tries.now) }
{
    let kept = within(alloc, tries, span, now)?;
    List::from_slice(alloc, newest(kept.as_slice(), most))
}

/// How many are of the address.
fn count_of(tries: &[Try], address: u128) -> usize
    ensures { result ≡ count_of address tries.now }
{
    let mut count = 0;
    let mut left = tries;
    while let [first, rest @ ..] = left {
        if first.address == address {
            count += 1;
        }
        left = rest;
    }
    count
}

/// All but the first of the address at that moment.
fn without(alloc: Global, tries: &[Try], address: u128, at: u64) -> Result<List<Try>, NoMemory>
    ensures { IfOk result (λ kept. kept ≡ without address at tries.now) }
{
    let mut kept = List::new(alloc);
    let mut left = tries;
    while let [first, rest @ ..] = left {
        if first.address == address && first.at == at {
            kept.extend_from_slice(rest)?;
            return Ok(kept);
        }
        kept.push(*first)?;
        left = rest;
    }
    Ok(kept)
}

/// The lines, with one more where one is told.
fn noted(lines: List<Try>, tells: bool, address: u128, at: u64) -> Result<List<Try>, NoMemory>
    ensures { IfOk result (λ told. told ≡ noted tells lines address at) }
{
    if !tells {
        return Ok(lines);
    }
    let mut told = lines;
    told.push(Try { address, at })?;
    Ok(told)
}

impl Tries {
    /// None was answered.
    pub fn new(alloc: Global) -> Tries
        ensures answered { result.answered ≡ [] }
        ensures told { result.told ≡ [] }
    {
        Tries {
            answered: List::new(alloc),
            told: List::new(alloc),
        }
    }

    /// An answer to a password is to be told at this address. Whether it may be follows from the
    /// answers before it and the moment.
    pub fn claim(&mut self, alloc: Global, address: u128, now: u64) -> Result<Claim, NoMemory>
        ensures claim { IfOk result (λ c. IsClaim address now self.old c self.new) }
        ensures kept { OnErr result (self.new ≡ self.old) }
    {
        let mut answered = recent(alloc, self.answered.as_slice(), SECOND, ANSWERS, now)?;
        if count_of(answered.as_slice(), address) >= MOST {
            return self.hold(alloc, answered, address, now);
        }
        answered.push(Try { address, at: now })?;
        drop(mem::replace(&mut self.answered, answered));
        Ok(Claim::Passes)
    }

    /// It may not be told yet.
    fn hold(
        &mut self,
        alloc: Global,
        answered: List<Try>,
        address: u128,
        now: u64,
    ) -> Result<Claim, NoMemory>
        requires recent { answered ≡ recent 1000 1023 now self.old.answered }
        requires many { 3 ≤ count_of address answered }
        ensures claim { IfOk result (λ c. IsClaim address now self.old c self.new) }
        ensures kept { OnErr result (self.new ≡ self.old) }
    {
        let lines = recent(alloc, self.told.as_slice(), MINUTE, LINES, now)?;
        let tells = count_of(lines.as_slice(), address) == 0;
        let told = noted(lines, tells, address, now)?;
        drop(mem::replace(&mut self.answered, answered));
        drop(mem::replace(&mut self.told, told));
        Ok(Claim::Waits { tells })
    }

    /// The password was right: its answer counts no more.
    pub fn forgive(&mut self, alloc: Global, address: u128, at: u64) -> Result<(), NoMemory>
        ensures forgiven { IfOk result (λ _. self.new.answered
            ≡ without address at self.old.answered) }
        ensures told { self.new.told ≡ self.old.told }
        ensures kept { OnErr result (self.new ≡ self.old) }
    {
        let answered = without(alloc, self.answered.as_slice(), address, at)?;
        drop(mem::replace(&mut self.answered, answered));
        Ok(())
    }
}
