//! The faulty lines of a configuration: those that the reader refuses alone.
ghost use Rattle.std.specs.Prelude.{◌≡◌, ◌<◌, ◌+◌, ℕ, List as Sequence, MatchOption, IfOk, OnOk, length};
ghost use Rattle.pool_config.specs.Bytes.{AllOf, lines};
ghost use Rattle.pool_config.specs.Settings.{FirstFault};
ghost use Rattle.pool_config.specs.declared.line.Class.TheVariants.{InLine};
ghost use Rattle.pool_config.specs.declared.fault.ConfigFault.{ConfigFault};
ghost use Rattle.pool_advice.specs.Faults.{Adds, AreFaults, IsGood, IsRefusedBy, Begins};
ghost use Rattle.pool_advice.specs.declared.fault.LineFault.{LineFault};

use crate::fault::{LineFault, Refusal};
use crate::lines::cut_line;
use pool_base::{List, NoMemory};
use pool_config::{ConfigFault, parse_config};
use std::alloc::Global;

/// The faulty lines of a text, in their order.
pub fn line_faults<'a>(alloc: Global, text: &'a [u8]) -> Result<List<LineFault<'a>>, NoMemory>
    requires { length text.now < 4294967295 }
    ensures { IfOk result (AreFaults 1 (lines text.now)) }
{
    let mut faults = List::new(alloc);
    let mut left = text;
    let mut number: u32 = 1;
    loop {
        let (line, rest) = cut_line(left);
        add_fault(alloc, number, line, &mut faults)?;
        let Some(next) = rest else {
            return Ok(faults);
        };
        left = next;
        number += 1;
    }
}

/// A line's fault joins the others, if it has one.
fn add_fault<'a>(
    alloc: Global,
    number: u32,
    line: &'a [u8],
    faults: &mut List<LineFault<'a>>,
) -> Result<(), NoMemory>
    requires short { length line.now < 4294967295 }
    requires one { AllOf InLine line.now }
    ensures { OnOk result (Adds number line.now faults.old faults.new) }
{
    match refusal_of(alloc, line)? {
        None => Ok(()),
        Some(refusal) => faults.push(LineFault {
            number,
            line,
            refusal,
        }),
    }
}

/// Why the reader refuses a line alone, if it does.
#[tactic(auto, using(crate::proofs::Alone::config_good, crate::proofs::Alone::missing_good))]
fn refusal_of(alloc: Global, line: &[u8]) -> Result<Option<Refusal>, NoMemory>
    requires short { length line.now < 4294967295 }
    requires one { AllOf InLine line.now }
    ensures { IfOk result (λ found. MatchOption found (IsGood line.now)
        (λ refusal. IsRefusedBy line.now refusal)) }
{
    match parse_config(alloc, line) {
        Ok(_) => Ok(None),
        Err(ConfigFault::Missing(_)) => Ok(None),
        Err(ConfigFault::BadLine(_)) => Ok(Some(Refusal::Bad)),
        Err(ConfigFault::UnknownName(_)) => Ok(Some(Refusal::UnknownName)),
        Err(ConfigFault::WrongMode(_)) => Ok(Some(Refusal::WrongMode)),
        Err(ConfigFault::NoMemory) => Err(NoMemory),
    }
}

/// The fault that the reader of a text tells, if it is that of a line, is the first that is told.
pub fn first_is_told()
    ensures { (n : ℕ) (ls : Sequence (Sequence ℕ)) (faults : Sequence LineFault)
        (fault : ConfigFault) → AreFaults n ls faults → FirstFault n ls fault
        → Begins faults fault }
{}
