//! Reading a configuration.
ghost use Rattle.std.specs.Prelude.{◌≡◌, ◌<◌, Some, IfOk};
ghost use Rattle.nc_conf.specs.First.{IsFirstFault};
ghost use Rattle.nc_conf.specs.Reader.{all_faults};
ghost use Rattle.nc_conf.specs.Reading.{IsReading, HasFirst, IsRead};
ghost use Rattle.nc_conf.specs.declared.fault.Fault.{Fault};
ghost use Rattle.nc_conf.specs.declared.read.ConfFault.TheVariants.{NoMemory as ConfNoMemory};

use crate::config::config_of;
use crate::fault::Fault;
use crate::judge::{Judged, judge_all};
use crate::syntax::{Reading, read_syntax};
use nc_types::{Config, NoMemory};
use std::alloc::Global;

/// Why there is no configuration.
#[derive(Clone, Copy, Debug, PartialEq, Eq)]
pub enum ConfFault {
    /// The first rule that the text breaks, 1 to 14, and the place where it does.
    Rule { rule: u8, at: usize },
    /// There was no memory for the configuration.
    NoMemory,
}

impl From<NoMemory> for ConfFault {
    ghost from_gives = { λ _ e. e ≡ ConfNoMemory };

    fn from(_: NoMemory) -> Self {
        ConfFault::NoMemory
    }
}

/// The configuration of a text that was read to its end, or its first fault.
fn answer(alloc: Global, text: &[u8], reading: &Reading<'_>) -> Result<Config, ConfFault>
    requires { IsReading text.now reading.now.syntax reading.now.bad }
    ensures { IsRead text.now result }
{
    let Judged { first, lines } = judge_all(alloc, text.len(), reading)?;
    match first {
        Some(Fault { at, rule }) => Err(ConfFault::Rule { rule, at }),
        None => Ok(config_of(alloc, reading.syntax.directives(), &lines)?),
    }
}

/// Reads the whole of a text.
fn read_whole(alloc: Global, text: &[u8]) -> Result<Config, ConfFault>
    ensures { IsRead text.now result }
{
    let reading = read_syntax(alloc, text, true)?;
    answer(alloc, text, &reading)
}

/// The first fault of what was read of a text.
fn first_fault(alloc: Global, len: usize, reading: &Reading<'_>) -> Result<Option<Fault>, NoMemory>
    ensures { IfOk result (IsFirstFault (all_faults len reading.now.syntax reading.now.bad)) }
{
    let Judged { first, .. } = judge_all(alloc, len, reading)?;
    Ok(first)
}

/// The answer for a text that was read up to a place. The fault that reading stopped for stands before the place,
/// so what follows isn't read; but a fault that stands behind it would not do.
fn answer_before(
    alloc: Global,
    text: &[u8],
    rest: usize,
    first: Option<Fault>,
) -> Result<Config, ConfFault>
    requires { (f : Fault) → first ≡ Some f → f.at < rest → HasFirst text.now (Some f) }
    ensures { IsRead text.now result }
{
    match first {
        Some(Fault { at, rule }) if at < rest => Err(ConfFault::Rule { rule, at }),
        _ => read_whole(alloc, text),
    }
}

/// The configuration of a text, or its first fault.
///
/// Rule comes exactly where the text breaks a rule, and names its first fault: the least place, and there the lowest rule.
/// NoMemory says that there was too little memory to read it.
pub fn read_config(alloc: Global, text: &[u8]) -> Result<Config, ConfFault>
    ensures { IsRead text.now result }
{
    let reading = read_syntax(alloc, text, false)?;
    match reading.rest {
        None => answer(alloc, text, &reading),
        Some(rest) => {
            let first = first_fault(alloc, text.len(), &reading)?;
            answer_before(alloc, text, rest, first)
        }
    }
}
