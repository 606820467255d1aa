//! What a script asks for before its lines are made: its parts are found and its configuration is read.
//!
//! Below stand the lines of a text and `nc_conf`; above stands the command.
ghost use Rattle.std.specs.Prelude.{◌≡◌, ◌≤◌, length, IfOk, IfErr};
ghost use Rattle.nc_replay.specs.Input.{longest_input};
ghost use Rattle.nc_replay.specs.Plan.{IsPlan, IsPlanFault};
ghost use Rattle.nc_replay.specs.declared.plan.PlanFault.TheVariants.{NoMemory as PlanNoMemory};

use crate::fault::Misconfigured;
use crate::script::parts_of;
use nc_conf::{ConfFault, read_config};
use nc_types::Config;
use std::alloc::Global;

/// What the lines of a script are made with.
#[derive(Drop)]
pub struct Plan<'t> {
    /// The configuration: how many workers and slots there are, and the settings of what is at no location.
    pub config: Config,
    /// The lines that are made.
    pub lines: &'t [u8],
    /// How many lines of the script stand before those.
    pub before: u64,
}

/// Why no line of a script is made.
#[derive(Clone, Copy, Debug, PartialEq, Eq)]
pub enum PlanFault {
    /// The configuration is refused.
    Misconfigured(Misconfigured),
    /// There was no memory.
    NoMemory,
}

impl From<ConfFault> for PlanFault {
    ghost use Rattle.nc_replay.specs.Plan.{plan_fault};

    ghost from_gives = { λ fault e. e ≡ plan_fault fault };

    fn from(fault: ConfFault) -> Self {
        match fault {
            ConfFault::Rule { rule, at } => PlanFault::Misconfigured(Misconfigured { rule, at }),
            ConfFault::NoMemory => PlanFault::NoMemory,
        }
    }
}

/// What the lines of a script are made with, or the first fault of its configuration.
///
/// A script without the line `---` breaks the rule on the end of the text, at its length.
pub fn plan_of(alloc: Global, script: &[u8]) -> Result<Plan<'_>, PlanFault>
    requires { length script.now ≤ longest_input }
    ensures plan { IfOk result (λ plan. IsPlan script.now plan.config plan.lines.now plan.before) }
    ensures within { IfOk result (λ plan. length plan.lines.now ≤ longest_input) }
    ensures few { IfOk result (λ plan. plan.before ≤ longest_input) }
    ensures fault { IfErr result (IsPlanFault script.now) }
{
    let Some(parts) = parts_of(script) else {
        return Err(PlanFault::Misconfigured(Misconfigured {
            rule: 2,
            at: script.len(),
        }));
    };
    let config = read_config(alloc, parts.config)?;
    Ok(Plan {
        config,
        lines: parts.lines,
        before: parts.before,
    })
}
