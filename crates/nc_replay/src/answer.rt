//! The lines that tell of a fault, or of a configuration that is accepted, and their writing.
//!
//! Below stands the writing of texts; above stand the commands.
ghost use Rattle.std.specs.Prelude.{◌≡◌, ◌≤◌, ◌++◌, IfOk, IfErr, OnOk, OnErr, IsErrOf};
ghost use Rattle.std.specs.Fmt.{decimal};
ghost use Rattle.nc_replay.specs.Input.{Adds, AddsPrefix, HasStopped, IsCalm};
ghost use Rattle.nc_replay.specs.Top.{fault_text, misconfigured_text, accepted_text};
ghost use Rattle.nc_replay.specs.declared.making.Stop.TheVariants.{NoMemory as NoMemoryStop};

use crate::fault::{Fault, Misconfigured};
use crate::input::write_all;
use crate::making::Stop;
use nc_outside::Sink;
use nc_types::text::put_decimal;
use nc_types::{Config, NoMemory};
use std::alloc::Global;

/// A label and a number go behind a text.
pub fn put_field(text: &mut Vec<u8>, label: &[u8], n: u64) -> Result<(), NoMemory>
    ensures { OnOk result (text.new.items ≡ text.old.items ++ label.now ++ decimal n) }
{
    text.extend_from_slice(label)?;
    put_decimal(text, n)
}

/// The line that names the first line that breaks a rule.
fn fault_text(alloc: Global, fault: Fault) -> Result<Vec<u8>, NoMemory>
    ensures { IfOk result (λ text. text.items ≡ fault_text fault) }
{
    let mut text = Vec::new(alloc);
    put_field(&mut text, b"fault line=", fault.line)?;
    put_field(&mut text, b" rule=", u64::from(fault.rule))?;
    put_field(&mut text, b" at=", fault.at as u64)?;
    text.push(b'\n')?;
    Ok(text)
}

/// The line that names the first fault of a configuration.
fn misconfigured_text(alloc: Global, fault: Misconfigured) -> Result<Vec<u8>, NoMemory>
    ensures { IfOk result (λ text. text.items ≡ misconfigured_text fault) }
{
    let mut text = Vec::new(alloc);
    put_field(&mut text, b"config rule=", u64::from(fault.rule))?;
    put_field(&mut text, b" at=", fault.at as u64)?;
    text.push(b'\n')?;
    Ok(text)
}

/// The line that tells how many workers and locations a configuration has.
fn accepted_text(alloc: Global, config: &Config) -> Result<Vec<u8>, NoMemory>
    ensures { IfOk result (λ text. text.items ≡ accepted_text config.now) }
{
    let mut text = Vec::new(alloc);
    put_field(&mut text, b"ok workers=", u64::from(config.workers))?;
    put_field(&mut text, b" locations=", config.locations.len() as u64)?;
    text.push(b'\n')?;
    Ok(text)
}

/// Writes the fault of a line. Where it errs, a prefix of the fault's line is written.
pub fn write_fault<K: Sink>(alloc: Global, fault: Fault, out: &mut K) -> Result<(), Stop>
    ensures whole { OnOk result (Adds (fault_text fault) (K.taken out.old) (K.taken out.new)) }
    ensures prefix { OnErr result (AddsPrefix (fault_text fault) (K.taken out.old) (K.taken out.new)) }
    ensures cause { IfErr result (HasStopped (K.faults out.old) (K.faults out.new) (K.refusals out.old) (K.refusals out.new)) }
    ensures calm { OnOk result (IsCalm (K.faults out.old) (K.faults out.new) (K.refusals out.old) (K.refusals out.new)) }
{
    let text = fault_text(alloc, fault)?;
    write_all(out, &text)?;
    Ok(())
}

/// Writes the fault of a configuration. Where it errs, a prefix of the fault's line is written.
pub fn write_misconfigured<K: Sink>(
    alloc: Global,
    fault: Misconfigured,
    out: &mut K,
) -> Result<(), Stop>
    ensures whole { OnOk result (Adds (misconfigured_text fault) (K.taken out.old) (K.taken out.new)) }
    ensures prefix { OnErr result (AddsPrefix (misconfigured_text fault) (K.taken out.old) (K.taken out.new)) }
    ensures unwritten { IsErrOf result NoMemoryStop → K.taken out.new ≡ K.taken out.old }
    ensures cause { IfErr result (HasStopped (K.faults out.old) (K.faults out.new) (K.refusals out.old) (K.refusals out.new)) }
    ensures calm { OnOk result (IsCalm (K.faults out.old) (K.faults out.new) (K.refusals out.old) (K.refusals out.new)) }
{
    let text = misconfigured_text(alloc, fault)?;
    write_all(out, &text)?;
    Ok(())
}

/// Writes that a configuration is accepted. Where it errs, a prefix of that line is written.
pub fn write_accepted<K: Sink>(alloc: Global, config: &Config, out: &mut K) -> Result<(), Stop>
    ensures whole { OnOk result (Adds (accepted_text config.now) (K.taken out.old) (K.taken out.new)) }
    ensures prefix { OnErr result (AddsPrefix (accepted_text config.now) (K.taken out.old) (K.taken out.new)) }
    ensures unwritten { IsErrOf result NoMemoryStop → K.taken out.new ≡ K.taken out.old }
    ensures cause { IfErr result (HasStopped (K.faults out.old) (K.faults out.new) (K.refusals out.old) (K.refusals out.new)) }
    ensures calm { OnOk result (IsCalm (K.faults out.old) (K.faults out.new) (K.refusals out.old) (K.refusals out.new)) }
{
    let text = accepted_text(alloc, config)?;
    write_all(out, &text)?;
    Ok(())
}
