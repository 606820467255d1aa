//! The script of a seed and a size.
ghost use Rattle.std.specs.Prelude.{◌≡◌, ◌++◌, ◌+◌, ◌∷◌, [], ◌<◌, ◌≤◌, ◌^◌, length, OnOk, IfOk};
ghost use Rattle.nc_load.specs.DrawnLine.{clock_line, line};
ghost use Rattle.nc_load.specs.Script.{configuration, rule_line, front, settle_line, settled_after, settled_at_end, ended, text_of, script, longest_script};

use crate::draw::{Draw, draw_of, next};
use crate::line::{put, put_clock, put_line};
use nc_types::{Bytes, List, NoMemory};
use std::alloc::Global;

/// How many lines stand between two that settle.
const SETTLE_EACH: u32 = 64;

/// Puts the configuration, and the line behind it.
fn put_configuration(out: &mut Vec<u8>) -> Result<(), NoMemory>
    ensures { OnOk result (out.new.items ≡ out.old.items ++ text_of (configuration ++ rule_line ∷ [])) }
{
    put(out, b"worker_processes 4;\n")?;
    put(
        out,
        b"http { nchan_slots 256; nchan_message_buffer_length 8; }\n",
    )?;
    put(out, b"---\n")
}

/// Puts the line that sets the clock of a worker where the load begins.
fn put_first_clock(out: &mut Vec<u8>, worker: u64) -> Result<(), NoMemory>
    ensures { OnOk result (out.new.items ≡ out.old.items ++ ended (clock_line worker 1000)) }
{
    put_clock(out, worker, 1000)?;
    put(out, b"\n")
}

/// Puts the lines before those that are drawn.
fn put_front(out: &mut Vec<u8>) -> Result<(), NoMemory>
    ensures { OnOk result (out.new.items ≡ out.old.items ++ text_of front) }
{
    put_configuration(out)?;
    put_first_clock(out, 0)?;
    put_first_clock(out, 1)?;
    put_first_clock(out, 2)?;
    put_first_clock(out, 3)
}

/// Puts the line that settles.
fn put_settle(out: &mut Vec<u8>) -> Result<(), NoMemory>
    ensures { OnOk result (out.new.items ≡ out.old.items ++ text_of (settle_line ∷ [])) }
{
    put(out, b"settle 1000000\n")
}

/// Puts the line that settles behind so many lines, if it stands there.
fn put_settled_after(out: &mut Vec<u8>, n: u32) -> Result<(), NoMemory>
    ensures { OnOk result (out.new.items ≡ out.old.items ++ text_of (settled_after n)) }
{
    if n % SETTLE_EACH == 0 {
        return put_settle(out);
    }
    Ok(())
}

/// Puts the line that settles behind the last of so many lines, unless it stands there.
fn put_settled_at_end(out: &mut Vec<u8>, size: u32) -> Result<(), NoMemory>
    ensures { OnOk result (out.new.items ≡ out.old.items ++ text_of (settled_at_end size)) }
{
    if size % SETTLE_EACH == 0 {
        return Ok(());
    }
    put_settle(out)
}

/// Puts the line of what was drawn, and the line that settles behind it, if it stands there.
fn put_drawn(out: &mut Vec<u8>, draw: Draw, i: u32) -> Result<(), NoMemory>
    requires { i + 1 < 2 ^ 32 }
    ensures { OnOk result (out.new.items ≡ out.old.items ++ text_of (line draw i ∷ settled_after (i + 1))) }
{
    put_line(out, draw, i)?;
    put(out, b"\n")?;
    put_settled_after(out, i + 1)
}

/// The script of a seed and a size: its configuration, its clocks, and as many drawn lines as the size says.
///
/// Up to the greatest size of a load it has at most as many bytes as a replay takes.
pub fn make_script(alloc: Global, seed: u64, size: u32) -> Result<Bytes, NoMemory>
    ensures text { IfOk result (λ text. text ≡ script seed size) }
    ensures few { IfOk result (λ text. size ≤ 65535 → length text ≤ longest_script) }
{
    let mut out = Vec::new(alloc);
    put_front(&mut out)?;
    let mut x = seed;
    for i in 0..size {
        x = next(x);
        put_drawn(&mut out, draw_of(x), i)?;
    }
    put_settled_at_end(&mut out, size)?;
    Ok(List::of(out))
}
