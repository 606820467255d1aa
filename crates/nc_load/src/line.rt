//! The lines of a load, each put behind a text. Without memory a part of a line may stand there.
ghost use Rattle.std.specs.Prelude.{◌≡◌, ◌++◌, codes, OnOk};
ghost use Rattle.std.specs.Fmt.{decimal};
ghost use Rattle.nc_load.specs.DrawnLine.{name, post_line, poll_line, clock_line, reap_line, drop_line, line};

use crate::draw::{Draw, Kind};
use nc_types::NoMemory;
use nc_types::text::put_decimal;

/// Puts bytes behind a text.
pub(crate) fn put(out: &mut Vec<u8>, bytes: &[u8]) -> Result<(), NoMemory>
    ensures { OnOk result (out.new.items ≡ out.old.items ++ bytes.now) }
{
    out.extend_from_slice(bytes)?;
    Ok(())
}

/// Puts a line's first word and the worker behind it.
fn put_command(out: &mut Vec<u8>, word: &[u8], worker: u64) -> Result<(), NoMemory>
    ensures { OnOk result (out.new.items ≡ out.old.items ++ word.now ++ decimal worker) }
{
    put(out, word)?;
    put_decimal(out, worker)
}

/// Puts the name of a channel.
fn put_name(out: &mut Vec<u8>, n: u64) -> Result<(), NoMemory>
    ensures { OnOk result (out.new.items ≡ out.old.items ++ name n) }
{
    put(out, b"c")?;
    put_decimal(out, n)
}

/// `post W NAME "I"`
fn put_post(out: &mut Vec<u8>, draw: Draw, i: u32) -> Result<(), NoMemory>
    ensures { OnOk result (out.new.items ≡ out.old.items ++ post_line draw i) }
{
    put_command(out, b"post ", draw.worker)?;
    put(out, b" ")?;
    put_name(out, draw.channel)?;
    put(out, b" \"")?;
    put_decimal(out, u64::from(i))?;
    put(out, b"\"")
}

/// `poll W I NAME,NAME 0:-,-`
fn put_poll(out: &mut Vec<u8>, draw: Draw, i: u32) -> Result<(), NoMemory>
    ensures { OnOk result (out.new.items ≡ out.old.items ++ poll_line draw i) }
{
    put_command(out, b"poll ", draw.worker)?;
    put(out, b" ")?;
    put_decimal(out, u64::from(i))?;
    put(out, b" ")?;
    put_name(out, draw.channel)?;
    put(out, b",")?;
    put_name(out, draw.other)?;
    put(out, b" 0:-,-")
}

/// `clock W T`
pub(crate) fn put_clock(out: &mut Vec<u8>, worker: u64, time: u64) -> Result<(), NoMemory>
    ensures { OnOk result (out.new.items ≡ out.old.items ++ clock_line worker time) }
{
    put_command(out, b"clock ", worker)?;
    put(out, b" ")?;
    put_decimal(out, time)
}

/// `reap W`
fn put_reap(out: &mut Vec<u8>, draw: Draw) -> Result<(), NoMemory>
    ensures { OnOk result (out.new.items ≡ out.old.items ++ reap_line draw) }
{
    put_command(out, b"reap ", draw.worker)
}

/// `drop W NAME`
fn put_drop(out: &mut Vec<u8>, draw: Draw) -> Result<(), NoMemory>
    ensures { OnOk result (out.new.items ≡ out.old.items ++ drop_line draw) }
{
    put_command(out, b"drop ", draw.worker)?;
    put(out, b" ")?;
    put_name(out, draw.channel)
}

/// Puts the line of what was drawn, for the number of the line, without its LF.
pub(crate) fn put_line(out: &mut Vec<u8>, draw: Draw, i: u32) -> Result<(), NoMemory>
    ensures { OnOk result (out.new.items ≡ out.old.items ++ line draw i) }
{
    match draw.kind {
        Kind::Post => put_post(out, draw, i),
        Kind::Poll => put_poll(out, draw, i),
        Kind::Clock => put_clock(out, draw.worker, u64::from(1000 + i / 16)),
        Kind::Reap => put_reap(out, draw),
        Kind::Remove => put_drop(out, draw),
    }
}
