//! Runs a row, and prints what it comes to.
use crate::objects::{Endless, Full, Sips};
use crate::row::Row;
use nc_outside::{Failed, MemSink, MemSource, Sink, Source, SureSink, SureSource};
use nc_replay::{replay, top};
use nc_types::text::put_decimal;
use nc_types::{Bytes, List, NoMemory};
use std::alloc::Global;

fn words_of(alloc: Global, text: &str) -> Result<Vec<String>, NoMemory> {
    let mut words = Vec::new(alloc);
    for word in text.split_ascii_whitespace() {
        words.push(String::from_str(alloc, word)?)?;
    }
    Ok(words)
}

/// The numbers of the calls that are to fail: this one, or none.
fn failing(alloc: Global, number: Option<u64>) -> Result<List<u64>, NoMemory> {
    let mut numbers = Vec::new(alloc);
    if let Some(number) = number {
        numbers.push(number)?;
    }
    Ok(List::of(numbers))
}

fn bytes_of(alloc: Global, row: &Row) -> Result<Bytes, NoMemory> {
    Ok(List::of(row.repeated(alloc)?))
}

fn source_of(alloc: Global, row: &Row) -> Result<MemSource, NoMemory> {
    Ok(MemSource::new(bytes_of(alloc, row)?, failing(alloc, row.number("read="))?))
}

fn sink_of(alloc: Global, row: &Row) -> Result<MemSink, NoMemory> {
    Ok(MemSink::new(alloc, failing(alloc, row.number("write="))?))
}

/// A number goes behind a label, and a LF behind it.
fn put_number(out: &mut Vec<u8>, label: &[u8], number: u64) -> Result<(), NoMemory> {
    out.extend_from_slice(label)?;
    put_decimal(out, number)?;
    out.push(b'\n')?;
    Ok(())
}

/// Runs a row's command over these, or a replay whose numbers begin where the row says, and gives the status.
fn status_of<S: Source, K: Sink>(
    alloc: Global,
    row: &Row,
    input: &mut S,
    sink: &mut K,
) -> Result<u8, NoMemory> {
    if let Some(first) = row.number("first=") {
        return Ok(replay(alloc, first, input, sink));
    }
    let words = words_of(alloc, row.words())?;
    Ok(top(alloc, &words, input, sink))
}

/// Runs a row's command over these, and prints its status.
fn put_status<S: Source, K: Sink>(
    alloc: Global,
    row: &Row,
    input: &mut S,
    sink: &mut K,
    out: &mut Vec<u8>,
) -> Result<(), NoMemory> {
    let status = status_of(alloc, row, input, sink)?;
    put_number(out, b"= ", u64::from(status))
}

/// A byte that stands so often in a row goes behind a text: once, with how often, where that is more than 99 times.
fn put_times(out: &mut Vec<u8>, byte: u8, times: u64) -> Result<(), NoMemory> {
    if times > 99 {
        out.push(byte)?;
        out.push(b'*')?;
        return put_decimal(out, times);
    }
    for _ in 0..times {
        out.push(byte)?;
    }
    Ok(())
}

/// What was written goes behind a text, with bytes that stand often in a row once.
fn put_written(out: &mut Vec<u8>, written: &[u8]) -> Result<(), NoMemory> {
    let mut last = 0;
    let mut times: u64 = 0;
    for byte in written {
        if *byte != last {
            put_times(out, last, times)?;
            last = *byte;
            times = 0;
        }
        times = times.saturating_add(1);
    }
    put_times(out, last, times)
}

/// Runs a command over a source and a sink in memory.
fn put_command(alloc: Global, row: &Row, out: &mut Vec<u8>) -> Result<(), NoMemory> {
    let mut sink = sink_of(alloc, row)?;
    if row.has("sips") {
        let mut input = Sips {
            source: source_of(alloc, row)?,
        };
        put_status(alloc, row, &mut input, &mut sink, out)?;
    } else if row.has("endless") {
        put_status(alloc, row, &mut Endless::new(), &mut sink, out)?;
    } else {
        let mut input = source_of(alloc, row)?;
        put_status(alloc, row, &mut input, &mut sink, out)?;
    }
    put_written(out, sink.bytes())
}

/// Runs a command over a source that never fails, and a sink that never does or takes nothing.
fn put_sure(alloc: Global, row: &Row, out: &mut Vec<u8>) -> Result<(), NoMemory> {
    let mut input = SureSource::new(bytes_of(alloc, row)?);
    if row.has("full") {
        let mut full = Full { refusals: 0 };
        put_status(alloc, row, &mut input, &mut full, out)?;
        return put_number(out, b"refusals ", full.refusals);
    }
    put_status(alloc, row, &mut input, &mut SureSink::new(), out)
}

/// What five reads into a room of two bytes gave.
fn put_reads<S: Source>(source: &mut S, out: &mut Vec<u8>) -> Result<(), NoMemory> {
    for _ in 0..5 {
        let mut room = [b'_'; 2];
        match source.read(&mut room) {
            Ok(many) => out.extend_from_slice(&room[..many])?,
            Err(Failed) => out.push(b'!')?,
        }
        out.push(b'/')?;
    }
    out.push(b'\n')?;
    Ok(())
}

/// How many bytes of each line a sink took.
fn put_writes<K: Sink>(pieces: &[u8], sink: &mut K, out: &mut Vec<u8>) -> Result<(), NoMemory> {
    for piece in pieces.split(|b| *b == b'\n') {
        match sink.write(piece) {
            Ok(many) => put_number(out, b"", many as u64)?,
            Err(Failed) => out.extend_from_slice(b"!\n")?,
        }
    }
    Ok(())
}

/// Reads without a command.
fn put_twos(alloc: Global, row: &Row, out: &mut Vec<u8>) -> Result<(), NoMemory> {
    if row.has("sure") {
        return put_reads(&mut SureSource::new(bytes_of(alloc, row)?), out);
    }
    put_reads(&mut source_of(alloc, row)?, out)
}

/// Writes without a command, and prints what was kept.
fn put_pieces(alloc: Global, row: &Row, out: &mut Vec<u8>) -> Result<(), NoMemory> {
    let text = row.repeated(alloc)?;
    if row.has("sure") {
        return put_writes(&text, &mut SureSink::new(), out);
    }
    let mut sink = sink_of(alloc, row)?;
    put_writes(&text, &mut sink, out)?;
    out.extend_from_slice(sink.bytes())?;
    out.push(b'\n')?;
    Ok(())
}

/// Runs a row, and prints what it comes to.
pub fn put_run(alloc: Global, row: &Row, out: &mut Vec<u8>) -> Result<(), NoMemory> {
    if row.has("twos") {
        return put_twos(alloc, row, out);
    }
    if row.has("pieces") {
        return put_pieces(alloc, row, out);
    }
    if row.has("sure") || row.has("full") {
        return put_sure(alloc, row, out);
    }
    put_command(alloc, row, out)
}
