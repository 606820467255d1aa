//! What is timed, and whose memory is measured.
use crate::texts::{body, chunked_head, long_chunk, requests};
use nc_http_in::{Next, Reader};
use nc_http_out::plain;
use nc_types::{Allow, List, NoMemory};
use std::alloc::Global;

/// How many requests were read, answers written or readers kept, and how many bytes they have.
#[derive(Clone, Copy)]
pub struct Done {
    pub count: u64,
    pub bytes: u64,
}

impl Done {
    fn none() -> Done {
        Done { count: 0, bytes: 0 }
    }

    fn add(&mut self, bytes: usize) {
        self.count = self.count.saturating_add(1);
        self.bytes = self.bytes.saturating_add(bytes as u64);
    }
}

/// Feeds a piece, and asks for all that can be answered then.
fn read_piece(reader: &mut Reader, piece: &[u8], done: &mut Done) -> Result<(), NoMemory> {
    reader.feed(piece)?;
    for _ in 0..u64::MAX {
        match reader.next()? {
            Next::Request(request) => done.add(request.body.len()),
            Next::More => return Ok(()),
            Next::Bad { .. } => return Ok(()),
        }
    }
    Ok(())
}

/// Feeds a text in pieces of so many bytes.
fn read_pieces(
    reader: &mut Reader,
    text: &[u8],
    piece: u64,
    done: &mut Done,
) -> Result<(), NoMemory> {
    if piece == 0 {
        return read_piece(reader, text, done);
    }
    for part in text.chunks(piece as usize) {
        read_piece(reader, part, done)?;
    }
    Ok(())
}

/// Feeds a text so often, in pieces of so many bytes.
fn read_times(
    reader: &mut Reader,
    text: &[u8],
    piece: u64,
    times: u64,
    done: &mut Done,
) -> Result<(), NoMemory> {
    for _ in 0..times {
        read_pieces(reader, text, piece, done)?;
    }
    Ok(())
}

/// Feeds a new reader a text so often, in pieces of so many bytes.
fn read_anew(
    alloc: Global,
    text: &[u8],
    piece: u64,
    times: u64,
    done: &mut Done,
) -> Result<(), NoMemory> {
    let mut reader = Reader::new(alloc);
    read_times(&mut reader, text, piece, times, done)
}

/// Feeds requests with bodies of so many bytes so often, in pieces of so many bytes, or whole where these are 0.
pub fn read_often(
    alloc: Global,
    len: u64,
    count: u64,
    piece: u64,
    times: u64,
) -> Result<Done, NoMemory> {
    let text = requests(alloc, len, count)?;
    let mut done = Done::none();
    read_anew(alloc, &text, piece, times, &mut done)?;
    Ok(done)
}

/// Writes an answer with a body of so many bytes so often.
pub fn answer_often(alloc: Global, len: u64, times: u64) -> Result<Done, NoMemory> {
    let body = body(alloc, len)?;
    let mut done = Done::none();
    for _ in 0..times {
        let answer = plain(
            alloc,
            202,
            Allow::Nothing,
            Some(b"text/plain".as_slice()),
            &body,
            false,
        )?;
        done.add(answer.len());
    }
    Ok(done)
}

/// Has a reader read a request and wait, in the middle of another one where the number of chunks isn't 0.
fn make_wait(
    alloc: Global,
    reader: &mut Reader,
    chunks: u64,
    done: &mut Done,
) -> Result<(), NoMemory> {
    read_piece(reader, &requests(alloc, 100, 1)?, done)?;
    if chunks == 0 {
        return Ok(());
    }
    read_piece(reader, chunked_head(), done)?;
    let chunk = long_chunk(alloc)?;
    for _ in 0..chunks {
        read_piece(reader, &chunk, done)?;
    }
    Ok(())
}

/// A reader that waits.
fn waiting(alloc: Global, chunks: u64, done: &mut Done) -> Result<Reader, NoMemory> {
    let mut reader = Reader::new(alloc);
    make_wait(alloc, &mut reader, chunks, done)?;
    Ok(reader)
}

/// Keeps so many readers that wait.
pub fn keep_many(alloc: Global, chunks: u64, count: u64) -> Result<Done, NoMemory> {
    let mut readers = List::new(alloc);
    let mut done = Done::none();
    for _ in 0..count {
        readers.push(waiting(alloc, chunks, &mut done)?)?;
    }
    Ok(Done {
        count: readers.len() as u64,
        bytes: done.bytes,
    })
}
