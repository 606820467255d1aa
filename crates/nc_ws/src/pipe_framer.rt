//! A framer that reads through a socket over a pipe in memory.
ghost use Rattle.std.specs.Prelude.{◌≡◌, ◌≤◌, ◌++◌, ◌∷◌, [], true, false, IfOk, IfErr, OnOk, OnErr};
ghost use Rattle.tungstenite.specs.Socket.{Flushed};
ghost use Rattle.nc_ws.specs.Begun.{IsBegun};
ghost use Rattle.nc_ws.specs.Count.{HasRisen};
ghost use Rattle.nc_ws.specs.Items.{ends_closed, ClosedIsLast, is_failure, written};
ghost use Rattle.nc_ws.specs.Reads.{Reading, Fed, Ended, Fails, Takes, FailsBehind, Finishes, items_at, shown};
ghost use Rattle.nc_ws.specs.declared.framer.FrameIn.TheVariants.{Closed as ClosedItem};

use crate::framer::{FrameFault, FrameIn, Framer};
use crate::items::{ends_closed, push_message, push_reply};
use crate::pipe::{Pipe, is_fed, joined};
use crate::told::{Told, is_last, read_once};
use nc_types::{List, NoMemory};
use std::alloc::Global;
use std::collections::VecDeque;
use tungstenite::{NoMask, Role, WebSocket, WebSocketConfig};

/// How many bytes one read of the pipe asks for. A socket keeps two rooms of this size.
const READ_BYTES: usize = 2_048;

/// The longest message and the longest payload of a frame that are read.
const MESSAGE_BYTES: usize = 65_536;

/// Reads the frames of a client (RFC 6455) through one server's socket of `tungstenite` over a pipe in memory.
///
/// It fails at frames that a client may not send, at a text that isn't UTF-8, and at a frame or message of more than
/// 65,536 bytes.
#[derive(Drop)]
pub struct PipeFramer {
    alloc: Global,
    socket: WebSocket<Pipe, NoMask>,
    faults: u64,
    calls: u64,
    closes: u64,
}

impl PipeFramer {
    /// Puts a piece behind the bytes that weren't read yet. What was written before is let go.
    fn feed(&mut self, piece: &[u8]) -> Result<(), NoMemory>
        ensures fed { OnOk result (Fed self.old.socket.stream piece.now self.new.socket.stream) }
        ensures faults { self.new.faults ≡ self.old.faults }
        ensures calls { self.new.calls ≡ self.old.calls }
        ensures closes { self.new.closes ≡ self.old.closes }
    {
        let all = joined(self.alloc, &self.socket.get_ref().bytes, piece)?;
        let pipe = self.socket.get_mut();
        pipe.out.clear();
        for byte in piece {
            pipe.bytes.push_back(*byte)?;
        }
        if is_fed(self.socket.get_ref(), &all) {
            Ok(())
        } else {
            Err(NoMemory)
        }
    }

    /// One read, and what it gave behind a list.
    fn turn(&mut self, list: &mut Vec<FrameIn>) -> Result<Told, NoMemory>
        ensures told { IfOk result (λ told. Reading self.old.socket self.new.socket told) }
        ensures gave { IfOk result (λ told. list.new.items ≡ list.old.items ++ items_at self.old.socket self.new.socket told) }
        ensures faults { self.new.faults ≡ self.old.faults }
        ensures calls { self.new.calls ≡ self.old.calls }
        ensures closes { self.new.closes ≡ self.old.closes }
    {
        let before = self.socket.get_ref().out.len();
        let told = read_once(&mut self.socket);
        push_reply(self.alloc, list, &self.socket.get_ref().out, before)?;
        push_message(list, told)?;
        Ok(told)
    }

    /// Writes the answer to a close, and puts it and Closed behind a list.
    fn answer_close(&mut self, list: &mut Vec<FrameIn>) -> Result<(), NoMemory>
        ensures flushed { OnOk result (Flushed shown self.old.socket self.new.socket) }
        ensures answered { OnOk result (self.new.socket.output ≡ []) }
        ensures gave { OnOk result (list.new.items
            ≡ list.old.items ++ written self.old.socket.stream.out.items self.new.socket.stream.out.items ++ ClosedItem ∷ []) }
        ensures faults { self.new.faults ≡ self.old.faults }
        ensures calls { self.new.calls ≡ self.old.calls }
        ensures closes { self.new.closes ≡ self.old.closes }
    {
        let before = self.socket.get_ref().out.len();
        if self.socket.flush().is_err() {
            return Err(NoMemory);
        }
        push_reply(self.alloc, list, &self.socket.get_ref().out, before)?;
        list.push(FrameIn::Closed)?;
        Ok(())
    }

    /// What the last read of a call leads to: a close is answered, and a fault is told.
    fn finish(&mut self, told: Told, mut list: Vec<FrameIn>) -> Result<List<FrameIn>, FrameFault>
        ensures finishes { Finishes told self.old.socket self.new.socket list.items result }
        ensures faults { self.new.faults ≡ self.old.faults }
        ensures calls { self.new.calls ≡ self.old.calls }
        ensures closes { self.new.closes ≡ self.old.closes }
    {
        match told {
            Told::Close => {
                self.answer_close(&mut list)?;
                Ok(List::of(list))
            }
            Told::NoMemory => Err(FrameFault::NoMemory),
            Told::Failed => Err(FrameFault::Failed),
            Told::Data => Ok(List::of(list)),
            Told::Control => Ok(List::of(list)),
            Told::Empty => Ok(List::of(list)),
        }
    }

    /// Reads until the pipe is empty or a close came.
    fn read_all(&mut self) -> Result<List<FrameIn>, FrameFault>
        ensures ended { IfOk result (λ list. Ended self.old.socket self.new.socket list) }
        ensures failed { IfErr result (λ fault. is_failure fault ≡ true → Fails self.old.socket self.new.socket) }
        ensures faults { self.new.faults ≡ self.old.faults }
        ensures calls { self.new.calls ≡ self.old.calls }
        ensures closes { self.new.closes ≡ self.old.closes }
    {
        let mut list = Vec::new(self.alloc);
        for _ in 0..u64::MAX {
            let Ok(told) = self.turn(&mut list) else {
                return Err(FrameFault::NoMemory);
            };
            if is_last(told, self.socket.get_ref()) {
                return self.finish(told, list);
            }
        }
        Err(FrameFault::NoMemory)
    }

    /// Counts a call that gave a list.
    fn count_list(&mut self, list: &List<FrameIn>)
        ensures closed { ends_closed list.now ≡ true → HasRisen self.old.closes self.new.closes }
        ensures not_closed { ends_closed list.now ≡ false → self.new.closes ≡ self.old.closes }
        ensures counted { self.old.closes ≤ self.new.closes }
        ensures faults { self.new.faults ≡ self.old.faults }
        ensures calls { self.new.calls ≡ self.old.calls }
        ensures socket { self.new.socket ≡ self.old.socket }
    {
        if ends_closed(list) {
            self.closes = self.closes.saturating_add(1);
        }
    }

    /// Counts a call that gave none.
    fn count_fault(&mut self, fault: FrameFault)
        ensures failed { is_failure fault ≡ true → HasRisen self.old.faults self.new.faults }
        ensures not_failed { is_failure fault ≡ false → self.new.faults ≡ self.old.faults }
        ensures counted { self.old.faults ≤ self.new.faults }
        ensures calls { self.new.calls ≡ self.old.calls }
        ensures closes { self.new.closes ≡ self.old.closes }
        ensures socket { self.new.socket ≡ self.old.socket }
    {
        if let FrameFault::Failed = fault {
            self.faults = self.faults.saturating_add(1);
        }
    }
}

impl Framer for PipeFramer {
    ghost faults = { λ framer. framer.faults };

    ghost calls = { λ framer. framer.calls };

    ghost closes = { λ framer. framer.closes };

    fn begin(alloc: Global, _conn: u32) -> Result<Self, NoMemory>
        ensures begun { IfOk result (λ framer. IsBegun framer.socket) }
        ensures faults { IfOk result (λ framer. framer.faults ≡ 0) }
        ensures calls { IfOk result (λ framer. framer.calls ≡ 0) }
        ensures closes { IfOk result (λ framer. framer.closes ≡ 0) }
    {
        let pipe = Pipe {
            bytes: VecDeque::new(alloc),
            out: Vec::new(alloc),
        };
        let config = WebSocketConfig::default()
            .read_buffer_size(READ_BYTES)
            .max_message_size(Some(MESSAGE_BYTES))
            .max_frame_size(Some(MESSAGE_BYTES));
        Ok(PipeFramer {
            alloc,
            socket: WebSocket::from_raw_socket(alloc, pipe, NoMask, Role::Server, Some(config)),
            faults: 0,
            calls: 0,
            closes: 0,
        })
    }

    /// Puts the piece behind the bytes that weren't read yet, and gives what the reads up to the empty pipe or a close gave.
    ///
    /// It fails where a read failed for another cause than the empty pipe or want of memory. What reads do is told of each
    /// call alone: of the frames before it the contract keeps nothing.
    fn take(&mut self, piece: &[u8]) -> Result<List<FrameIn>, FrameFault>
        ensures gave { IfOk result (λ list. Takes self.old.socket.stream piece.now self.new.socket list) }
        ensures cause { IfErr result (λ fault. is_failure fault ≡ true → FailsBehind self.old.socket.stream piece.now self.new.socket) }
        ensures last { IfOk result (λ list. ClosedIsLast list) }
        ensures closed { IfOk result (λ list. ends_closed list ≡ true → HasRisen self.old.closes self.new.closes) }
        ensures not_closed { IfOk result (λ list. ends_closed list ≡ false → self.new.closes ≡ self.old.closes) }
        ensures no_list { OnErr result (self.new.closes ≡ self.old.closes) }
        ensures failed { IfErr result (λ fault. is_failure fault ≡ true → HasRisen self.old.faults self.new.faults) }
        ensures not_failed { IfErr result (λ fault. is_failure fault ≡ false → self.new.faults ≡ self.old.faults) }
        ensures no_fault { OnOk result (self.new.faults ≡ self.old.faults) }
        ensures called { HasRisen self.old.calls self.new.calls }
        ensures faults_counted { self.old.faults ≤ self.new.faults }
        ensures calls_counted { self.old.calls ≤ self.new.calls }
        ensures closes_counted { self.old.closes ≤ self.new.closes }
    {
        self.calls = self.calls.saturating_add(1);
        if self.feed(piece).is_err() {
            return Err(FrameFault::NoMemory);
        }
        match self.read_all() {
            Ok(list) => {
                self.count_list(&list);
                Ok(list)
            }
            Err(fault) => {
                self.count_fault(fault);
                Err(fault)
            }
        }
    }
}
