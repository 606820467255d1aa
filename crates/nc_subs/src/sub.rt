//! One subscriber.
ghost use Rattle.std.specs.Prelude.{◌≡◌};
ghost use Rattle.nc_subs.specs.Subs.{is_due};

use nc_types::ChanList;

/// How a subscriber is served: by a script's line, by one answer to a long poll, or over a socket, whose messages bear
/// their ids in `Meta`.
#[derive(Clone, Copy)]
pub enum Mode {
    Direct,
    LongPoll,
    Socket,
    Meta,
}

/// A subscriber: its number, its connection if it has one, the channels that it listens to, how it is served, the worker's
/// clock when it came, its time-out in seconds, where 0 is none, and whether its connection closes after the answer.
#[derive(Drop)]
pub struct Sub {
    pub k: u64,
    pub conn: Option<u32>,
    pub list: ChanList,
    pub mode: Mode,
    pub start: u64,
    pub timeout: u64,
    pub close: bool,
}

impl Sub {
    /// Whether it has a time-out, which is over at a moment.
    pub fn is_due(&self, now: u64) -> bool
        ensures { result ≡ is_due now self.now }
    {
        self.timeout != 0
            && match now.checked_sub(self.start) {
                Some(waited) => self.timeout <= waited,
                None => false,
            }
    }
}
