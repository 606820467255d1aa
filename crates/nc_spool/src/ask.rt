//! What a spool asks of the owner of a channel.
ghost use Rattle.std.specs.Prelude.{◌≡◌};
ghost use Rattle.nc_spool.specs.Ask.{alert_of, outgoing_of};

use nc_alert::{Alert, Outgoing};
use nc_types::{ChanName, MsgId};

/// The alerts that spools make. None of them holds a message.
#[derive(Drop)]
pub enum Ask {
    /// Asks for the first message past an id. The owner's floor is at least `fence` then.
    Look {
        no: u64,
        c: ChanName,
        after: MsgId,
        fence: u64,
    },
    /// Asks for the channel's last id, for subscriber `k`. The owner's floor is at least `fence` then.
    Edge {
        no: u64,
        k: u64,
        c: ChanName,
        fence: u64,
    },
    /// Subscriber `k` becomes a member of the channel.
    Join {
        c: ChanName,
        k: u64,
    },
    /// Subscriber `k` is a member no longer.
    Part {
        c: ChanName,
        k: u64,
    },
}

/// What is asked of worker `to`.
#[derive(Drop)]
pub struct Asking {
    pub to: u8,
    pub ask: Ask,
}

impl Ask {
    /// The alert that asks it.
    pub fn into_alert<H: Drop>(self) -> Alert<H>
        ensures { result ≡ alert_of self }
    {
        match self {
            Ask::Look {
                no,
                c,
                after,
                fence,
            } => Alert::Look {
                no,
                c,
                after,
                fence,
            },
            Ask::Edge { no, k, c, fence } => Alert::Edge { no, k, c, fence },
            Ask::Join { c, k } => Alert::Join { c, k },
            Ask::Part { c, k } => Alert::Part { c, k },
        }
    }
}

impl Asking {
    /// The alert to the owner, which has no number yet.
    pub fn into_outgoing<H: Drop>(self) -> Outgoing<H>
        ensures { result ≡ outgoing_of self }
    {
        Outgoing {
            to: self.to,
            alert: self.ask.into_alert(),
        }
    }
}
