//! What a place makes of what it hears: the answer to a look, a message that was stored, a channel that is gone.
ghost use Rattle.std.specs.Prelude.{◌≡◌};
ghost use Rattle.nc_spool_state.specs.Hear.{found_by, learned, notice_says, gone_says};

use crate::place::{Place, Quiet};
use nc_types::MsgId;

/// A message that may be sent: its id, and the grant of its owner that holds it.
#[derive(Clone, Copy)]
pub struct News {
    pub id: MsgId,
    pub owner: u8,
    pub g: u64,
}

/// What a place makes of something heard: it stays, it forgets an earlier answer, it looks again, or a message is found.
#[derive(Clone, Copy)]
pub enum Heard {
    Stays,
    Forgets(Place),
    Looks,
    Finds(Place),
}

impl News {
    /// The message as it is found at a place that rests on the look `q`.
    fn found(&self, q: u64) -> Place
        ensures { result ≡ found_by q self.now }
    {
        Place::Found {
            q,
            id: self.id,
            owner: self.owner,
            g: self.g,
        }
    }
}

/// What a place knows after the answer to its look: a message, if there is one past its id.
pub fn learned(after: MsgId, quiet: Quiet, news: Option<News>) -> Place
    ensures { result ≡ learned after quiet news }
{
    match news {
        Some(news) => {
            if news.id.past(&after) {
                news.found(quiet.q)
            } else {
                Place::Nothing(quiet)
            }
        }
        None => Place::Nothing(quiet),
    }
}

/// What a place makes of a stored message, which is past its id or not.
pub fn notice_says(news: &News, is_past: bool, known: Place) -> Heard
    ensures { result ≡ notice_says news.now is_past known }
{
    match known {
        Place::Nothing(quiet) => {
            if is_past {
                Heard::Finds(news.found(quiet.q))
            } else {
                Heard::Looks
            }
        }
        Place::Asked {
            no,
            earlier: Some(quiet),
        } => {
            if is_past {
                Heard::Finds(news.found(quiet.q))
            } else {
                let earlier = None;
                Heard::Forgets(Place::Asked { no, earlier })
            }
        }
        _ => Heard::Stays,
    }
}

/// What a place makes of the removal of its channel.
pub fn gone_says(known: Place) -> Heard
    ensures { result ≡ gone_says known }
{
    match known {
        Place::Nothing(_) => Heard::Looks,
        Place::Asked {
            no,
            earlier: Some(_),
        } => Heard::Forgets(Place::Asked { no, earlier: None }),
        _ => Heard::Stays,
    }
}
