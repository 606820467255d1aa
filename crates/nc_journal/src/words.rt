//! How the words of an event are spelled in its line.
ghost use Rattle.std.specs.Prelude.{◌≡◌};
ghost use Rattle.nc_journal.specs.Word.{
  act_word,
  mode_word,
  left_word,
  removed_word,
  ended_word,
  shut_word,
  kind_word,
};

use crate::word::{Act, AlertKind, EndedCause, LeftCause, ModeLine, RemovedCause, ShutCause};

pub(crate) fn act_word(act: Act) -> &'static [u8]
    ensures { result.now ≡ act_word act }
{
    match act {
        Act::Publish => b"publish",
        Act::Info => b"info",
        Act::Delete => b"delete",
        Act::LongPoll => b"longpoll",
        Act::Socket => b"socket",
        Act::Refuse => b"refuse",
        Act::Bad => b"bad",
    }
}

pub(crate) fn mode_word(mode: ModeLine) -> &'static [u8]
    ensures { result.now ≡ mode_word mode }
{
    match mode {
        ModeLine::Direct => b"direct",
        ModeLine::LongPoll => b"longpoll",
        ModeLine::Socket => b"socket",
        ModeLine::Meta => b"meta",
    }
}

pub(crate) fn left_word(cause: LeftCause) -> &'static [u8]
    ensures { result.now ≡ left_word cause }
{
    match cause {
        LeftCause::Length => b"length",
        LeftCause::Expired => b"expired",
        LeftCause::Deleted => b"deleted",
        LeftCause::Spent => b"spent",
    }
}

pub(crate) fn removed_word(cause: RemovedCause) -> &'static [u8]
    ensures { result.now ≡ removed_word cause }
{
    match cause {
        RemovedCause::Deleted => b"deleted",
        RemovedCause::Reaped => b"reaped",
    }
}

pub(crate) fn ended_word(cause: EndedCause) -> &'static [u8]
    ensures { result.now ≡ ended_word cause }
{
    match cause {
        EndedCause::Answered => b"answered",
        EndedCause::Timeout => b"timeout",
        EndedCause::Deleted => b"deleted",
        EndedCause::Peer => b"peer",
        EndedCause::Closed => b"closed",
        EndedCause::Frame => b"frame",
    }
}

pub(crate) fn shut_word(cause: ShutCause) -> &'static [u8]
    ensures { result.now ≡ shut_word cause }
{
    match cause {
        ShutCause::Asked => b"asked",
        ShutCause::Refused => b"refused",
        ShutCause::Peer => b"peer",
        ShutCause::Closed => b"closed",
        ShutCause::Deleted => b"deleted",
        ShutCause::Timeout => b"timeout",
        ShutCause::Frame => b"frame",
    }
}

pub(crate) fn kind_word(kind: AlertKind) -> &'static [u8]
    ensures { result.now ≡ kind_word kind }
{
    match kind {
        AlertKind::Publish => b"publish",
        AlertKind::PubAnswer => b"pubanswer",
        AlertKind::Look => b"look",
        AlertKind::LookAnswer => b"lookanswer",
        AlertKind::Notice => b"notice",
        AlertKind::Edge => b"edge",
        AlertKind::EdgeAnswer => b"edgeanswer",
        AlertKind::Join => b"join",
        AlertKind::Part => b"part",
        AlertKind::Delete => b"delete",
        AlertKind::DelAnswer => b"delanswer",
        AlertKind::Gone => b"gone",
        AlertKind::Info => b"info",
        AlertKind::InfoAnswer => b"infoanswer",
    }
}
