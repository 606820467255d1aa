//! The routing rules by name, each with its number and status.
ghost use Rattle.std.specs.Prelude.{◌≡◌};
ghost use Rattle.nc_route.specs.Rules.{number_of, status_of, refused};

use crate::decision::Decision;
use nc_types::Allow;

/// Why a request is refused: the rules, in their order.
#[derive(Clone, Copy)]
pub(crate) enum Reason {
    /// The target doesn't begin with `/`.
    NoSlash,
    /// No location matches, or it has no role.
    NoPlace,
    /// The body is longer than it may be.
    LongBody,
    /// The method isn't allowed.
    OtherMethod,
    /// A channel id is empty.
    EmptyId,
    /// A channel id is longer than it may be.
    LongId,
    /// The list has too many names.
    ManyNames,
    /// What is for one channel is asked of several.
    SeveralNames,
    /// A WebSocket is asked for where there is none.
    NoSocket,
    /// The opening of the WebSocket is refused.
    BadOpening,
    /// A long poll is asked for where there is none.
    NoLongPoll,
    /// The date isn't one.
    NoDate,
    /// The tags or the id are malformed.
    BadTags,
    /// The tags or the id are those of another number of names.
    OtherTags,
}

impl Reason {
    /// The number of the rule.
    pub(crate) fn number(self) -> u8
        ensures { result ≡ number_of self }
    {
        match self {
            Reason::NoSlash => 1,
            Reason::NoPlace => 2,
            Reason::LongBody => 3,
            Reason::OtherMethod => 4,
            Reason::EmptyId => 5,
            Reason::LongId => 6,
            Reason::ManyNames => 7,
            Reason::SeveralNames => 8,
            Reason::NoSocket => 9,
            Reason::BadOpening => 10,
            Reason::NoLongPoll => 11,
            Reason::NoDate => 12,
            Reason::BadTags => 13,
            Reason::OtherTags => 14,
        }
    }

    /// The status of the answer.
    pub(crate) fn status(self) -> u16
        ensures { result ≡ status_of self }
    {
        match self {
            Reason::NoSlash
            | Reason::EmptyId
            | Reason::SeveralNames
            | Reason::BadOpening
            | Reason::NoDate
            | Reason::BadTags
            | Reason::OtherTags => 400,
            Reason::LongId | Reason::ManyNames | Reason::NoSocket | Reason::NoLongPoll => 403,
            Reason::NoPlace => 404,
            Reason::OtherMethod => 405,
            Reason::LongBody => 413,
        }
    }

    /// The refusal by this rule.
    pub(crate) fn refusal(self, allow: Allow) -> Decision
        ensures { result ≡ refused self allow }
    {
        Decision::Refuse {
            status: self.status(),
            rule: self.number(),
            allow,
        }
    }
}
