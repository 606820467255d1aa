//! What a configuration may set in several of its blocks.
use std::marker::Model;

/// What holds at a location: the limits of its channels and requests, and where its subscribers begin.
///
/// Each number keeps the range that docs/CONFIGURATION.md gives for its directive.
#[derive(Clone, Copy, Debug, PartialEq, Eq)]
pub struct Settings {
    /// How many messages a channel keeps, 0 to 1,000,000.
    pub length: u32,
    /// For how many seconds a channel keeps a message, at most 1,000,000,000. 0 is for ever.
    pub timeout: u64,
    /// After how many seconds a subscriber is ended, at most 1,000,000,000. 0 is never.
    pub sub_timeout: u64,
    /// Whether a subscriber begins behind the newest message, and not before the oldest.
    pub newest: bool,
    /// How many bytes a channel id may have, 1 to 1,024.
    pub max_name: u32,
    /// How many bytes the body of a request may have, 1 to 65,536.
    pub max_body: u32,
}

impl Model for Settings {
    ghost use Rattle.nc_types.specs.Settings.{SettingsAt, IsLength, IsSeconds, IsNameLimit, IsBodyLimit};

    ghost Value = { SettingsAt };

    ghost view = { λ s. record {
      length = s.length;
      timeout = s.timeout;
      sub_timeout = s.sub_timeout;
      newest = s.newest;
      max_name = s.max_name;
      max_body = s.max_body;
    } };

    ghost invariant = { λ s. IsLength s.length × IsSeconds s.timeout × IsSeconds s.sub_timeout × IsNameLimit s.max_name × IsBodyLimit s.max_body };

    ghost inverse = { λ s. record {
      length = s.length;
      timeout = s.timeout;
      sub_timeout = s.sub_timeout;
      newest = s.newest;
      max_name = s.max_name;
      max_body = s.max_body;
    } };
}
