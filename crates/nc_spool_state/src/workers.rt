//! The number of workers.
ghost use Rattle.std.specs.Prelude.{◌≡◌, ◌<◌};
ghost use Rattle.nc_types.specs.Channel.{owner_of};

use nc_types::ChanName;
use std::marker::Model;

/// How many workers there are, at least one.
#[derive(Clone, Copy)]
pub struct Workers {
    count: u8,
}

impl Model for Workers {
    ghost use Rattle.std.specs.Prelude.{ℕ, ◌<◌};

    ghost Value = { ℕ };

    ghost view = { λ w. w.count };

    ghost invariant = { λ w. 0 < w.count };

    ghost inverse = { λ n. record { count = n } };
}

impl Workers {
    /// So many workers, at least one.
    pub fn of(count: u8) -> Workers
        requires { 0 < count }
        ensures { result ≡ count }
    {
        Workers { count }
    }

    /// The owner of a channel.
    pub fn owner(&self, chan: &ChanName) -> u8
        ensures { result ≡ owner_of self.now chan.now }
    {
        chan.owner(self.count)
    }
}
