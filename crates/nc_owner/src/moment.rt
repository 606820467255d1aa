//! The clock of an owner.
ghost use Rattle.std.specs.Prelude.{◌≡◌};
ghost use Rattle.nc_owner.specs.Moment.{IsClock};

use std::marker::Model;

/// A second between 1970 and 2100, which contracts see as its number.
#[derive(Drop)]
pub struct Moment {
    seconds: u64,
}

impl Model for Moment {
    ghost use Rattle.std.specs.Prelude.{ℕ};
    ghost use Rattle.nc_owner.specs.Moment.{IsClock};

    ghost Value = { ℕ };

    ghost view = { λ m. m.seconds };

    ghost invariant = { λ m. IsClock m.seconds };
}

impl Moment {
    /// The second of a number.
    pub(crate) fn of(seconds: u64) -> Moment
        requires { IsClock seconds }
        ensures { result ≡ seconds }
    {
        Moment { seconds }
    }

    /// The number of the second.
    pub(crate) fn seconds(&self) -> u64
        ensures seconds { result ≡ self.now }
        ensures within { IsClock self.now }
    {
        self.seconds
    }
}
