//! Each sent id resumes exactly there.
ghost use Rattle.nc_exact.specs.Exact.{ExactLaw, SentRisesLaw};

/// Whoever has come to a cursor was sent what isn't past it, but for what was gone when it was looked for, and nothing twice.
pub fn resumes_exactly()
    ensures { ExactLaw }
{}

/// The ids of one channel that a subscriber is sent rise strictly.
pub fn sent_rises()
    ensures { SentRisesLaw }
{}
