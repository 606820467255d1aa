//! The packets between two workers.
ghost use Rattle.nc_history.specs.Packets.{TakenIsPrefix};

/// What a worker took of another and what it hasn't taken yet are together what that one made for it, in order.
pub fn taken_is_prefix()
    ensures { TakenIsPrefix }
{}
