//! What holds when a spool sends.
ghost use Rattle.nc_spool_laws.specs.Guards.{GuardsSends};
ghost use Rattle.nc_spool_laws.specs.Rules.{SendingRule};

/// A spool sends the message at the lowest place with the least time, and no place could still bring an older one.
pub fn sends_are_guarded()
    ensures { GuardsSends }
{}

/// A spool sends to each of its subscribers in their order, who moves by the message's id, and ends by it where it reads once.
pub fn all_are_sent()
    ensures { SendingRule }
{}
