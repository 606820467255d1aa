//! A spool that is ready sends lawfully.
ghost use Rattle.nc_sends.specs.Chosen.{SpoolsSend};
ghost use Rattle.nc_sends.specs.GoodSends.{ChoiceSends};

/// Where no place of a spool is asked, and none is behind the time of the chosen message, that message is sent lawfully.
pub fn spools_send()
    ensures { SpoolsSend }
{}

/// What a spool chooses to send is sent lawfully to each of its subscribers.
pub fn choice_sends()
    ensures { ChoiceSends }
{}
