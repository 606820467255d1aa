//! What follows from the definitions, proved once for all configurations and requests; nothing is run.
ghost use Rattle.nc_route.specs.Laws.{OneDecision, DecisionsAreSound};

/// A request has one decision by a configuration.
pub fn one_decision()
    ensures { OneDecision }
{
    nc_ident::laws::date_spells_one_second();
}

/// A subscription has a start of as many names as its list; a refusal has the number and status of a rule, and with the
/// status 405 it names methods.
pub fn decisions_are_sound()
    ensures { DecisionsAreSound }
{}
