//! A send that was lawful when it was made stays so.
ghost use Rattle.nc_sends.specs.Fences.{FencesStay};
ghost use Rattle.nc_sends.specs.Stays.{SendsStay};

/// Each cursor that a send has made is fenced from then on.
pub fn fences_stay()
    ensures { FencesStay }
{}

/// Sends that were lawful and fenced when they were made are lawful, whatever was stored later.
pub fn sends_stay()
    ensures { SendsStay }
{}
