//! What keeps that a place rests, and what turns one where nothing was found.
ghost use Rattle.nc_rests.specs.Keeping.{FoundStays, NothingStays, RestStays, StepRests, TakeKeeps};
ghost use Rattle.nc_rests.specs.Spools.{QuietSpools};
ghost use Rattle.nc_rests.specs.Telling.{NothingLacks, NoticeFinds};

/// Every event keeps what a place rests on, but that its worker takes an alert of the channel's owner.
pub fn rest_stays()
    ensures { RestStays }
{}

/// So do all events of a step.
pub fn step_rests()
    ensures { StepRests }
{}

/// What was found stays found.
pub fn found_stays()
    ensures { FoundStays }
{}

/// An alert that doesn't wake the look keeps that nothing was found.
pub fn nothing_stays()
    ensures { NothingStays }
{}

/// A worker that takes an alert keeps what its places rest on, but for those where nothing was found and whose channel the alert signals.
pub fn take_keeps()
    ensures { TakeKeeps }
{}

/// The first notice behind a look that found nothing finds its message.
pub fn notice_finds()
    ensures { NoticeFinds }
{}

/// Where nothing was found and all was taken, no message that is buffered is past the cursor.
pub fn nothing_lacks()
    ensures { NothingLacks }
{}

/// Where all was taken and nothing was found at any place of a spool, those who wait there lack nothing.
pub fn quiet_spools()
    ensures { QuietSpools }
{}
