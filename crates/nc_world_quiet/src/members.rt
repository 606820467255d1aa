//! Members at quiet.
ghost use Rattle.nc_world_quiet.specs.Members.{HistoriesHaveMembers};

/// At quiet nobody is starting, and the members of each channel are exactly those who stand with it, by the journal alone.
pub fn histories_have_members()
    ensures { HistoriesHaveMembers }
{}
