//! An owner stands for its history behind the removal of a channel, by a deletion and by a sweep.
ghost use Rattle.nc_owner_laws.specs.RemovalStands.{RemovalStands};
ghost use Rattle.nc_owner_laws.specs.Removing.{RemoveKeeps, DeleteKeeps, SweepKeeps, MembersTold, ToldAreThere};

/// Where all that a channel keeps leaves, the channel goes, and each marked worker is told, it is kept.
pub fn removal_stands()
    ensures { RemovalStands }
{}

/// So it stands, with all in order, for its history when a channel of its own was removed.
pub fn remove_keeps()
    ensures { RemoveKeeps }
{}

/// And when a deletion was done.
pub fn delete_keeps()
    ensures { DeleteKeeps }
{}

/// And when a channel was swept.
pub fn sweep_keeps()
    ensures { SweepKeeps }
{}

/// The members of a channel that is removed are told gone, and nobody else is.
pub fn members_told()
    ensures { MembersTold }
{}

/// Whoever is told is a worker that is there, where those are that the channel keeps.
pub fn told_are_there()
    ensures { ToldAreThere }
{}
