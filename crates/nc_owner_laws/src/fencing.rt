//! An owner stands for its history when its floor has risen, and when an edge was told.
ghost use Rattle.nc_owner_laws.specs.Fencing.{RaiseKeeps, EdgeKeeps};

/// It does with a floor that has risen.
pub fn raise_keeps()
    ensures { RaiseKeeps }
{}

/// And it does with an edge that was told and answered.
pub fn edge_keeps()
    ensures { EdgeKeeps }
{}
