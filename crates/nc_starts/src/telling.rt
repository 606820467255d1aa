//! The edges that owners told for a start.
ghost use Rattle.nc_starts.specs.Asked.{EdgesFollow, FirstStays, StartsKnow};
ghost use Rattle.nc_starts.specs.Edges.{EdgeAdds, EdgesOwn, EdgesStay};

/// An event that is no edge of a subscriber at a channel keeps which there are.
pub fn edges_stay()
    ensures { EdgesStay }
{}

/// One that is adds it.
pub fn edge_adds()
    ensures { EdgeAdds }
{}

/// The edges of a channel stand in its owner's history.
pub fn edges_own()
    ensures { EdgesOwn }
{}

/// The edges of a subscriber at a channel are those whose asking the owner took, whatever happens.
pub fn edges_follow()
    ensures { EdgesFollow }
{}

/// The first edge stays the first.
pub fn first_stays()
    ensures { FirstStays }
{}

/// One that asked once or twice and heard of its edges knows them.
pub fn starts_know()
    ensures { StartsKnow }
{}
