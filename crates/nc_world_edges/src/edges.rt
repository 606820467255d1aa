//! Edges, and their answers.
ghost use Rattle.nc_world_edges.specs.Edges.{EdgeAskedBelow, EdgeAskedOnce, EdgesAreAnswered, NextEdgeAnswers, ReachedTellsEdges, UndrawnUnanswered, UndrawnUnreceived};

/// The edges of each subscriber at each channel are those whose asking the owner took, in their order.
pub fn edges_are_told()
    ensures { ReachedTellsEdges }
{}

/// The answer that a worker takes next is that of an edge which it asked for, told behind its fence.
pub fn next_edge_answers()
    ensures { NextEdgeAnswers }
{}

/// Each edge that was told was answered.
pub fn edges_are_answered()
    ensures { EdgesAreAnswered }
{}

/// A number is drawn for one edge.
pub fn edge_asked_once()
    ensures { EdgeAskedOnce }
{}

/// It is below the number that the worker draws next.
pub fn edge_asked_below()
    ensures { EdgeAskedBelow }
{}

/// No owner answered an edge whose number isn't drawn yet.
pub fn undrawn_unanswered()
    ensures { UndrawnUnanswered }
{}

/// So no worker took such an answer.
pub fn undrawn_unreceived()
    ensures { UndrawnUnreceived }
{}
