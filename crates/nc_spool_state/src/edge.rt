//! Edges: what a subscriber that begins behind the newest message is told of each channel.
ghost use Rattle.std.specs.Prelude.{◌≡◌, ◌<◌, [], ◌∷◌, ◌++◌, length, map, IfOk};
ghost use Rattle.nc_types.specs.Id.{IsTime, IsTag};
ghost use Rattle.nc_types.specs.Cursor.{AreTags};
ghost use Rattle.nc_spool_state.specs.Edge.{is_edge, is_edge_of, is_awaited, later, is_behind, is_any_awaited, is_any_behind, edge_time, edge_tag, newest_time, newest_tags, newest_cursor};

use nc_types::{Cursor, List, MsgId, NoMemory};
use std::alloc::Global;

/// What is known of the newest message of a channel: an edge is in flight under a number, or it was answered,
/// with the channel's last id and the owner's floor.
#[derive(Clone, Copy)]
pub enum Edge {
    Awaited(u64),
    Known { last: MsgId, floor: u64 },
}

impl Edge {
    /// Whether the edge of this number is in flight.
    pub fn is_edge(&self, number: u64) -> bool
        ensures { result ≡ is_edge number self.now }
    {
        match self {
            Edge::Awaited(no) => *no == number,
            Edge::Known { .. } => false,
        }
    }

    /// Whether an edge is in flight.
    pub fn is_awaited(&self) -> bool
        ensures { result ≡ is_awaited self.now }
    {
        matches!(self, Edge::Awaited(_))
    }

    /// Whether the owner's floor is below a time.
    pub fn is_behind(&self, time: u64) -> bool
        ensures { result ≡ is_behind time self.now }
    {
        match self {
            Edge::Awaited(_) => false,
            Edge::Known { floor, .. } => *floor < time,
        }
    }

    /// The time of the last id.
    fn time(&self) -> u64
        ensures time { result ≡ edge_time self.now }
        ensures limit { IsTime result }
    {
        match self {
            Edge::Awaited(_) => 0,
            Edge::Known { last, .. } => last.time,
        }
    }

    /// The tag of the last id, if its time is this one.
    fn tag(&self, time: u64) -> i32
        ensures tag { result ≡ edge_tag time self.now }
        ensures limit { IsTag result }
    {
        match self {
            Edge::Awaited(_) => -1,
            Edge::Known { last, .. } => { if last.time == time { last.tag } else { -1 } }
        }
    }
}

/// The greatest time of the last ids.
fn newest_time(edges: &[Edge]) -> u64
    ensures time { result ≡ newest_time edges.now }
    ensures limit { IsTime result }
{
    let mut time = 0;
    for edge in edges {
        time = edge.time().max(time);
    }
    time
}

/// The tag of each last id with this time.
fn newest_tags(alloc: Global, edges: &[Edge], time: u64) -> Result<List<i32>, NoMemory>
    ensures tags { IfOk result (λ tags. tags ≡ newest_tags time edges.now) }
    ensures limit { IfOk result AreTags }
    ensures count { IfOk result (λ tags. length tags ≡ length edges.now) }
{
    let mut tags = List::new(alloc);
    for edge in edges {
        tags.push(edge.tag(time))?;
    }
    Ok(tags)
}

/// The cursor behind the newest message of each channel.
pub fn newest_cursor(alloc: Global, edges: &[Edge]) -> Result<Cursor, NoMemory>
    requires { 0 < length edges.now }
    ensures cursor { IfOk result (λ cursor. cursor ≡ newest_cursor edges.now) }
    ensures count { IfOk result (λ cursor. length cursor.tags ≡ length edges.now) }
{
    let time = newest_time(edges);
    let tags = newest_tags(alloc, edges, time)?;
    Ok(Cursor { time, tags })
}

/// Whether one of some edges is in flight.
pub fn is_any_awaited(edges: &[Edge]) -> bool
    ensures { result ≡ is_any_awaited edges.now }
{
    edges.iter().any(|edge| edge.is_awaited())
}

/// Whether one of the owners' floors is below a time.
pub fn is_any_behind(edges: &[Edge], time: u64) -> bool
    ensures { result ≡ is_any_behind time edges.now }
{
    edges.iter().any(|edge| edge.is_behind(time))
}

/// Whether the edge of this number is among some.
pub(crate) fn is_among(edges: &[Edge], number: u64) -> bool
    ensures { result ≡ is_edge_of number edges.now }
{
    edges.iter().any(|edge| edge.is_edge(number))
}
