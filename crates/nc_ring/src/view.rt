//! What the ends of a ring know.
use nc_alert::Packet;
use std::collections::LinkedList;

/// The way of a ring's packets: from one worker to another or to itself, of so many workers.
#[derive(Clone, Copy, Debug, PartialEq, Eq)]
pub struct Route {
    pub workers: u8,
    pub from: u8,
    pub to: u8,
}

/// What a pass of a ring's queue may do, and what it pushed and took so far. No value of it is made.
pub struct Log<H> {
    pub pushes: bool,
    pub takes: bool,
    pub route: Route,
    pub sent: LinkedList<Packet<H>>,
    pub got: LinkedList<Packet<H>>,
}
