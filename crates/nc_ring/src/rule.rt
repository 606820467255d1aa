//! The rule of a ring's queue, and what its steps tell.
ghost use Rattle.std.specs.Prelude.{◌≡◌, ◌≤◌, length};
ghost use Rattle.nc_ring.specs.Packets.{Goes, IsAfter};
ghost use Rattle.nc_ring.specs.Ring.{IsInOrder, both_ends, pushing_end, taking_end, with_sent, with_got};
ghost use Rattle.nc_ring.specs.declared.view.Route.{Route as RouteAt};

use crate::view::Log;
use crossbeam_queue::RuledArrayQueue;
use crossbeam_queue::protocol::{Lesson, Outcome, Protocol, Split};
use nc_alert::Packet;
use std::marker::{Brand, PhantomData};

/// How many packets a ring has room for.
pub(crate) const ROOM: usize = 256;

/// What is taken is what was pushed, in order.
pub struct InOrder;

impl<H> Protocol<Packet<H>, Log<H>> for InOrder {
    ghost holds = { IsInOrder };

    ghost first = { both_ends };
}

pub(crate) type Line<H> = RuledArrayQueue<Packet<H>, Log<H>, InOrder>;

/// The way that a ring is given as its ends are cut apart, picked at the call.
pub(crate) trait Ways {
    ghost route: { RouteAt };
}

impl Ways for Brand {
    ghost route = { record { workers = 0; from = 0; to = 0 } };
}

/// Cuts the pushing end from the taking one.
pub(crate) struct Ends<W: Ways> {
    way: PhantomData<W>,
}

impl<H, W: Ways> Split<Log<H>> for Ends<W> {
    ghost left = { pushing_end W.route };

    ghost right = { taking_end W.route };
}

/// A push: the packet is the last that was pushed. It finds the ring full only where it was pushed full.
pub(crate) struct Push;

impl<H> Outcome<Packet<H>, Log<H>> for Push {
    ghost then = { λ before packet after. after ≡ with_sent before packet };
}

impl<H> Lesson<Packet<H>, Log<H>> for Push {
    ghost fact = { λ known items. length items ≤ length known.sent };
}

/// A take: the packet is the next that was pushed, and as it was asked of it.
pub(crate) struct Take;

impl<H> Outcome<Packet<H>, Log<H>> for Take {
    ghost then = { λ before packet after. (after ≡ with_got before packet) × Goes before.route packet × IsAfter before.got packet };
}

impl<H> Lesson<Packet<H>, Log<H>> for Take {
    ghost fact = { λ known items. Unit {0} };
}
