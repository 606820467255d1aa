//! The end of a ring that takes.
ghost use Rattle.std.specs.Prelude.{◌≡◌, IfSome, IfNone};
ghost use Rattle.nc_ring.specs.Packets.{Goes, IsAfter};
ghost use Rattle.nc_ring.specs.Ends.{took, found_none};

use crate::rule::{Line, Take};
use crate::view::{Log, Route};
use crossbeam_queue::Pass;
use nc_alert::Packet;
use std::alloc::Global;
use std::marker::Model;
use std::sync::{Arc, Wait};

/// The end of a ring that takes. Contracts see its way, the packets that it took, the first one first,
/// and the number of its answers `None`, which stays at the last number of 64 bits.
#[derive(Drop)]
pub struct RingRx<H> {
    pub(crate) line: Arc<Line<H>, Global>,
    pub(crate) pass: Pass<Packet<H>, Log<H>>,
    pub(crate) route: Route,
    pub(crate) nones: u64,
}

impl<H> Model for RingRx<H> {
    ghost use Rattle.std.specs.Prelude.{◌≡◌};
    ghost use Rattle.std.specs.Arc.{arc_value};
    ghost use Rattle.crossbeam_queue.specs.Passes.{view as known};
    ghost use Rattle.nc_ring.specs.Ends.{RxAt, IsRx};

    ghost Value = { RxAt H };

    ghost view = { λ rx. record { route = rx.route; got = (known rx.pass).got; nones = rx.nones } };

    ghost invariant = { λ rx. IsRx (arc_value rx.line) rx.pass rx.route };
}

impl<H: Drop> RingRx<H> {
    /// The way of the ring's packets.
    pub fn route(&self) -> Route
        ensures { result ≡ self.now.route }
    {
        self.route
    }

    /// How often a take was answered `None`.
    pub fn nones(&self) -> u64
        ensures { result ≡ self.now.nones }
    {
        self.nones
    }

    /// Takes the next packet that was pushed. `None` comes only where the ring was empty at a moment of the call.
    ///
    /// What `push` asked of the packet holds of it. It takes no memory. It tries again where another thread is in its way.
    pub fn take<R: Wait>(&mut self, rt: &R) -> Option<Packet<H>>
        ensures took { IfSome result (λ packet. self.new ≡ took self.old packet) }
        ensures goes { IfSome result (λ packet. Goes self.old.route packet) }
        ensures rises { IfSome result (λ packet. IsAfter self.old.got packet) }
        ensures counted { IfNone result (self.new ≡ found_none self.old) }
    {
        match self.line.pop_as::<Take, R>(rt, &mut self.pass) {
            Some(packet) => Some(packet),
            None => {
                self.nones = self.nones.saturating_add(1);
                None
            }
        }
    }
}
