//! The end of a ring that pushes.
ghost use Rattle.std.specs.Prelude.{◌≡◌, ◌≤◌, IfErr, OnOk, OnErr, length};
ghost use Rattle.nc_ring.specs.Packets.{Goes, IsAfter};
ghost use Rattle.nc_ring.specs.Ends.{pushed, found_full};

use crate::rule::{Line, Push};
use crate::view::{Log, Route};
use crossbeam_queue::Pass;
use nc_alert::Packet;
use std::alloc::Global;
use std::marker::Model;
use std::sync::{Arc, Wait};

/// The ring held as many packets as it has room for. The packet comes back.
#[derive(Drop)]
pub struct Full<H> {
    pub packet: Packet<H>,
}

/// The end of a ring that pushes. Contracts see its way, the packets that it pushed, the first one first,
/// and the number of its answers `Full`, which stays at the last number of 64 bits.
#[derive(Drop)]
pub struct RingTx<H> {
    pub(crate) line: Arc<Line<H>, Global>,
    pub(crate) pass: Pass<Packet<H>, Log<H>>,
    pub(crate) route: Route,
    pub(crate) full: u64,
}

impl<H> Model for RingTx<H> {
    ghost use Rattle.std.specs.Prelude.{◌≡◌};
    ghost use Rattle.std.specs.Arc.{arc_value};
    ghost use Rattle.crossbeam_queue.specs.Passes.{view as known};
    ghost use Rattle.nc_ring.specs.Ends.{TxAt, IsTx};

    ghost Value = { TxAt H };

    ghost view = { λ tx. record { route = tx.route; sent = (known tx.pass).sent; full = tx.full } };

    ghost invariant = { λ tx. IsTx (arc_value tx.line) tx.pass tx.route };
}

impl<H: Drop> RingTx<H> {
    /// The way of the ring's packets.
    pub fn route(&self) -> Route
        ensures { result ≡ self.now.route }
    {
        self.route
    }

    /// How often a push was answered `Full`.
    pub fn full(&self) -> u64
        ensures { result ≡ self.now.full }
    {
        self.full
    }

    /// Puts a packet behind those that were pushed. `Full` comes only where the ring held 256 packets at a moment of the call.
    ///
    /// It takes no memory. It tries again where another thread is in its way.
    pub fn push<R: Wait>(&mut self, rt: &R, packet: Packet<H>) -> Result<(), Full<H>>
        requires goes { Goes self.old.route packet }
        requires rises { IsAfter self.old.sent packet }
        ensures pushed { OnOk result (self.new ≡ pushed self.old packet) }
        ensures back { IfErr result (λ full. full.packet ≡ packet) }
        ensures full { OnErr result (256 ≤ length self.old.sent) }
        ensures counted { OnErr result (self.new ≡ found_full self.old) }
    {
        match self.line.push_as::<Push, R>(rt, &mut self.pass, packet) {
            Ok(()) => Ok(()),
            Err(packet) => {
                self.full = self.full.saturating_add(1);
                Err(Full { packet })
            }
        }
    }
}
