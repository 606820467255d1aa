//! What the rule of a ring means, in each state that keeps it. There is no code here: each function's contract is a law.
ghost use Rattle.std.specs.Prelude.{◌≡◌, true, ℕ, List, None, ◌++◌};
ghost use mathlib.Core.Option.{some};
ghost use lib.ListN.{get_elem?};
ghost use Rattle.nc_alert.specs.Packet.{grant_of};
ghost use Rattle.nc_alert.specs.declared.packet.Packet.{Packet as PacketAt};
ghost use Rattle.nc_ring.specs.Packets.{IsAfter};
ghost use Rattle.nc_ring.specs.Ring.{IsInOrder};
ghost use Rattle.nc_ring.specs.declared.view.Log.{Log as LogAt};

/// What was taken, and behind it what the ring holds, is what was pushed.
pub fn taken_is_prefix<H>()
    ensures { (items : List (PacketAt H)) (views : List (LogAt H)) (i j : ℕ) (tx rx : LogAt H) → IsInOrder items views
        → get_elem? views i ≡ some tx → tx.pushes ≡ true → get_elem? views j ≡ some rx → rx.takes ≡ true → tx.sent ≡ rx.got ++ items }
{}

/// A packet that carries no hold may be pushed behind any others.
pub fn plain_may_follow<H>()
    ensures { (sent : List (PacketAt H)) (packet : PacketAt H) → grant_of packet.alert ≡ None → IsAfter sent packet }
{}
