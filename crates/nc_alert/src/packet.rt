//! Alerts on their way.
ghost use Rattle.std.specs.Prelude.{◌≡◌};
ghost use Rattle.nc_alert.specs.Packet.{packet_of};

use crate::alert::Alert;

/// An alert for worker `to` that has no number yet.
#[derive(Drop)]
pub struct Outgoing<H> {
    pub to: u8,
    pub alert: Alert<H>,
}

/// An alert from one worker to another, with the sender's number of it, which counts the packets to that receiver.
#[derive(Drop)]
pub struct Packet<H> {
    pub from: u8,
    pub to: u8,
    pub number: u64,
    pub alert: Alert<H>,
}

impl<H: Drop> Outgoing<H> {
    /// The packet that worker `from` makes of the alert, under the number that it drew.
    pub fn into_packet(self, from: u8, number: u64) -> Packet<H>
        ensures { result ≡ packet_of from number self }
    {
        Packet {
            from,
            to: self.to,
            number,
            alert: self.alert,
        }
    }
}
