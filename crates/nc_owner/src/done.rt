//! What a step did.
use nc_alert::Outgoing;
use nc_journal::EventList;
use nc_types::List;

/// The events of a step and the alerts that it made, each in their order.
///
/// An alert that carries a hold belongs to the `granted` event of the same place among those; answers come last.
#[derive(Drop)]
pub struct Done<H> {
    pub events: EventList,
    pub alerts: List<Outgoing<H>>,
}
