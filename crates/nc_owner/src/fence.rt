//! Fences: what an owner stores behind one isn't before its time.
ghost use Rattle.std.specs.Prelude.{◌≡◌, ◌++◌, OnOk};
ghost use Rattle.nc_owner.specs.Fence.{with_floor, raise_events};

use crate::owner::Owner;
use nc_journal::Event;
use nc_types::{List, NoMemory};

impl Owner {
    /// The floor is at least a fence from then on, in seconds: no message that is stored later has an earlier time.
    pub fn raise(&mut self, fence: u64)
        ensures { self.new ≡ with_floor fence self.old }
    {
        self.desk.floor = self.desk.floor.max(fence);
    }

    /// The floor is raised, and that is told where it rises.
    pub(crate) fn raise_told(
        &mut self,
        fence: u64,
        events: &mut List<Event>,
    ) -> Result<(), NoMemory>
        ensures events { OnOk result (events.new ≡ events.old ++ raise_events fence self.old) }
        ensures owner { OnOk result (self.new ≡ with_floor fence self.old) }
    {
        if self.desk.floor < fence {
            events.push(Event::Raised {
                w: u64::from(self.desk.me),
                t: fence,
            })?;
        }
        self.raise(fence);
        Ok(())
    }
}
