//! The channels of an owner: a step takes one out, works on it, and puts it back.
ghost use Rattle.std.specs.Prelude.{◌≡◌, ◌++◌, OnOk, IfOk, None, Some, if◌then◌else◌, is_some, unwrap_or, true};
ghost use Rattle.std.specs.Map.{lookup};
ghost use Rattle.nc_owner.specs.State.{bench_from, is_name, new_channel, others, put_back, exists};
ghost use Rattle.nc_owner.specs.OtherSteps.{touched_of, touch_events_of};
ghost use Rattle.nc_owner.specs.Pool.{SameOthers};
ghost use Rattle.nc_owner.specs.Rules.{IsFresh, NoneExpired};

use crate::channel::Channel;
use crate::desk::Desk;
use crate::leave::touch;
use crate::owner::Owner;
use nc_journal::Event;
use nc_slots::Slots;
use nc_types::{ChanName, List, NoMemory};
use std::alloc::Global;
use std::collections::BTreeMap;

/// Takes a channel out, or makes it, and tells whether it was there.
pub(crate) fn take_out(
    alloc: Global,
    channels: &mut BTreeMap<ChanName, Channel>,
    desk: &Desk,
    name: &ChanName,
) -> (Channel, bool)
    ensures channel { result.0 ≡ unwrap_or (lookup (is_name name.now) channels.old.entries) (new_channel desk.now) }
    ensures existed { result.1 ≡ is_some (lookup (is_name name.now) channels.old.entries) }
    ensures others { channels.new.entries ≡ others name.now channels.old.entries }
    ensures gone { lookup (is_name name.now) channels.new.entries ≡ None }
{
    match channels.remove(name) {
        Some(channel) => (channel, true),
        None => (Channel::new(alloc, desk.spent), false),
    }
}

/// Puts a channel back that was taken out, if it stays.
pub(crate) fn put_back(
    channels: &mut BTreeMap<ChanName, Channel>,
    name: ChanName,
    channel: Channel,
    stays: bool,
) -> Result<(), NoMemory>
    ensures back { OnOk result (channels.new.entries ≡ put_back name stays channel channels.old.entries) }
    ensures found { OnOk result (lookup (is_name name) channels.new.entries ≡ (if stays then Some channel else lookup (is_name name) channels.old.entries)) }
{
    if stays {
        channels.insert(name, channel)?;
    }
    Ok(())
}

impl Owner {
    /// Takes a channel out, or makes it, touches it, and tells whether it was there.
    pub(crate) fn open<P: Slots>(
        &mut self,
        pool: &mut P,
        name: &ChanName,
        events: &mut List<Event>,
    ) -> Result<(Channel, bool), NoMemory>
        ensures events { OnOk result (events.new ≡ events.old ++ touch_events_of name.now (P.slots pool.old self.old.desk.me) self.old) }
        ensures bench { IfOk result (λ opened. bench_from self.new.desk (P.slots pool.new self.old.desk.me) opened.0
            ≡ touched_of name.now (P.slots pool.old self.old.desk.me) self.old) }
        ensures existed { IfOk result (λ opened. opened.1 ≡ exists name.now self.old) }
        ensures channels { OnOk result (self.new.channels ≡ others name.now self.old.channels) }
        ensures gone { OnOk result (lookup (is_name name.now) self.new.channels ≡ None) }
        ensures fresh { IfOk result (λ opened. NoneExpired self.new.desk.clock opened.0.backlog.entries) }
        ensures others { OnOk result (SameOthers self.old.desk.me (P.slots pool.old) (P.slots pool.new)) }
        ensures holds { OnOk result (P.exact ≡ true → P.holds pool.new ≡ P.holds pool.old) }
    {
        let (mut channel, existed) = take_out(self.alloc, &mut self.channels, &self.desk, name);
        touch(self.alloc, &mut self.desk, pool, name, &mut channel, events)?;
        Ok((channel, existed))
    }

    /// Puts a channel back that was taken out, if it stays.
    pub(crate) fn close(
        &mut self,
        name: ChanName,
        channel: Channel,
        stays: bool,
    ) -> Result<(), NoMemory>
        ensures desk { OnOk result (self.new.desk ≡ self.old.desk) }
        ensures channels { OnOk result (self.new.channels ≡ put_back name stays channel self.old.channels) }
        ensures fresh { OnOk result (lookup (is_name name) self.old.channels ≡ None
            → NoneExpired self.old.desk.clock channel.backlog.entries → IsFresh name self.new) }
    {
        put_back(&mut self.channels, name, channel, stays)?;
        Ok(())
    }
}
