//! Deciding and sending: what a spool does once one of its places was answered.
ghost use Rattle.std.specs.Prelude.{◌≡◌, ◌<◌, length, map, fold, OnOk, IfOk};
ghost use Rattle.nc_spool_state.specs.Place.{look_number};
ghost use Rattle.nc_spool.specs.Decide.{fence_look, fenced, fence_looks, fenced_places, moved_key, fenced_spool, sent_one, sent, decided};

use crate::board::Board;
use crate::fact::{Fact, Sending};
use nc_spool_state::{Choice, Find, Place, Reader, Spool, SpoolKey, choose, copied_cursor};
use nc_types::{ChanName, List, MsgId, NoMemory};
use std::alloc::Global;

/// A message on its way to the subscribers of a spool: the key that it moves them to, its place in the list and its id,
/// the number of the look that each place rests on, and the grant of its owner that holds it.
#[derive(Drop)]
pub struct Delivery {
    pub key: SpoolKey,
    pub place: usize,
    pub chan: ChanName,
    pub id: MsgId,
    pub looks: List<u64>,
    pub owner: u8,
    pub g: u64,
}

/// The numbers of the looks that some places rest on.
fn look_numbers(alloc: Global, places: &[Place]) -> Result<List<u64>, NoMemory>
    ensures { IfOk result (λ numbers. numbers ≡ map look_number places.now) }
{
    let mut numbers = List::new(alloc);
    for place in places {
        numbers.push(place.look_number())?;
    }
    Ok(numbers)
}

/// A key moved by a message.
fn moved_key(key: SpoolKey, find: &Find) -> Result<SpoolKey, NoMemory>
    requires { find.now.place < length key.list }
    ensures { IfOk result (λ moved. moved ≡ moved_key find.now key) }
{
    let cursor = key.cursor.moved(find.place, find.id)?;
    Ok(SpoolKey {
        list: key.list,
        cursor,
    })
}

impl Board {
    /// Looks again at a place, behind a fence, where nothing was found and the floor is below its time.
    fn fence(
        &mut self,
        key: &SpoolKey,
        j: usize,
        place: Place,
        time: u64,
    ) -> Result<Place, NoMemory>
        requires { j < length key.now.list }
        ensures place { IfOk result (λ known. known ≡ fenced time self.old.next place) }
        ensures board { OnOk result (self.new ≡ fence_look time key.now j place self.old) }
    {
        match place {
            Place::Nothing(quiet) => {
                if quiet.floor < time {
                    let name = &key.list.names.as_slice()[j];
                    let no = self.look(name, key.at(j), time)?;
                    let earlier = Some(quiet);
                    Ok(Place::Asked { no, earlier })
                } else {
                    Ok(place)
                }
            }
            _ => Ok(place),
        }
    }

    /// Does so at each place.
    fn fence_all(&mut self, key: &SpoolKey, places: &mut [Place], time: u64) -> Result<(), NoMemory>
        requires { length places.old ≡ length key.now.list }
        ensures places { OnOk result (places.new ≡ fenced_places time key.now 0 places.old self.old) }
        ensures board { OnOk result (self.new ≡ fence_looks time key.now 0 places.old self.old) }
    {
        for (j, place) in places.iter_mut().enumerate() {
            let known = self.fence(key, j, *place, time)?;
            *place = known;
        }
        Ok(())
    }

    /// Looks again at each place of a spool where nothing was found and the floor is below a time.
    fn fence_spool(&mut self, spool: Spool, time: u64) -> Result<Spool, NoMemory>
        ensures spool { IfOk result (λ fenced. fenced ≡ fenced_spool time spool self.old) }
        ensures board { OnOk result (self.new ≡ fence_looks time spool.key 0 spool.places self.old) }
    {
        let Spool {
            key,
            mut places,
            readers,
        } = spool;
        self.fence_all(&key, &mut places, time)?;
        Ok(Spool {
            key,
            places,
            readers,
        })
    }

    /// Sends a message to a subscriber, who is ended or enters the spool of the moved cursor.
    fn send_one(&mut self, delivery: &Delivery, reader: Reader) -> Result<(), NoMemory>
        ensures { OnOk result (self.new ≡ sent_one delivery.now self.old reader) }
    {
        let cursor = copied_cursor(&delivery.key.cursor)?;
        let looks = delivery.looks.copied()?;
        let chan = delivery.chan.copied()?;
        self.tell(Fact::Sent(Sending {
            k: reader.k,
            place: delivery.place,
            chan,
            id: delivery.id,
            cursor,
            looks,
            owner: delivery.owner,
            g: delivery.g,
        }))?;
        if reader.once {
            self.end(reader.k, false, delivery.key.list.names.as_slice())?;
            Ok(())
        } else {
            self.enter(reader, &delivery.key)?;
            Ok(())
        }
    }

    /// Sends a message to each subscriber of a spool, which is gone.
    fn send(&mut self, spool: Spool, find: &Find) -> Result<(), NoMemory>
        requires { find.now.place < length spool.key.list }
        ensures { OnOk result (self.new ≡ sent find.now spool self.old) }
    {
        let Spool {
            key,
            places,
            readers,
        } = spool;
        let looks = look_numbers(self.shelf.alloc(), &places)?;
        let chan = key.list.names.as_slice()[find.place].copied()?;
        let delivery = Delivery {
            key: moved_key(key, find)?,
            place: find.place,
            chan,
            id: find.id,
            looks,
            owner: find.owner,
            g: find.g,
        };
        for reader in &readers {
            self.send_one(&delivery, *reader)?;
        }
        Ok(())
    }

    /// What a spool does that was taken from the shelf, once one of its places was answered.
    pub(crate) fn decide(&mut self, spool: Spool) -> Result<(), NoMemory>
        ensures { OnOk result (self.new ≡ decided spool self.old) }
    {
        match choose(&spool.places) {
            Choice::Wait => {
                self.shelve(spool)?;
                Ok(())
            }
            Choice::Fence(time) => {
                let spool = self.fence_spool(spool, time)?;
                self.shelve(spool)?;
                Ok(())
            }
            Choice::Send(find) => {
                self.send(spool, &find)?;
                Ok(())
            }
        }
    }
}
