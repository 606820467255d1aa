//! Lists of what reads gave.
ghost use Rattle.std.specs.Prelude.{◌≡◌, ◌++◌, OnOk, drop};
ghost use Rattle.nc_ws.specs.Items.{is_closed, ends_closed, reply_of};
ghost use Rattle.nc_ws.specs.Reads.{message_items};

use crate::framer::FrameIn;
use crate::told::Told;
use nc_types::{List, NoMemory};
use std::alloc::Global;

/// Puts what was written behind the first `shown` bytes behind a list, as a reply.
pub fn push_reply(
    alloc: Global,
    list: &mut Vec<FrameIn>,
    out: &Vec<u8>,
    shown: usize,
) -> Result<(), NoMemory>
    ensures { OnOk result (list.new.items ≡ list.old.items ++ reply_of (drop shown out.now.items)) }
{
    if shown < out.len() {
        let bytes = Vec::from_slice(alloc, &out.as_slice()[shown..])?;
        list.push(FrameIn::Reply(List::of(bytes)))?;
    }
    Ok(())
}

/// Puts a message behind a list where a read gave one.
pub fn push_message(list: &mut Vec<FrameIn>, told: Told) -> Result<(), NoMemory>
    ensures { OnOk result (list.new.items ≡ list.old.items ++ message_items told) }
{
    if let Told::Data = told {
        list.push(FrameIn::Message)?;
    }
    Ok(())
}

fn is_closed(item: &FrameIn) -> bool
    ensures { result ≡ is_closed item.now }
{
    match item {
        FrameIn::Message => false,
        FrameIn::Reply(_) => false,
        FrameIn::Closed => true,
    }
}

/// Whether the last item of a list is Closed.
pub fn ends_closed(list: &List<FrameIn>) -> bool
    ensures { result ≡ ends_closed list.now }
{
    match list.as_slice().last() {
        Some(item) => is_closed(item),
        None => false,
    }
}
