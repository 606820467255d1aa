//! Cursors: how far a subscriber has come in each channel of its list.
ghost use Rattle.std.specs.Prelude.{◌≡◌, ◌<◌, length, slice_set, IfOk};
ghost use Rattle.nc_types.specs.Cursor.{blank_tags, tags_at};

use crate::id::MsgId;
use crate::list::{List, NoMemory};
use std::marker::Model;

/// A time, and a tag for each channel of a list, in the list's order.
///
/// The time is at most [`GREATEST_TIME`](crate::GREATEST_TIME), each tag is -1 to 65,535, and there is at least one.
#[derive(Drop)]
pub struct Cursor {
    pub time: u64,
    pub tags: List<i32>,
}

impl Model for Cursor {
    ghost use Rattle.std.specs.Prelude.{◌<◌, length};
    ghost use Rattle.nc_types.specs.Id.{IsTime};
    ghost use Rattle.nc_types.specs.Cursor.{CursorAt, AreTags};

    ghost Value = { CursorAt };

    ghost view = { λ c. record { time = c.time; tags = c.tags } };

    ghost invariant = { λ c. IsTime c.time × (0 < length c.tags) × AreTags c.tags };
}

/// As many tags that stand for no message.
fn blank_tags(tags: &List<i32>) -> Result<List<i32>, NoMemory>
    ensures { IfOk result (λ blank. blank ≡ blank_tags tags.now) }
{
    let blank = vec![in tags.allocator(); -1i32; tags.len()]?;
    Ok(List::of(blank))
}

/// The same tags where the times are one, else as many that stand for no message.
fn tags_at(tags: &List<i32>, time: u64, later: u64) -> Result<List<i32>, NoMemory>
    ensures { IfOk result (λ kept. kept ≡ tags_at tags.now time later) }
{
    if later == time {
        tags.copied()
    } else {
        blank_tags(tags)
    }
}

/// The tags with that of an id at place `j`.
fn with_tag(tags: List<i32>, j: usize, id: MsgId) -> List<i32>
    requires { j < length tags }
    ensures { result ≡ slice_set tags j id.tag }
{
    let mut tags = tags.into_vec();
    tags[j] = id.tag;
    List::of(tags)
}

impl Cursor {
    ghost use Rattle.nc_types.specs.Cursor.{cursor_id, moved};

    /// The id that the cursor has at place `j`, counted from 0.
    pub fn at(&self, j: usize) -> MsgId
        requires { j < length self.now.tags }
        ensures { result ≡ cursor_id self.now j }
    {
        MsgId {
            time: self.time,
            tag: self.tags.as_slice()[j],
        }
    }

    /// The cursor once the message `id` of place `j` was sent.
    pub fn moved(&self, j: usize, id: MsgId) -> Result<Cursor, NoMemory>
        requires { j < length self.now.tags }
        ensures { IfOk result (λ cursor. cursor ≡ moved self.now j id) }
    {
        let tags = tags_at(&self.tags, self.time, id.time)?;
        Ok(Cursor {
            time: id.time,
            tags: with_tag(tags, j, id),
        })
    }
}
