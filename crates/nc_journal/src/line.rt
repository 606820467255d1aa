//! The line of an event.
ghost use Rattle.std.specs.Prelude.{◌≡◌, ◌++◌, ◌∷◌, [], IfOk, OnOk, OnErr};
ghost use Rattle.nc_journal.specs.EventLine.{line};
ghost use Rattle.nc_journal.specs.Text.{ended_line, lines_text, HasFirstLines};

use crate::connection_lines::{
    answered_line, asked_line, got_line, opened_line, replied_line, shut_line, wrote_line,
};
use crate::event::Event;
use crate::owner_lines::{
    edged_line, freed_line, granted_line, joined_line, left_line, looked_line, parted_line,
    raised_line, removed_line, stored_line,
};
use crate::subscriber_lines::{ended_line, sent_line, started_line, subscribed_line};
use crate::worker_lines::{
    clock_line, made_line, pending_line, quiet_line, released_line, took_line,
};
use nc_journal_field::put;
use nc_types::{Bytes, List, NoMemory};
use std::alloc::Global;

fn line_text(alloc: Global, event: &Event) -> Result<Vec<u8>, NoMemory>
    ensures { IfOk result (λ text. text.items ≡ line event.now) }
{
    match event {
        Event::Clock { w, t } => clock_line(alloc, *w, *t),
        Event::Opened { w, conn } => opened_line(alloc, *w, *conn),
        Event::Got { w, conn, bytes } => got_line(alloc, *w, *conn, bytes),
        Event::Asked {
            w,
            r,
            conn,
            act,
            list,
            status,
            rule,
        } => asked_line(alloc, *w, *r, conn, *act, list, *status, *rule),
        Event::Answered {
            w,
            r,
            conn,
            status,
            info,
            json,
            close,
        } => answered_line(alloc, *w, *r, conn, *status, info, *json, *close),
        Event::Subscribed {
            w,
            k,
            conn,
            list,
            mode,
            start,
            timeout,
            close,
        } => subscribed_line(alloc, *w, *k, conn, list, *mode, start, *timeout, *close),
        Event::Started { w, k, cur } => started_line(alloc, *w, *k, cur),
        Event::Joined { w, c, from, k } => joined_line(alloc, *w, c, *from, *k),
        Event::Parted { w, c, from, k } => parted_line(alloc, *w, c, *from, *k),
        Event::Raised { w, t } => raised_line(alloc, *w, *t),
        Event::Stored {
            w,
            c,
            id,
            slot,
            len,
            exp,
            kept,
            members,
            from,
            r,
            ct,
            body,
        } => stored_line(
            alloc, *w, c, id, *slot, *len, *exp, *kept, *members, *from, *r, ct, body,
        ),
        Event::Left {
            w,
            c,
            id,
            slot,
            cause,
        } => left_line(alloc, *w, c, id, *slot, *cause),
        Event::Looked {
            w,
            q,
            from,
            no,
            c,
            after,
            floor,
            found,
        } => looked_line(alloc, *w, *q, *from, *no, c, after, *floor, found),
        Event::Edged {
            w,
            q,
            from,
            no,
            k,
            c,
            floor,
            last,
        } => edged_line(alloc, *w, *q, *from, *no, *k, c, *floor, last),
        Event::Granted { w, g, slot, to } => granted_line(alloc, *w, *g, *slot, *to),
        Event::Released { w, owner, g, slot } => released_line(alloc, *w, *owner, *g, *slot),
        Event::Freed { w, slot } => freed_line(alloc, *w, *slot),
        Event::Removed { w, c, last, cause } => removed_line(alloc, *w, c, last, *cause),
        Event::Sent {
            w,
            k,
            i,
            c,
            id,
            cur,
            looks,
        } => sent_line(alloc, *w, *k, *i, c, id, cur, looks),
        Event::Ended { w, k, cause } => ended_line(alloc, *w, *k, *cause),
        Event::Replied { w, conn, bytes } => replied_line(alloc, *w, *conn, bytes),
        Event::Wrote { w, conn, bytes } => wrote_line(alloc, *w, *conn, bytes),
        Event::Shut { w, conn, cause } => shut_line(alloc, *w, *conn, *cause),
        Event::Made { w, to, n, a } => made_line(alloc, *w, *to, *n, a),
        Event::Took { w, from, n, a } => took_line(alloc, *w, *from, *n, *a),
        Event::Pending { n } => pending_line(alloc, *n),
        Event::Quiet => quiet_line(alloc),
    }
}

/// The line of an event, without its end. An Err is want of memory.
pub fn line_of(alloc: Global, event: &Event) -> Result<Bytes, NoMemory>
    ensures { IfOk result (λ text. text ≡ line event.now) }
{
    Ok(List::of(line_text(alloc, event)?))
}

/// Puts the line of an event and its LF behind a text, or nothing.
fn put_ended_line(alloc: Global, out: &mut Vec<u8>, event: &Event) -> Result<(), NoMemory>
    ensures put { OnOk result (out.new.items ≡ out.old.items ++ ended_line event.now) }
    ensures unchanged { OnErr result (out.new.items ≡ out.old.items) }
{
    let mut text = line_text(alloc, event)?;
    text.push(b'\n')?;
    put(out, &text)
}

/// Puts the lines of some events behind a text, each ended by LF, in the order of the events.
///
/// Without memory the text has the lines of some first of them, each whole.
pub fn put_lines(alloc: Global, out: &mut Vec<u8>, events: &[Event]) -> Result<(), NoMemory>
    ensures put { OnOk result (out.new.items ≡ out.old.items ++ lines_text events.now) }
    ensures cut { OnErr result (HasFirstLines events.now out.old.items out.new.items) }
{
    for event in events {
        put_ended_line(alloc, out, event)?;
    }
    Ok(())
}
