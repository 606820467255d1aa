//! What the journal tells of an alert.
ghost use Rattle.std.specs.Prelude.{◌≡◌, IfOk};
ghost use Rattle.nc_journal.specs.declared.alert.AlertLine.TheVariants as lines;
ghost use Rattle.nc_owner.specs.AlertLines.{alert_line, answer_line};
ghost use Rattle.nc_history.specs.Packets.{kind_of as kind_of_line};

use nc_alert::{Alert, Grant};
use nc_journal::{AlertKind, AlertLine};
use nc_types::{Bytes, ChanName, List, NoMemory};

/// A text once more, if there is one.
fn copy_text(text: &Option<Bytes>) -> Result<Option<Bytes>, NoMemory>
    ensures { IfOk result (λ copy. copy ≡ text.now) }
{
    match text {
        Some(text) => Ok(Some(text.copied()?)),
        None => Ok(None),
    }
}

/// The line of a message for an owner.
fn publish_line(
    r: u64,
    c: &ChanName,
    len: u32,
    timeout: u64,
    ct: &Option<Bytes>,
    body: &Bytes,
) -> Result<AlertLine, NoMemory>
    ensures { IfOk result (λ line. line ≡ lines.Publish r c.now len timeout ct.now body.now) }
{
    Ok(AlertLine::Publish {
        r,
        c: c.copied()?,
        len: u64::from(len),
        timeout,
        ct: copy_text(ct)?,
        body: body.copied()?,
    })
}

/// The line of an answer to a look.
fn answer_line<H>(no: u64, q: u64, floor: u64, found: &Option<Grant<H>>) -> AlertLine
    ensures { result ≡ answer_line no q floor found.now }
{
    match found {
        Some(grant) => AlertLine::LookAnswer {
            no,
            q,
            floor,
            found: Some(grant.id),
            g: Some(grant.g),
            slot: Some(u64::from(grant.slot)),
        },
        None => AlertLine::LookAnswer {
            no,
            q,
            floor,
            found: None,
            g: None,
            slot: None,
        },
    }
}

/// The line of a notice.
fn notice_line<H>(c: &ChanName, found: &Grant<H>) -> Result<AlertLine, NoMemory>
    ensures { IfOk result (λ line. line ≡ lines.Notice c.now found.now.id found.now.g found.now.slot) }
{
    Ok(AlertLine::Notice {
        c: c.copied()?,
        id: found.id,
        g: found.g,
        slot: u64::from(found.slot),
    })
}

/// The line of the news that a channel was removed.
fn gone_line(c: &ChanName, subs: &List<u64>) -> Result<AlertLine, NoMemory>
    ensures { IfOk result (λ line. line ≡ lines.Gone c.now subs.now) }
{
    Ok(AlertLine::Gone {
        c: c.copied()?,
        subs: subs.copied()?,
    })
}

/// What the journal tells of an alert: all but its hold.
pub fn line_of<H>(alert: &Alert<H>) -> Result<AlertLine, NoMemory>
    ensures { IfOk result (λ line. line ≡ alert_line alert.now) }
{
    let line = match alert {
        Alert::Publish {
            r,
            c,
            len,
            timeout,
            ct,
            body,
        } => publish_line(*r, c, *len, *timeout, ct, body)?,
        Alert::PubAnswer {
            r,
            status,
            info,
            full,
        } => AlertLine::PubAnswer {
            r: *r,
            status: u64::from(*status),
            info: *info,
            full: *full,
        },
        Alert::Look {
            no,
            c,
            after,
            fence,
        } => AlertLine::Look {
            no: *no,
            c: c.copied()?,
            after: *after,
            fence: *fence,
        },
        Alert::LookAnswer {
            no,
            q,
            floor,
            found,
        } => answer_line(*no, *q, *floor, found),
        Alert::Notice { c, found } => notice_line(c, found)?,
        Alert::Edge { no, k, c, fence } => AlertLine::Edge {
            no: *no,
            k: *k,
            c: c.copied()?,
            fence: *fence,
        },
        Alert::EdgeAnswer { no, q, floor, last } => AlertLine::EdgeAnswer {
            no: *no,
            q: *q,
            floor: *floor,
            last: *last,
        },
        Alert::Join { c, k } => AlertLine::Join {
            c: c.copied()?,
            k: *k,
        },
        Alert::Part { c, k } => AlertLine::Part {
            c: c.copied()?,
            k: *k,
        },
        Alert::Delete { r, c } => AlertLine::Delete {
            r: *r,
            c: c.copied()?,
        },
        Alert::DelAnswer { r, status, info } => AlertLine::DelAnswer {
            r: *r,
            status: u64::from(*status),
            info: *info,
        },
        Alert::Gone { c, subs } => gone_line(c, subs)?,
        Alert::Info { r, c } => AlertLine::Info {
            r: *r,
            c: c.copied()?,
        },
        Alert::InfoAnswer { r, status, info } => AlertLine::InfoAnswer {
            r: *r,
            status: u64::from(*status),
            info: *info,
        },
    };
    Ok(line)
}

/// The kind of an alert.
pub fn kind_of<H>(alert: &Alert<H>) -> AlertKind
    ensures { result ≡ kind_of_line (alert_line alert.now) }
{
    match alert {
        Alert::Publish { .. } => AlertKind::Publish,
        Alert::PubAnswer { .. } => AlertKind::PubAnswer,
        Alert::Look { .. } => AlertKind::Look,
        Alert::LookAnswer { .. } => AlertKind::LookAnswer,
        Alert::Notice { .. } => AlertKind::Notice,
        Alert::Edge { .. } => AlertKind::Edge,
        Alert::EdgeAnswer { .. } => AlertKind::EdgeAnswer,
        Alert::Join { .. } => AlertKind::Join,
        Alert::Part { .. } => AlertKind::Part,
        Alert::Delete { .. } => AlertKind::Delete,
        Alert::DelAnswer { .. } => AlertKind::DelAnswer,
        Alert::Gone { .. } => AlertKind::Gone,
        Alert::Info { .. } => AlertKind::Info,
        Alert::InfoAnswer { .. } => AlertKind::InfoAnswer,
    }
}
