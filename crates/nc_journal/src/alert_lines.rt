//! The alert of a `made` line: its kind and its fields.
ghost use Rattle.std.specs.Prelude.{◌≡◌, IfOk};
ghost use Rattle.nc_journal.specs.EventLine.{alert_text};

use crate::alert::AlertLine;
use nc_journal_field::{
    put_bytes, put_id, put_name, put_number, put_optional_bytes, put_optional_full,
    put_optional_id, put_optional_info, put_optional_number, put_subs, room,
};
use nc_types::{Bytes, ChanName, FullLine, Info, List, MsgId, NoMemory};
use std::alloc::Global;

fn publish_text(
    alloc: Global,
    r: u64,
    c: &ChanName,
    len: u64,
    timeout: u64,
    ct: &Option<Bytes>,
    body: &Bytes,
) -> Result<Vec<u8>, NoMemory>
    ensures { IfOk result (λ text. text.items ≡ alert_text (AlertLine.Publish r c.now len timeout ct.now body.now)) }
{
    let mut out = room(alloc)?;
    put_number(&mut out, b"publish r=", r)?;
    put_name(&mut out, b" c=", c)?;
    put_number(&mut out, b" len=", len)?;
    put_number(&mut out, b" timeout=", timeout)?;
    put_optional_bytes(&mut out, b" ct=", ct)?;
    put_bytes(&mut out, b" body=", body)?;
    Ok(out)
}

fn publish_answer_text(
    alloc: Global,
    r: u64,
    status: u64,
    info: &Option<Info>,
    full: &Option<FullLine>,
) -> Result<Vec<u8>, NoMemory>
    ensures { IfOk result (λ text. text.items ≡ alert_text (AlertLine.PubAnswer r status info.now full.now)) }
{
    let mut out = room(alloc)?;
    put_number(&mut out, b"pubanswer r=", r)?;
    put_number(&mut out, b" status=", status)?;
    put_optional_info(&mut out, b" info=", info)?;
    put_optional_full(&mut out, b" full=", full)?;
    Ok(out)
}

fn look_text(
    alloc: Global,
    no: u64,
    c: &ChanName,
    after: &MsgId,
    fence: u64,
) -> Result<Vec<u8>, NoMemory>
    ensures { IfOk result (λ text. text.items ≡ alert_text (AlertLine.Look no c.now after.now fence)) }
{
    let mut out = room(alloc)?;
    put_number(&mut out, b"look no=", no)?;
    put_name(&mut out, b" c=", c)?;
    put_id(&mut out, b" after=", after)?;
    put_number(&mut out, b" fence=", fence)?;
    Ok(out)
}

fn look_answer_text(
    alloc: Global,
    no: u64,
    q: u64,
    floor: u64,
    found: &Option<MsgId>,
    g: &Option<u64>,
    slot: &Option<u64>,
) -> Result<Vec<u8>, NoMemory>
    ensures { IfOk result (λ text. text.items ≡ alert_text (AlertLine.LookAnswer no q floor found.now g.now slot.now)) }
{
    let mut out = room(alloc)?;
    put_number(&mut out, b"lookanswer no=", no)?;
    put_number(&mut out, b" q=", q)?;
    put_number(&mut out, b" floor=", floor)?;
    put_optional_id(&mut out, b" found=", found)?;
    put_optional_number(&mut out, b" g=", g)?;
    put_optional_number(&mut out, b" slot=", slot)?;
    Ok(out)
}

fn notice_text(
    alloc: Global,
    c: &ChanName,
    id: &MsgId,
    g: u64,
    slot: u64,
) -> Result<Vec<u8>, NoMemory>
    ensures { IfOk result (λ text. text.items ≡ alert_text (AlertLine.Notice c.now id.now g slot)) }
{
    let mut out = room(alloc)?;
    put_name(&mut out, b"notice c=", c)?;
    put_id(&mut out, b" id=", id)?;
    put_number(&mut out, b" g=", g)?;
    put_number(&mut out, b" slot=", slot)?;
    Ok(out)
}

fn edge_text(alloc: Global, no: u64, k: u64, c: &ChanName, fence: u64) -> Result<Vec<u8>, NoMemory>
    ensures { IfOk result (λ text. text.items ≡ alert_text (AlertLine.Edge no k c.now fence)) }
{
    let mut out = room(alloc)?;
    put_number(&mut out, b"edge no=", no)?;
    put_number(&mut out, b" k=", k)?;
    put_name(&mut out, b" c=", c)?;
    put_number(&mut out, b" fence=", fence)?;
    Ok(out)
}

fn edge_answer_text(
    alloc: Global,
    no: u64,
    q: u64,
    floor: u64,
    last: &MsgId,
) -> Result<Vec<u8>, NoMemory>
    ensures { IfOk result (λ text. text.items ≡ alert_text (AlertLine.EdgeAnswer no q floor last.now)) }
{
    let mut out = room(alloc)?;
    put_number(&mut out, b"edgeanswer no=", no)?;
    put_number(&mut out, b" q=", q)?;
    put_number(&mut out, b" floor=", floor)?;
    put_id(&mut out, b" last=", last)?;
    Ok(out)
}

fn join_text(alloc: Global, c: &ChanName, k: u64) -> Result<Vec<u8>, NoMemory>
    ensures { IfOk result (λ text. text.items ≡ alert_text (AlertLine.Join c.now k)) }
{
    let mut out = room(alloc)?;
    put_name(&mut out, b"join c=", c)?;
    put_number(&mut out, b" k=", k)?;
    Ok(out)
}

fn part_text(alloc: Global, c: &ChanName, k: u64) -> Result<Vec<u8>, NoMemory>
    ensures { IfOk result (λ text. text.items ≡ alert_text (AlertLine.Part c.now k)) }
{
    let mut out = room(alloc)?;
    put_name(&mut out, b"part c=", c)?;
    put_number(&mut out, b" k=", k)?;
    Ok(out)
}

fn delete_text(alloc: Global, r: u64, c: &ChanName) -> Result<Vec<u8>, NoMemory>
    ensures { IfOk result (λ text. text.items ≡ alert_text (AlertLine.Delete r c.now)) }
{
    let mut out = room(alloc)?;
    put_number(&mut out, b"delete r=", r)?;
    put_name(&mut out, b" c=", c)?;
    Ok(out)
}

fn delete_answer_text(
    alloc: Global,
    r: u64,
    status: u64,
    info: &Option<Info>,
) -> Result<Vec<u8>, NoMemory>
    ensures { IfOk result (λ text. text.items ≡ alert_text (AlertLine.DelAnswer r status info.now)) }
{
    let mut out = room(alloc)?;
    put_number(&mut out, b"delanswer r=", r)?;
    put_number(&mut out, b" status=", status)?;
    put_optional_info(&mut out, b" info=", info)?;
    Ok(out)
}

fn gone_text(alloc: Global, c: &ChanName, subs: &List<u64>) -> Result<Vec<u8>, NoMemory>
    ensures { IfOk result (λ text. text.items ≡ alert_text (AlertLine.Gone c.now subs.now)) }
{
    let mut out = room(alloc)?;
    put_name(&mut out, b"gone c=", c)?;
    put_subs(&mut out, b" subs=", subs)?;
    Ok(out)
}

fn info_text(alloc: Global, r: u64, c: &ChanName) -> Result<Vec<u8>, NoMemory>
    ensures { IfOk result (λ text. text.items ≡ alert_text (AlertLine.Info r c.now)) }
{
    let mut out = room(alloc)?;
    put_number(&mut out, b"info r=", r)?;
    put_name(&mut out, b" c=", c)?;
    Ok(out)
}

fn info_answer_text(
    alloc: Global,
    r: u64,
    status: u64,
    info: &Option<Info>,
) -> Result<Vec<u8>, NoMemory>
    ensures { IfOk result (λ text. text.items ≡ alert_text (AlertLine.InfoAnswer r status info.now)) }
{
    let mut out = room(alloc)?;
    put_number(&mut out, b"infoanswer r=", r)?;
    put_number(&mut out, b" status=", status)?;
    put_optional_info(&mut out, b" info=", info)?;
    Ok(out)
}

/// The kind of an alert and its fields.
pub(crate) fn alert_text(alloc: Global, alert: &AlertLine) -> Result<Vec<u8>, NoMemory>
    ensures { IfOk result (λ text. text.items ≡ alert_text alert.now) }
{
    match alert {
        AlertLine::Publish {
            r,
            c,
            len,
            timeout,
            ct,
            body,
        } => publish_text(alloc, *r, c, *len, *timeout, ct, body),
        AlertLine::PubAnswer {
            r,
            status,
            info,
            full,
        } => publish_answer_text(alloc, *r, *status, info, full),
        AlertLine::Look {
            no,
            c,
            after,
            fence,
        } => look_text(alloc, *no, c, after, *fence),
        AlertLine::LookAnswer {
            no,
            q,
            floor,
            found,
            g,
            slot,
        } => look_answer_text(alloc, *no, *q, *floor, found, g, slot),
        AlertLine::Notice { c, id, g, slot } => notice_text(alloc, c, id, *g, *slot),
        AlertLine::Edge { no, k, c, fence } => edge_text(alloc, *no, *k, c, *fence),
        AlertLine::EdgeAnswer { no, q, floor, last } => edge_answer_text(
            alloc, *no, *q, *floor, last,
        ),
        AlertLine::Join { c, k } => join_text(alloc, c, *k),
        AlertLine::Part { c, k } => part_text(alloc, c, *k),
        AlertLine::Delete { r, c } => delete_text(alloc, *r, c),
        AlertLine::DelAnswer { r, status, info } => delete_answer_text(alloc, *r, *status, info),
        AlertLine::Gone { c, subs } => gone_text(alloc, c, subs),
        AlertLine::Info { r, c } => info_text(alloc, *r, c),
        AlertLine::InfoAnswer { r, status, info } => info_answer_text(alloc, *r, *status, info),
    }
}
