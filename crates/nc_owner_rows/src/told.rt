//! What the journal tells of an owner's alerts, and the holds that they carry.
use nc_alert::{Alert, Grant};
use nc_journal::AlertLine;
use nc_slots::PlainHold;
use nc_types::ChanName;

/// What an answer of a look tells, and the hold with its number.
fn look_answer(
    no: u64,
    q: u64,
    floor: u64,
    found: Option<Grant<PlainHold>>,
) -> (AlertLine, Option<(u64, PlainHold)>) {
    let Some(found) = found else {
        let line = AlertLine::LookAnswer {
            no,
            q,
            floor,
            found: None,
            g: None,
            slot: None,
        };
        return (line, None);
    };
    let line = AlertLine::LookAnswer {
        no,
        q,
        floor,
        found: Some(found.id),
        g: Some(found.g),
        slot: Some(u64::from(found.slot)),
    };
    (line, Some((found.g, found.hold)))
}

/// What a notice tells, and the hold with its number.
fn notice(c: ChanName, found: Grant<PlainHold>) -> (AlertLine, Option<(u64, PlainHold)>) {
    let line = AlertLine::Notice {
        c,
        id: found.id,
        g: found.g,
        slot: u64::from(found.slot),
    };
    (line, Some((found.g, found.hold)))
}

/// What an alert of an owner tells, and the hold that it carries with its number.
pub fn told(alert: Alert<PlainHold>) -> Option<(AlertLine, Option<(u64, PlainHold)>)> {
    match alert {
        Alert::PubAnswer {
            r,
            status,
            info,
            full,
        } => {
            let status = u64::from(status);
            let line = AlertLine::PubAnswer {
                r,
                status,
                info,
                full,
            };
            Some((line, None))
        }
        Alert::LookAnswer {
            no,
            q,
            floor,
            found,
        } => Some(look_answer(no, q, floor, found)),
        Alert::EdgeAnswer { no, q, floor, last } => {
            Some((AlertLine::EdgeAnswer { no, q, floor, last }, None))
        }
        Alert::Notice { c, found } => Some(notice(c, found)),
        Alert::InfoAnswer { r, status, info } => {
            let status = u64::from(status);
            Some((AlertLine::InfoAnswer { r, status, info }, None))
        }
        Alert::DelAnswer { r, status, info } => {
            let status = u64::from(status);
            Some((AlertLine::DelAnswer { r, status, info }, None))
        }
        Alert::Gone { c, subs } => Some((AlertLine::Gone { c, subs }, None)),
        _ => None,
    }
}
