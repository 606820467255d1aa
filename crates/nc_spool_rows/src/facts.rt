//! What facts are printed as.
use nc_spool::{Ask, Asking, Fact, Sending};
use nc_types::tags::{put_cursor, put_id};
use nc_types::text::put_decimal;
use nc_types::{ChanName, NoMemory};

fn put(out: &mut Vec<u8>, text: &[u8]) -> Result<(), NoMemory> {
    out.extend_from_slice(text)?;
    Ok(())
}

fn put_number(out: &mut Vec<u8>, word: &[u8], number: u64) -> Result<(), NoMemory> {
    put(out, word)?;
    put_decimal(out, number)
}

fn put_name(out: &mut Vec<u8>, name: &ChanName) -> Result<(), NoMemory> {
    put(out, b" ")?;
    put(out, name.bytes.as_slice())
}

/// A grant, as the number of its owner and its own.
pub(crate) fn put_grant(out: &mut Vec<u8>, word: &[u8], owner: u8, g: u64) -> Result<(), NoMemory> {
    put_number(out, word, u64::from(owner))?;
    put_number(out, b".", g)
}

fn put_ask(out: &mut Vec<u8>, ask: &Ask) -> Result<(), NoMemory> {
    match ask {
        Ask::Look {
            no,
            c,
            after,
            fence,
        } => {
            put_number(out, b"look ", *no)?;
            put_name(out, c)?;
            put(out, b" ")?;
            put_id(out, after)?;
            put_number(out, b" fence ", *fence)
        }
        Ask::Edge { no, k, c, fence } => {
            put_number(out, b"edge ", *no)?;
            put_number(out, b" of ", *k)?;
            put_name(out, c)?;
            put_number(out, b" fence ", *fence)
        }
        Ask::Join { c, k } => {
            put_number(out, b"join ", *k)?;
            put_name(out, c)
        }
        Ask::Part { c, k } => {
            put_number(out, b"part ", *k)?;
            put_name(out, c)
        }
    }
}

fn put_asking(out: &mut Vec<u8>, asking: &Asking) -> Result<(), NoMemory> {
    put_ask(out, &asking.ask)?;
    put_number(out, b" to ", u64::from(asking.to))
}

fn put_sending(out: &mut Vec<u8>, sending: &Sending) -> Result<(), NoMemory> {
    put_number(out, b"sent ", sending.k)?;
    put_number(out, b" place ", sending.place as u64)?;
    put_name(out, &sending.chan)?;
    put(out, b" ")?;
    put_id(out, &sending.id)?;
    put(out, b" now ")?;
    put_cursor(out, &sending.cursor, None)?;
    put(out, b" looks")?;
    for look in sending.looks.as_slice() {
        put_number(out, b" ", *look)?;
    }
    put_grant(out, b" hold ", sending.owner, sending.g)
}

fn put_ended(out: &mut Vec<u8>, k: u64, deleted: bool) -> Result<(), NoMemory> {
    put_number(out, b"ended ", k)?;
    if deleted {
        put(out, b" deleted")?;
    }
    Ok(())
}

/// One fact.
pub(crate) fn put_fact(out: &mut Vec<u8>, fact: &Fact) -> Result<(), NoMemory> {
    match fact {
        Fact::Out(asking) => put_asking(out, asking),
        Fact::Started { k, cursor } => {
            put_number(out, b"started ", *k)?;
            put(out, b" ")?;
            put_cursor(out, cursor, None)
        }
        Fact::Sent(sending) => put_sending(out, sending),
        Fact::Ended { k, deleted } => put_ended(out, *k, *deleted),
    }
}
