//! The step that makes a packet.
use crate::book::Book;
use crate::words::Words;
use nc_alert::{Alert, Outgoing, Packet};
use nc_types::NoMemory;

/// Prints who sent a packet to whom and under which number, and what of an edge's answer it carries.
fn print(book: &mut Book, packet: &Packet<u8>) -> Result<(), NoMemory> {
    book.print_number(b"from ", u64::from(packet.from))?;
    book.print_number(b"to ", u64::from(packet.to))?;
    book.print_number(b"number ", packet.number)?;
    match &packet.alert {
        Alert::EdgeAnswer { no, q, floor, .. } => {
            book.print_number(b"no ", *no)?;
            book.print_number(b"q ", *q)?;
            book.print_number(b"floor ", *floor)
        }
        _ => book.print(b"another alert"),
    }
}

/// `packet FROM NUMBER TO NO Q FLOOR LAST`: a packet that carries an edge's answer.
pub fn packet(book: &mut Book, mut words: Words<'_>) -> Result<(), NoMemory> {
    let from = words.byte();
    let number = words.long();
    let outgoing: Outgoing<u8> = Outgoing {
        to: words.byte(),
        alert: Alert::EdgeAnswer {
            no: words.long(),
            q: words.long(),
            floor: words.long(),
            last: words.id(),
        },
    };
    print(book, &outgoing.into_packet(from, number))
}
