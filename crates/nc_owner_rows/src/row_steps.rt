//! Steps on a row of slots by itself.
use crate::book::Book;
use crate::words::Words;
use nc_slots::SlotRow;
use nc_types::NoMemory;

/// Prints whether something is so.
fn print_whether(book: &mut Book, is_so: bool) -> Result<(), NoMemory> {
    if is_so {
        book.print(b"yes")
    } else {
        book.print(b"no")
    }
}

/// Prints a number, if there is one.
fn print_some(book: &mut Book, number: Option<u64>) -> Result<(), NoMemory> {
    match number {
        Some(number) => book.print_number(b"", number),
        None => book.print(b"none"),
    }
}

/// `row put SLOT NUMBER`: puts a number into a slot that is there.
fn put(book: &mut Book, row: &mut SlotRow<u8>, mut words: Words<'_>) -> Result<(), NoMemory> {
    let slot = words.slot();
    if row.lowest_unused() != Some(slot) {
        return book.print(b"not the lowest unused slot");
    }
    row.put(slot, words.byte());
    Ok(())
}

/// What a row answers of a slot.
fn answer(
    book: &mut Book,
    row: &SlotRow<u8>,
    word: &str,
    mut words: Words<'_>,
) -> Result<(), NoMemory> {
    match word {
        "lowest" => print_some(book, row.lowest_unused().map(|slot| u64::from(slot))),
        "grantable" => print_some(
            book,
            row.grantable(words.slot()).map(|kept| u64::from(*kept)),
        ),
        "buffered" => print_whether(book, row.is_buffered(words.slot())),
        "unused" => print_whether(book, row.is_unused(words.slot())),
        _ => book.print(b"no such step"),
    }
}

/// A step on the row.
pub fn row_step(
    book: &mut Book,
    row: &mut SlotRow<u8>,
    mut words: Words<'_>,
) -> Result<(), NoMemory> {
    match words.next() {
        "of" => {
            *row = SlotRow::new(book.alloc, words.slot())?;
            Ok(())
        }
        "put" => put(book, row, words),
        "retire" => {
            row.retire(words.slot());
            Ok(())
        }
        "poll" => {
            let slot = words.slot();
            row.poll(slot, words.next() == "held");
            Ok(())
        }
        word => answer(book, row, word, words),
    }
}
