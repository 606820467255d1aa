//! The fields of a request's head by their names (RFC 9110, section 5), and the items of list fields.
//!
//! Openings and routing rules read fields by this alone.
ghost use Rattle.std.specs.Prelude.{◌≡◌, ◌≤◌, ◌&&◌, length, bytes_eq};
ghost use Rattle.std.specs.List.{prefix_len};
ghost use Rattle.std.specs.Option.{option_copied};
ghost use Rattle.nc_accept.specs.Fields.{is_same_word, is_blank, freed, items_of, is_called, values, items, is_among, is_word_among, only, first};

use nc_types::Field;

/// Whether two words are the same without regard to the case of ASCII letters.
pub fn is_same_word(left: &[u8], right: &[u8]) -> bool
    ensures { result ≡ is_same_word left.now right.now }
{
    left.eq_ignore_ascii_case(right)
}

fn is_blank(byte: u8) -> bool
    ensures { result ≡ is_blank byte }
{
    byte == b' ' || byte == b'\t'
}

/// How many blanks stand at the front.
fn blanks(text: &[u8]) -> usize
    ensures count { result ≡ prefix_len is_blank text.now }
    ensures within { result ≤ length text.now }
{
    for (place, byte) in text.iter().enumerate() {
        if !is_blank(*byte) {
            return place;
        }
    }
    text.len()
}

/// A text without the spaces and tabs on both sides.
pub fn freed(text: &[u8]) -> &[u8]
    ensures { result.now ≡ freed text.now }
{
    let rest = &text[blanks(text)..];
    let mut end = rest.len();
    while end > 0 && is_blank(rest[end - 1]) {
        end -= 1;
    }
    &rest[..end]
}

/// Whether a field has this name, without regard to case.
pub fn is_called(name: &[u8], field: &Field) -> bool
    ensures { result ≡ is_called name.now field.now }
{
    is_same_word(field.name.as_slice(), name)
}

fn is_word_item(word: &[u8], piece: &[u8]) -> bool
    ensures { result ≡ is_same_word word.now (freed piece.now) }
{
    is_same_word(word, freed(piece))
}

fn is_item(text: &[u8], piece: &[u8]) -> bool
    ensures { result ≡ bytes_eq text.now (freed piece.now) }
{
    text == freed(piece)
}

/// Whether an item of a value is this word, without regard to case.
fn value_has_word(word: &[u8], value: &[u8]) -> bool
    ensures { result ≡ is_word_among word.now (items_of value.now) }
{
    value
        .split(|byte| *byte == b',')
        .any(|piece| is_word_item(word, piece))
}

/// Whether an item of a value is exactly this text.
fn value_has(text: &[u8], value: &[u8]) -> bool
    ensures { result ≡ is_among text.now (items_of value.now) }
{
    value
        .split(|byte| *byte == b',')
        .any(|piece| is_item(text, piece))
}

fn field_has_word(name: &[u8], word: &[u8], field: &Field) -> bool
    ensures { result ≡ (is_called name.now field.now && is_word_among word.now (items_of field.now.value)) }
{
    is_called(name, field) && value_has_word(word, field.value.as_slice())
}

fn field_has(name: &[u8], text: &[u8], field: &Field) -> bool
    ensures { result ≡ (is_called name.now field.now && is_among text.now (items_of field.now.value)) }
{
    is_called(name, field) && value_has(text, field.value.as_slice())
}

/// Whether an item of the list fields of a name is this word, without regard to case.
pub fn has_word(name: &[u8], word: &[u8], fields: &[Field]) -> bool
    ensures { result ≡ is_word_among word.now (items name.now fields.now) }
{
    fields.iter().any(|field| field_has_word(name, word, field))
}

/// Whether an item of the list fields of a name is exactly this text.
pub fn has_item(name: &[u8], text: &[u8], fields: &[Field]) -> bool
    ensures { result ≡ is_among text.now (items name.now fields.now) }
{
    fields.iter().any(|field| field_has(name, text, field))
}

/// The value of the one field of a name; None where no field has it, or more than one.
pub fn only_value<'f>(name: &[u8], fields: &'f [Field]) -> Option<&'f [u8]>
    ensures { option_copied result ≡ only (values name.now fields.now) }
{
    let mut found = None;
    for field in fields {
        if is_called(name, field) {
            if found.is_some() {
                return None;
            }
            found = Some(field.value.as_slice());
        }
    }
    found
}

/// The value of the first field of a name; None where no field has it.
pub fn first_value<'f>(name: &[u8], fields: &'f [Field]) -> Option<&'f [u8]>
    ensures { option_copied result ≡ first (values name.now fields.now) }
{
    for field in fields {
        if is_called(name, field) {
            return Some(field.value.as_slice());
        }
    }
    None
}
