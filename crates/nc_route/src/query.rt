//! The arguments of a query, and the channel ids that a request gives.
ghost use Rattle.std.specs.Prelude.{◌≡◌, ◌≤◌, ◌++◌, length, map, IfOk, OnOk};
ghost use Rattle.std.specs.List.{slice_split, list_any, find, flat_map, position_or_len};
ghost use Rattle.std.specs.Option.{option_copied};
ghost use Rattle.nc_route.specs.Query.{is_and, is_equals, gives, argument, query_of, part_value, id_value, ids_of};

use nc_types::{Bytes, IdPart, IdText, List, Location, NoMemory, Request};
use std::alloc::{AllocError, Global};

/// The place of the first `=`, or the length.
fn equals_at(piece: &[u8]) -> usize
    ensures at { result ≡ position_or_len is_equals piece.now }
    ensures within { result ≤ length piece.now }
{
    for (place, byte) in piece.iter().enumerate() {
        if *byte == b'=' {
            return place;
        }
    }
    piece.len()
}

fn has_equals(piece: &[u8]) -> bool
    ensures { result ≡ list_any is_equals piece.now }
{
    piece.iter().any(|byte| *byte == b'=')
}

/// Whether a piece of a query gives an argument of this name.
fn gives(name: &[u8], piece: &[u8]) -> bool
    ensures { result ≡ gives name.now piece.now }
{
    has_equals(piece) && &piece[..equals_at(piece)] == name
}

fn piece_for<'q>(name: &[u8], query: &'q [u8]) -> Option<&'q [u8]>
    ensures { option_copied result ≡ find (gives name.now) (slice_split is_and query.now) }
{
    query
        .split(|byte| *byte == b'&')
        .find(|piece| gives(name, piece))
}

/// The value of an argument of a query, not decoded; empty where the query doesn't give it.
pub(crate) fn argument<'q>(name: &[u8], query: &'q [u8]) -> &'q [u8]
    ensures { result.now ≡ argument name.now query.now }
{
    let Some(piece) = piece_for(name, query) else {
        return &[];
    };
    piece.get(equals_at(piece) + 1..).unwrap_or(&[])
}

/// The query of a request, empty where there is none.
pub(crate) fn query_of(query: &Option<Bytes>) -> &[u8]
    ensures { result.now ≡ query_of query.now }
{
    match query {
        None => &[],
        Some(query) => query.as_slice(),
    }
}

fn push_part(out: &mut Vec<u8>, query: &[u8], part: &IdPart) -> Result<(), AllocError>
    ensures { OnOk result (out.new.items ≡ out.old.items ++ part_value query.now part.now) }
{
    match part {
        IdPart::Plain(text) => out.extend_from_slice(text.as_slice()),
        IdPart::Arg(name) => out.extend_from_slice(argument(name.as_slice(), query)),
    }
}

fn push_parts(out: &mut Vec<u8>, query: &[u8], parts: &[IdPart]) -> Result<(), AllocError>
    ensures { OnOk result (out.new.items ≡ out.old.items ++ flat_map (part_value query.now) parts.now) }
{
    for part in parts {
        push_part(out, query, part)?;
    }
    Ok(())
}

fn id_value(alloc: Global, query: &[u8], id: &IdText) -> Result<Bytes, NoMemory>
    ensures { IfOk result (λ value. value ≡ id_value query.now id.now) }
{
    let mut out = Vec::new(alloc);
    push_parts(&mut out, query, id.parts.as_slice())?;
    Ok(List::of(out))
}

fn id_values(alloc: Global, query: &[u8], ids: &[IdText]) -> Result<List<Bytes>, NoMemory>
    ensures { IfOk result (λ values. values ≡ map (id_value query.now) ids.now) }
{
    let mut values = List::new(alloc);
    for id in ids {
        values.push(id_value(alloc, query, id)?)?;
    }
    Ok(values)
}

/// The channel ids of a request at its location.
pub(crate) fn ids_of(
    alloc: Global,
    location: &Location,
    request: &Request,
) -> Result<List<Bytes>, NoMemory>
    ensures { IfOk result (λ ids. ids ≡ ids_of location.now request.now) }
{
    id_values(alloc, query_of(&request.query), location.ids.as_slice())
}
