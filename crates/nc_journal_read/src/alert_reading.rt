//! The alert of a `made` line, from its kind and its fields.
ghost use Rattle.std.specs.Prelude.{◌∷◌, ◌<◌, IfOk};
ghost use Rattle.nc_grammar.specs.Gives.{Gives};
ghost use Rattle.nc_grammar.specs.Label.{field_at, word_at};
ghost use Rattle.nc_grammar.specs.Rows.{row_at, nth_at, words_of};
ghost use Rattle.nc_journal_read.specs.Shape.{kit};
ghost use Rattle.nc_journal_read.specs.AlertTable.{alert_rows, alert_at, publish_row, publish_answer_row, look_row, look_answer_row, notice_row, edge_row, edge_answer_row, join_row, part_row, delete_row, delete_answer_row, gone_row, info_row, info_answer_row};

use crate::field_reading::{
    id, name, number, optional_full, optional_id, optional_info, optional_number, optional_text,
    subs, text,
};
use crate::word_reading::ALERT_KINDS;
use nc_grammar::{Fault, Reader};
use nc_journal::AlertLine;
use std::alloc::Global;

fn publish(alloc: Global, reader: &mut Reader<'_>) -> Result<AlertLine, Fault>
    ensures { Gives reader.new result (row_at kit publish_row reader.old) }
{
    let r = number(reader, b" r=")?;
    let c = name(alloc, reader, b" c=")?;
    let len = number(reader, b" len=")?;
    let timeout = number(reader, b" timeout=")?;
    let ct = optional_text(alloc, reader, b" ct=")?;
    let body = text(alloc, reader, b" body=")?;
    Ok(AlertLine::Publish {
        r,
        c,
        len,
        timeout,
        ct,
        body,
    })
}

fn publish_answer(reader: &mut Reader<'_>) -> Result<AlertLine, Fault>
    ensures { Gives reader.new result (row_at kit publish_answer_row reader.old) }
{
    let r = number(reader, b" r=")?;
    let status = number(reader, b" status=")?;
    let info = optional_info(reader, b" info=")?;
    let full = optional_full(reader, b" full=")?;
    Ok(AlertLine::PubAnswer {
        r,
        status,
        info,
        full,
    })
}

fn look(alloc: Global, reader: &mut Reader<'_>) -> Result<AlertLine, Fault>
    ensures { Gives reader.new result (row_at kit look_row reader.old) }
{
    let no = number(reader, b" no=")?;
    let c = name(alloc, reader, b" c=")?;
    let after = id(reader, b" after=")?;
    let fence = number(reader, b" fence=")?;
    Ok(AlertLine::Look {
        no,
        c,
        after,
        fence,
    })
}

fn look_answer(reader: &mut Reader<'_>) -> Result<AlertLine, Fault>
    ensures { Gives reader.new result (row_at kit look_answer_row reader.old) }
{
    let no = number(reader, b" no=")?;
    let q = number(reader, b" q=")?;
    let floor = number(reader, b" floor=")?;
    let found = optional_id(reader, b" found=")?;
    let g = optional_number(reader, b" g=")?;
    let slot = optional_number(reader, b" slot=")?;
    Ok(AlertLine::LookAnswer {
        no,
        q,
        floor,
        found,
        g,
        slot,
    })
}

fn notice(alloc: Global, reader: &mut Reader<'_>) -> Result<AlertLine, Fault>
    ensures { Gives reader.new result (row_at kit notice_row reader.old) }
{
    let c = name(alloc, reader, b" c=")?;
    let id = id(reader, b" id=")?;
    let g = number(reader, b" g=")?;
    let slot = number(reader, b" slot=")?;
    Ok(AlertLine::Notice { c, id, g, slot })
}

fn edge(alloc: Global, reader: &mut Reader<'_>) -> Result<AlertLine, Fault>
    ensures { Gives reader.new result (row_at kit edge_row reader.old) }
{
    let no = number(reader, b" no=")?;
    let k = number(reader, b" k=")?;
    let c = name(alloc, reader, b" c=")?;
    let fence = number(reader, b" fence=")?;
    Ok(AlertLine::Edge { no, k, c, fence })
}

fn edge_answer(reader: &mut Reader<'_>) -> Result<AlertLine, Fault>
    ensures { Gives reader.new result (row_at kit edge_answer_row reader.old) }
{
    let no = number(reader, b" no=")?;
    let q = number(reader, b" q=")?;
    let floor = number(reader, b" floor=")?;
    let last = id(reader, b" last=")?;
    Ok(AlertLine::EdgeAnswer { no, q, floor, last })
}

fn join(alloc: Global, reader: &mut Reader<'_>) -> Result<AlertLine, Fault>
    ensures { Gives reader.new result (row_at kit join_row reader.old) }
{
    let c = name(alloc, reader, b" c=")?;
    let k = number(reader, b" k=")?;
    Ok(AlertLine::Join { c, k })
}

fn part(alloc: Global, reader: &mut Reader<'_>) -> Result<AlertLine, Fault>
    ensures { Gives reader.new result (row_at kit part_row reader.old) }
{
    let c = name(alloc, reader, b" c=")?;
    let k = number(reader, b" k=")?;
    Ok(AlertLine::Part { c, k })
}

fn delete(alloc: Global, reader: &mut Reader<'_>) -> Result<AlertLine, Fault>
    ensures { Gives reader.new result (row_at kit delete_row reader.old) }
{
    let r = number(reader, b" r=")?;
    let c = name(alloc, reader, b" c=")?;
    Ok(AlertLine::Delete { r, c })
}

fn delete_answer(reader: &mut Reader<'_>) -> Result<AlertLine, Fault>
    ensures { Gives reader.new result (row_at kit delete_answer_row reader.old) }
{
    let r = number(reader, b" r=")?;
    let status = number(reader, b" status=")?;
    let info = optional_info(reader, b" info=")?;
    Ok(AlertLine::DelAnswer { r, status, info })
}

fn gone(alloc: Global, reader: &mut Reader<'_>) -> Result<AlertLine, Fault>
    ensures { Gives reader.new result (row_at kit gone_row reader.old) }
{
    let c = name(alloc, reader, b" c=")?;
    let subs = subs(alloc, reader, b" subs=")?;
    Ok(AlertLine::Gone { c, subs })
}

fn info(alloc: Global, reader: &mut Reader<'_>) -> Result<AlertLine, Fault>
    ensures { Gives reader.new result (row_at kit info_row reader.old) }
{
    let r = number(reader, b" r=")?;
    let c = name(alloc, reader, b" c=")?;
    Ok(AlertLine::Info { r, c })
}

fn info_answer(reader: &mut Reader<'_>) -> Result<AlertLine, Fault>
    ensures { Gives reader.new result (row_at kit info_answer_row reader.old) }
{
    let r = number(reader, b" r=")?;
    let status = number(reader, b" status=")?;
    let info = optional_info(reader, b" info=")?;
    Ok(AlertLine::InfoAnswer { r, status, info })
}

/// The place of an alert's word.
fn kind(reader: &mut Reader<'_>) -> Result<usize, Fault>
    ensures read { Gives reader.new result (word_at (words_of kit (publish_row ∷ alert_rows)) reader.old) }
    ensures within { IfOk result (λ kind. kind < 14) }
{
    reader.one_of(&ALERT_KINDS)
}

fn alert_of_kind(alloc: Global, reader: &mut Reader<'_>, kind: usize) -> Result<AlertLine, Fault>
    requires { kind < 14 }
    ensures { Gives reader.new result (nth_at kit publish_row alert_rows kind reader.old) }
{
    match kind {
        0 => publish(alloc, reader),
        1 => publish_answer(reader),
        2 => look(alloc, reader),
        3 => look_answer(reader),
        4 => notice(alloc, reader),
        5 => edge(alloc, reader),
        6 => edge_answer(reader),
        7 => join(alloc, reader),
        8 => part(alloc, reader),
        9 => delete(alloc, reader),
        10 => delete_answer(reader),
        11 => gone(alloc, reader),
        12 => info(alloc, reader),
        _ => info_answer(reader),
    }
}

/// The kind of an alert and its fields.
pub(crate) fn alert(
    alloc: Global,
    reader: &mut Reader<'_>,
    label: &[u8],
) -> Result<AlertLine, Fault>
    ensures { Gives reader.new result (field_at label.now alert_at reader.old) }
{
    reader.label(label)?;
    let kind = kind(reader)?;
    alert_of_kind(alloc, reader, kind)
}
