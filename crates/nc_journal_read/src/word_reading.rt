//! The words of a line: what was asked, how and why.
ghost use Rattle.std.specs.Prelude.{◌≡◌, ℕ, ◌<◌, List};
ghost use Rattle.nc_grammar.specs.Gives.{Gives};
ghost use Rattle.nc_grammar.specs.Reading.{Found};
ghost use Rattle.nc_grammar.specs.Rows.{nth_at};
ghost use Rattle.nc_grammar.specs.Label.{field_at};
ghost use Rattle.nc_journal_read.specs.WordTable.{word_row, act_rows, mode_rows, left_rows, removed_rows, ended_rows, shut_rows, kind_rows, act_at, mode_at, left_at, removed_at, ended_at, shut_at, kind_at};
ghost use Rattle.nc_journal_read.specs.Shape.{kit};
ghost use Rattle.nc_journal.specs.Word.{act_word, mode_word, left_word, removed_word, ended_word, shut_word, kind_word};
ghost use Rattle.nc_journal.specs.declared.word.Act.TheVariants as acts;
ghost use Rattle.nc_journal.specs.declared.word.ModeLine.TheVariants as modes;
ghost use Rattle.nc_journal.specs.declared.word.LeftCause.TheVariants as lefts;
ghost use Rattle.nc_journal.specs.declared.word.RemovedCause.TheVariants as removals;
ghost use Rattle.nc_journal.specs.declared.word.EndedCause.TheVariants as endings;
ghost use Rattle.nc_journal.specs.declared.word.ShutCause.TheVariants as shuts;
ghost use Rattle.nc_journal.specs.declared.word.AlertKind.TheVariants as kinds;

use nc_grammar::{Fault, Reader};
use nc_journal::{Act, AlertKind, EndedCause, LeftCause, ModeLine, RemovedCause, ShutCause};

static ACTS: [&[u8]; 7] = [
    b"publish",
    b"info",
    b"delete",
    b"longpoll",
    b"socket",
    b"refuse",
    b"bad",
];

fn act_of(place: usize) -> Act
    requires { place < 7 }
    ensures { (t : List ℕ) → nth_at kit (word_row act_word acts.Publish) act_rows place t ≡ Found result t }
{
    match place {
        0 => Act::Publish,
        1 => Act::Info,
        2 => Act::Delete,
        3 => Act::LongPoll,
        4 => Act::Socket,
        5 => Act::Refuse,
        _ => Act::Bad,
    }
}

pub(crate) fn act(reader: &mut Reader<'_>, label: &[u8]) -> Result<Act, Fault>
    ensures { Gives reader.new result (field_at label.now act_at reader.old) }
{
    reader.label(label)?;
    let place = reader.one_of(&ACTS)?;
    Ok(act_of(place))
}

static MODES: [&[u8]; 4] = [b"direct", b"longpoll", b"socket", b"meta"];

fn mode_of(place: usize) -> ModeLine
    requires { place < 4 }
    ensures { (t : List ℕ) → nth_at kit (word_row mode_word modes.Direct) mode_rows place t ≡ Found result t }
{
    match place {
        0 => ModeLine::Direct,
        1 => ModeLine::LongPoll,
        2 => ModeLine::Socket,
        _ => ModeLine::Meta,
    }
}

pub(crate) fn mode(reader: &mut Reader<'_>, label: &[u8]) -> Result<ModeLine, Fault>
    ensures { Gives reader.new result (field_at label.now mode_at reader.old) }
{
    reader.label(label)?;
    let place = reader.one_of(&MODES)?;
    Ok(mode_of(place))
}

static LEFT_CAUSES: [&[u8]; 4] = [b"length", b"expired", b"deleted", b"spent"];

fn left_cause_of(place: usize) -> LeftCause
    requires { place < 4 }
    ensures { (t : List ℕ) → nth_at kit (word_row left_word lefts.Length) left_rows place t ≡ Found result t }
{
    match place {
        0 => LeftCause::Length,
        1 => LeftCause::Expired,
        2 => LeftCause::Deleted,
        _ => LeftCause::Spent,
    }
}

pub(crate) fn left_cause(reader: &mut Reader<'_>, label: &[u8]) -> Result<LeftCause, Fault>
    ensures { Gives reader.new result (field_at label.now left_at reader.old) }
{
    reader.label(label)?;
    let place = reader.one_of(&LEFT_CAUSES)?;
    Ok(left_cause_of(place))
}

static REMOVED_CAUSES: [&[u8]; 2] = [b"deleted", b"reaped"];

fn removed_cause_of(place: usize) -> RemovedCause
    requires { place < 2 }
    ensures { (t : List ℕ) → nth_at kit (word_row removed_word removals.Deleted) removed_rows place t ≡ Found result t }
{
    match place {
        0 => RemovedCause::Deleted,
        _ => RemovedCause::Reaped,
    }
}

pub(crate) fn removed_cause(reader: &mut Reader<'_>, label: &[u8]) -> Result<RemovedCause, Fault>
    ensures { Gives reader.new result (field_at label.now removed_at reader.old) }
{
    reader.label(label)?;
    let place = reader.one_of(&REMOVED_CAUSES)?;
    Ok(removed_cause_of(place))
}

static ENDED_CAUSES: [&[u8]; 6] = [
    b"answered",
    b"timeout",
    b"deleted",
    b"peer",
    b"closed",
    b"frame",
];

fn ended_cause_of(place: usize) -> EndedCause
    requires { place < 6 }
    ensures { (t : List ℕ) → nth_at kit (word_row ended_word endings.Answered) ended_rows place t ≡ Found result t }
{
    match place {
        0 => EndedCause::Answered,
        1 => EndedCause::Timeout,
        2 => EndedCause::Deleted,
        3 => EndedCause::Peer,
        4 => EndedCause::Closed,
        _ => EndedCause::Frame,
    }
}

pub(crate) fn ended_cause(reader: &mut Reader<'_>, label: &[u8]) -> Result<EndedCause, Fault>
    ensures { Gives reader.new result (field_at label.now ended_at reader.old) }
{
    reader.label(label)?;
    let place = reader.one_of(&ENDED_CAUSES)?;
    Ok(ended_cause_of(place))
}

static SHUT_CAUSES: [&[u8]; 7] = [
    b"asked", b"refused", b"peer", b"closed", b"deleted", b"timeout", b"frame",
];

fn shut_cause_of(place: usize) -> ShutCause
    requires { place < 7 }
    ensures { (t : List ℕ) → nth_at kit (word_row shut_word shuts.Asked) shut_rows place t ≡ Found result t }
{
    match place {
        0 => ShutCause::Asked,
        1 => ShutCause::Refused,
        2 => ShutCause::Peer,
        3 => ShutCause::Closed,
        4 => ShutCause::Deleted,
        5 => ShutCause::Timeout,
        _ => ShutCause::Frame,
    }
}

pub(crate) fn shut_cause(reader: &mut Reader<'_>, label: &[u8]) -> Result<ShutCause, Fault>
    ensures { Gives reader.new result (field_at label.now shut_at reader.old) }
{
    reader.label(label)?;
    let place = reader.one_of(&SHUT_CAUSES)?;
    Ok(shut_cause_of(place))
}

pub(crate) static ALERT_KINDS: [&[u8]; 14] = [
    b"publish",
    b"pubanswer",
    b"look",
    b"lookanswer",
    b"notice",
    b"edge",
    b"edgeanswer",
    b"join",
    b"part",
    b"delete",
    b"delanswer",
    b"gone",
    b"info",
    b"infoanswer",
];

fn alert_kind_of(place: usize) -> AlertKind
    requires { place < 14 }
    ensures { (t : List ℕ) → nth_at kit (word_row kind_word kinds.Publish) kind_rows place t ≡ Found result t }
{
    match place {
        0 => AlertKind::Publish,
        1 => AlertKind::PubAnswer,
        2 => AlertKind::Look,
        3 => AlertKind::LookAnswer,
        4 => AlertKind::Notice,
        5 => AlertKind::Edge,
        6 => AlertKind::EdgeAnswer,
        7 => AlertKind::Join,
        8 => AlertKind::Part,
        9 => AlertKind::Delete,
        10 => AlertKind::DelAnswer,
        11 => AlertKind::Gone,
        12 => AlertKind::Info,
        _ => AlertKind::InfoAnswer,
    }
}

pub(crate) fn alert_kind(reader: &mut Reader<'_>, label: &[u8]) -> Result<AlertKind, Fault>
    ensures { Gives reader.new result (field_at label.now kind_at reader.old) }
{
    reader.label(label)?;
    let place = reader.one_of(&ALERT_KINDS)?;
    Ok(alert_kind_of(place))
}
