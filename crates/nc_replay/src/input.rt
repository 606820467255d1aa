//! The whole of an input is read, and the whole of a text is written.
//!
//! Any source and any sink will do: what one tells of its bytes, the contracts carry on.
ghost use Rattle.std.specs.Prelude.{◌≡◌, ◌≤◌, ◌<◌, ◌⊎◌, ◌++◌, ◌∷◌, length, vec_len, take, IfOk, OnOk, IfErr, OnErr};
ghost use Rattle.nc_outside.specs.Fault.{HasRisen};
ghost use Rattle.nc_replay.specs.Input.{longest_input, TakesFront, IsAtEnd, ReadsAll, ReadsUpTo, StopsReading, HasCause, Adds, AddsPrefix};
ghost use Rattle.nc_replay.specs.declared.input.ReadFault.TheVariants.{Failed as ReadFailed, TooLong, NoMemory as ReadNoMemory};

use nc_outside::{Failed, Sink, Source};
use std::alloc::{AllocError, Global};

/// The most bytes of an input.
const LONGEST_INPUT: usize = 67_108_864;

/// The most bytes of one read, and of one write.
const LONGEST_PIECE: usize = 65_536;

/// Why an input isn't read.
#[derive(Clone, Copy, Debug, PartialEq, Eq)]
pub enum ReadFault {
    /// The source failed.
    Failed,
    /// The input has more than 67,108,864 bytes.
    TooLong,
    /// There was no memory for the text.
    NoMemory,
}

impl From<AllocError> for ReadFault {
    ghost from_gives = { λ _ e. e ≡ ReadNoMemory };

    fn from(_: AllocError) -> Self {
        ReadFault::NoMemory
    }
}

impl From<Failed> for ReadFault {
    ghost from_gives = { λ _ e. e ≡ ReadFailed };

    fn from(_: Failed) -> Self {
        ReadFault::Failed
    }
}

/// Room for one read.
fn room(alloc: Global) -> Result<Vec<u8>, AllocError>
    ensures { IfOk result (λ room. vec_len room ≡ 65536) }
{
    vec![in alloc; 0u8; LONGEST_PIECE]
}

/// ReadsSoFar once, puts what came behind the text, and says how many bytes that was.
fn read_more<S: Source>(
    input: &mut S,
    room: &mut [u8],
    text: &mut Vec<u8>,
) -> Result<usize, ReadFault>
    requires { 0 < length room.old }
    ensures within { IfOk result (λ n. n ≤ length room.old) }
    ensures many { IfOk result (λ n. length (take n room.new) ≡ n) }
    ensures given { IfOk result (λ n. S.given input.new ≡ take n room.new ∷ S.given input.old) }
    ensures taken { IfOk result (λ n. TakesFront (take n room.new) (S.left input.old) (S.left input.new)) }
    ensures text { IfOk result (λ n. text.new.items ≡ text.old.items ++ take n room.new) }
    ensures at_end { IfOk result (λ n. n ≡ 0 → IsAtEnd (S.left input.old)) }
    ensures no_fault { OnOk result (S.faults input.new ≡ S.faults input.old) }
    ensures failed { IfErr result (λ fault. fault ≡ ReadFailed → HasRisen (S.faults input.old) (S.faults input.new)) }
    ensures unfailed { IfErr result (λ fault. fault ≡ ReadNoMemory → S.faults input.new ≡ S.faults input.old) }
    ensures not_long { IfErr result (λ fault. fault ≡ TooLong → ⊥) }
    ensures unmoved { IfErr result (λ fault. fault ≡ ReadFailed
        → (S.left input.new ≡ S.left input.old) × (S.given input.new ≡ S.given input.old)) }
    ensures lost { OnErr result (ReadsUpTo (length room.old)
        (S.left input.old) (S.left input.new) (S.given input.old) (S.given input.new)) }
    ensures counted { S.faults input.old ≤ S.faults input.new }
{
    let n = input.read(room)?;
    if n > 0 {
        text.extend_from_slice(&room[..n])?;
    }
    Ok(n)
}

/// ReadsSoFar a whole input of at most 67,108,864 bytes.
///
/// It errs where the source failed, where the input is longer, and where there is no memory;
/// what it took by then is lost, at most 67,108,865 bytes.
pub fn read_all<S: Source>(alloc: Global, input: &mut S) -> Result<Vec<u8>, ReadFault>
    ensures whole { IfOk result (λ text. ReadsAll text.items
        (S.left input.old) (S.left input.new) (S.given input.old) (S.given input.new)) }
    ensures no_fault { OnOk result (S.faults input.new ≡ S.faults input.old) }
    ensures stopped { IfErr result (StopsReading
        (S.left input.old) (S.left input.new) (S.given input.old) (S.given input.new)) }
    ensures cause { IfErr result (HasCause (S.faults input.old) (S.faults input.new)) }
    ensures counted { S.faults input.old ≤ S.faults input.new }
{
    let mut text = Vec::new(alloc);
    let mut room = room(alloc)?;
    while text.len() <= LONGEST_INPUT {
        let most = (LONGEST_INPUT + 1 - text.len()).min(LONGEST_PIECE);
        let n = read_more(input, &mut room[..most], &mut text)?;
        if n == 0 {
            return Ok(text);
        }
    }
    Err(ReadFault::TooLong)
}

/// Writes a whole text.
///
/// It errs where the sink failed or took nothing; a prefix of the text is written then.
pub fn write_all<K: Sink>(out: &mut K, text: &[u8]) -> Result<(), Failed>
    ensures whole { OnOk result (Adds text.now (K.taken out.old) (K.taken out.new)) }
    ensures no_fault { OnOk result (K.faults out.new ≡ K.faults out.old) }
    ensures no_refusal { OnOk result (K.refusals out.new ≡ K.refusals out.old) }
    ensures prefix { OnErr result (AddsPrefix text.now (K.taken out.old) (K.taken out.new)) }
    ensures cause { OnErr result (HasRisen (K.faults out.old) (K.faults out.new) ⊎ HasRisen (K.refusals out.old) (K.refusals out.new)) }
    ensures counted { K.faults out.old ≤ K.faults out.new }
    ensures refusals_counted { K.refusals out.old ≤ K.refusals out.new }
{
    let mut rest = text;
    while rest.len() > 0 {
        let piece = &rest[..rest.len().min(LONGEST_PIECE)];
        let n = out.write(piece)?;
        if n == 0 {
            return Err(Failed);
        }
        rest = &rest[n..];
    }
    Ok(())
}
