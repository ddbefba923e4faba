//! The bytes that a delta tells over chunks.
ghost use Rattle.std.specs.Prelude.{◌≡◌, ◌≢◌, ℕ, List, ◌-◌, ◌≤◌, ◌++◌, drop, take, length, ◌↔◌, IsTrue, IfOk, IfErr, OnOk};
ghost use Rattle.std.specs.List.{concat, flat_map};
ghost use Rattle.merkle_bytes.specs.Reading.{BeginsWithNo};
ghost use Rattle.merkle_delta.specs.Chunks.{digest_of};
ghost use Rattle.merkle_delta.specs.Deltas.{AreStepsOver, IsDeltaOver, IsStepOver, Step, step_bytes, IsStepTaken};
ghost use Rattle.merkle_delta.specs.declared.patch.PatchError.TheVariants.{Unlike};

use crate::checksum::digest_of;
use crate::chunks::Chunks;
use merkle_bytes::{ReadError, Reader};
use std::alloc::{AllocError, Global};

/// Why a delta was not applied.
#[derive(Clone, Copy, Debug, PartialEq, Eq, Drop)]
pub enum PatchError {
    /// Out of memory.
    Memory,
    /// Over these chunks it is the delta of no bytes: it was made by others that have equal checksums, or it is none.
    Unlike,
}

impl From<AllocError> for PatchError {
    ghost use Rattle.merkle_delta.specs.declared.patch.PatchError.TheVariants.{Memory};

    ghost from_gives = { λ _ fault. fault ≡ Memory };

    fn from(_error: AllocError) -> Self {
        PatchError::Memory
    }
}

impl From<ReadError> for PatchError {
    ghost use Rattle.merkle_bytes.specs.Refusals.{unread};
    ghost use Rattle.merkle_delta.specs.declared.patch.PatchError.TheVariants.{Memory, Unlike};

    ghost from_gives = { λ error fault. fault ≡ unread Memory (λ _. Unlike) error };

    fn from(error: ReadError) -> Self {
        match error {
            ReadError::Memory => PatchError::Memory,
            ReadError::Unexpected { .. } => PatchError::Unlike,
        }
    }
}

/// The bytes that a delta tells over chunks: there are at most as many as the chunks and the delta have together.
///
/// # Errors
///
/// [`PatchError`]
pub(crate) fn patch(own: &Chunks, reader: &mut Reader<'_>) -> Result<Vec<u8>, PatchError>
    ensures patched { IfOk result (λ bytes. IsDeltaOver own.now reader.old.left.now bytes.items) }
    ensures unlike { IfErr result (λ error. error ≡ Unlike → (bytes : List ℕ) → ¬ IsDeltaOver own.now reader.old.left.now bytes) }
{
    let digest = reader.array::<16>()?;
    let bytes = follow(own, reader)?;
    if has_digest(&bytes, digest) {
        return Ok(bytes);
    }
    Err(PatchError::Unlike)
}

/// Whether bytes have this digest.
fn has_digest(bytes: &[u8], digest: [u8; 16]) -> bool
    ensures { IsTrue result ↔ (digest_of bytes.now ≡ digest) }
{
    digest_of(bytes) == digest
}

/// What the steps give.
fn follow(own: &Chunks, reader: &mut Reader<'_>) -> Result<Vec<u8>, PatchError>
    ensures given { IfOk result (λ bytes. IsDeltaOver own.now (digest_of bytes.items ++ reader.old.left.now) bytes.items) }
    ensures unlike { IfErr result (λ error. error ≡ Unlike → (steps : List Step) → AreStepsOver own.now steps
        → reader.old.left.now ≢ flat_map step_bytes steps) }
{
    let mut bytes = Vec::new(reader.alloc());
    let mut at = 0;
    'steps: while !reader.left().is_empty() {
        at = take_step(own, at, reader, &mut bytes)?;
    }
    Ok(bytes)
}

/// Adds what the next step gives, and returns how many chunks are passed by then.
fn take_step(
    own: &Chunks,
    at: usize,
    reader: &mut Reader<'_>,
    bytes: &mut Vec<u8>,
) -> Result<usize, PatchError>
    requires { at ≤ length own.now }
    ensures inside { IfOk result (λ end. end ≤ length own.now) }
    ensures taken { IfOk result (λ end. IsStepTaken (drop at own.now) reader.old.left.now bytes.old.items (drop end own.now)
        reader.new.left.now bytes.new.items) }
    ensures unlike { IfErr result (λ error. error ≡ Unlike → BeginsWithNo step_bytes (IsStepOver (drop at own.now)) reader.old.left.now) }
{
    let left = (own.len() - at) as u64;
    let taken = reader.count()?;
    if taken == 0 {
        bytes.extend_from_slice(reader.byte_string()?)?;
        return Ok(at);
    }
    let passed = reader.count()?;
    if passed > left || taken > left - passed {
        return Err(PatchError::Unlike);
    }
    let from = at + passed as usize;
    let end = from + taken as usize;
    add_chunks(own, from, end, bytes)?;
    Ok(end)
}

/// Adds the chunks from one place up to another.
fn add_chunks(own: &Chunks, from: usize, end: usize, bytes: &mut Vec<u8>) -> Result<(), AllocError>
    requires low { from ≤ end }
    requires inside { end ≤ length own.now }
    ensures { OnOk result (bytes.new.items ≡ bytes.old.items ++ concat (take (end - from) (drop from own.now))) }
{
    'chunks: for at in from..end {
        bytes.extend_from_slice(own.get(at))?;
    }
    Ok(())
}
