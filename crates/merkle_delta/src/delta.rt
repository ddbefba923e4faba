//! What bytes are over the chunks of others that are known by their checksums.
ghost use Rattle.std.specs.Prelude.{◌≡◌, ℕ, List, [], get_or, ◌≤◌, ◌<◌, ◌++◌, length, IsTrue, OnOk};
ghost use Rattle.merkle_bytes.specs.Counts.{count_bytes};
ghost use Rattle.merkle_bytes.specs.Encodings.{AddsBytes, string_encoding};
ghost use Rattle.merkle_delta.specs.Chunks.{checksum};
ghost use Rattle.merkle_delta.specs.Deltas.{IsDelta, AddsSteps, HaveChecksums};

use crate::checksum::{checksum, digest_of};
use crate::chunks::Chunks;
use crate::table::Table;
use merkle_bytes::encode_count;
use std::alloc::{AllocError, Global};

/// How many times the square of their number chunks that are found may be behind the last one found before: so that neither a few that stand at many
/// places, nor others that have their checksums, lead far behind what would be found next.
const NEAR: usize = 16;

/// Adds to `begun` what bytes are over the chunks of others, of which only the checksums are known, in order: the digest of the bytes, and steps.
/// Chunks are found in the order of both, so what was moved comes as bytes.
///
/// It takes time linear in the number of bytes and of checksums, and 32 bytes of memory a checksum.
///
/// # Errors
///
/// Out of memory.
pub(crate) fn add_delta(
    alloc: Global,
    checksums: &[u32],
    bytes: Vec<u8>,
    delta: &mut Vec<u8>,
) -> Result<(), AllocError>
    ensures { OnOk result ((added : List ℕ) × AddsBytes delta.old added delta.new × IsDelta checksums.now bytes.items added) }
{
    delta.extend_from_slice(&digest_of(&bytes))?;
    let table = Table::new(alloc, checksums)?;
    let chunks = Chunks::cut(alloc, bytes)?;
    add_steps(checksums, &table, &chunks, delta)?;
    Ok(())
}

/// Adds the steps that give the chunks.
fn add_steps(
    checksums: &[u32],
    table: &Table,
    chunks: &Chunks,
    delta: &mut Vec<u8>,
) -> Result<(), AllocError>
    ensures { OnOk result (AddsSteps checksums.now chunks.now delta.old.items delta.new.items) }
{
    let mut at = 0;
    let mut done = 0;
    'chunks: while done < chunks.len() {
        let run = found_run(checksums, at, table, chunks, done);
        if run.len == 0 {
            add_bytes(chunks.get(done), delta)?;
            done += 1;
        } else {
            add_run(run.from - at, run.len, delta)?;
            at = run.from + run.len;
            done += run.len;
        }
    }
    Ok(())
}

/// Adds bytes that are in no chunk.
fn add_bytes(bytes: &[u8], delta: &mut Vec<u8>) -> Result<(), AllocError>
    ensures { OnOk result (delta.new.items ≡ delta.old.items ++ (count_bytes 0 ++ string_encoding bytes.now)) }
{
    encode_count(0, delta)?;
    encode_count(bytes.len() as u64, delta)?;
    delta.extend_from_slice(bytes)
}

/// Adds chunks that are taken after those that are passed by.
fn add_run(passed: usize, taken: usize, delta: &mut Vec<u8>) -> Result<(), AllocError>
    ensures { OnOk result (delta.new.items ≡ delta.old.items ++ (count_bytes taken ++ count_bytes passed)) }
{
    encode_count(taken as u64, delta)?;
    encode_count(passed as u64, delta)
}

/// This many checksums from a place on.
#[derive(Clone, Copy)]
struct Run {
    from: usize,
    len: usize,
}

/// Checksums, from `at` on, of the chunks from `done` on, or none.
fn found_run(checksums: &[u32], at: usize, table: &Table, chunks: &Chunks, done: usize) -> Run
    requires at { at ≤ length checksums.now }
    requires done { done < length chunks.now }
    ensures behind { at ≤ result.from }
    ensures same { HaveChecksums checksums.now chunks.now result.from done result.len }
{
    let len = run_len(checksums, at, chunks, done);
    if len > 0 {
        return Run { from: at, len };
    }
    let from = table.place(checksum(chunks.get(done)));
    if from <= at || from > checksums.len() {
        return Run { from: at, len: 0 };
    }
    let len = run_len(checksums, from, chunks, done);
    if from - at > NEAR.saturating_mul(len).saturating_mul(len) {
        return Run { from: at, len: 0 };
    }
    Run { from, len }
}

/// How many checksums from `from` on are those of the chunks from `done` on.
fn run_len(checksums: &[u32], from: usize, chunks: &Chunks, done: usize) -> usize
    requires from { from ≤ length checksums.now }
    requires done { done ≤ length chunks.now }
    ensures { HaveChecksums checksums.now chunks.now from done result }
{
    let left = chunks.len() - done;
    let mut len = 0;
    'same: while len < left && is_same(checksums, from + len, chunks, done + len) {
        len += 1;
    }
    len
}

/// Whether a checksum is that of a chunk, where both are there.
fn is_same(checksums: &[u32], from: usize, chunks: &Chunks, done: usize) -> bool
    ensures { IsTrue result → (from < length checksums.now) × (done < length chunks.now)
        × (get_or checksums.now from 0 ≡ checksum (get_or chunks.now done [])) }
{
    from < checksums.len() && done < chunks.len() && checksums[from] == checksum(chunks.get(done))
}
