//! How many bytes a key keeps of the one before it, and how many more it has.
ghost use Rattle.std.specs.Prelude.{◌≡◌, ◌++◌, OnOk, MatchOption};
ghost use Rattle.merkle_bytes.specs.Keys.{front_bytes, fit_a_byte, shareable, shared};
ghost use Rattle.merkle_bytes.specs.Reading.{BeginsWithNoFront};

use crate::counts::{decode_count, encode_count};
use std::alloc::AllocError;

/// The byte before two counts that don't fit one byte together.
const LONG: u8 = 240;

/// As many bytes of a key the next one may share at most.
const MOST_SHARED: usize = 255;

/// The part of a key that the next one may share.
pub(crate) fn shareable(key: &[u8]) -> &[u8]
    ensures { result.now ≡ shareable key.now }
{
    match key.split_at_checked(MOST_SHARED) {
        Some((part, _)) => part,
        None => key,
    }
}

/// How many bytes both begin with.
pub(crate) fn shared_len(first: &[u8], second: &[u8]) -> usize
    ensures { result ≡ shared first.now second.now }
{
    let len = if first.len() < second.len() {
        first.len()
    } else {
        second.len()
    };
    'sharing: for i in 0..len {
        if first[i] != second[i] {
            return i;
        }
    }
    len
}

/// Whether both counts are small enough for one byte.
fn fit_a_byte(kept: u64, more: u64) -> bool
    ensures { result ≡ fit_a_byte kept more }
{
    kept < 15 && more < 16
}

/// Writes both counts: as one byte where both are small.
pub(crate) fn encode_front(kept: u64, more: u64, bytes: &mut Vec<u8>) -> Result<(), AllocError>
    ensures { OnOk result (bytes.new.items ≡ bytes.old.items ++ front_bytes kept more) }
{
    if fit_a_byte(kept, more) {
        bytes.extend_from_slice(&[(16 * kept + more) as u8])?;
        return Ok(());
    }
    bytes.extend_from_slice(&[LONG])?;
    encode_count(kept, bytes)?;
    encode_count(more, bytes)?;
    Ok(())
}

/// The two counts that the bytes begin with, and the bytes after them.
pub(crate) fn decode_front(bytes: &[u8]) -> Option<(u64, u64, &[u8])>
    ensures { MatchOption result (BeginsWithNoFront bytes.now)
        (λ found. bytes.now ≡ front_bytes found.0 found.1 ++ found.2.now) }
{
    let Some((byte, behind)) = bytes.split_first() else {
        return None;
    };
    if *byte < LONG {
        return Some(((*byte / 16) as u64, (*byte % 16) as u64, behind));
    }
    if *byte > LONG {
        return None;
    }
    let Some((kept, behind)) = decode_count(behind) else {
        return None;
    };
    let Some((more, rest)) = decode_count(behind) else {
        return None;
    };
    if fit_a_byte(kept, more) {
        return None;
    }
    Some((kept, more, rest))
}
