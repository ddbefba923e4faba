//! Counts as bytes: seven bits a byte, so that a count below 128 is one byte, and each has one spelling.
ghost use Rattle.std.specs.Prelude.{◌≡◌, ◌++◌, ◌<◌, ◌≤◌, ◌*◌, ◌^◌, OnOk, MatchOption};
ghost use Rattle.merkle_bytes.specs.Counts.{HasBits, NoneHasBits, bits_bytes, count_bytes};
ghost use Rattle.merkle_bytes.specs.Reading.{SplitsOff};

use std::alloc::AllocError;

/// How many bytes of a count come before its last at most.
const MORE: u8 = 9;

/// Writes a count after the bytes that are there: its lowest seven bits first, with 128 more in each byte but the last.
///
/// # Errors
///
/// Out of memory.
pub fn encode_count(count: u64, bytes: &mut Vec<u8>) -> Result<(), AllocError>
    ensures { OnOk result (bytes.new.items ≡ bytes.old.items ++ count_bytes count) }
{
    encode_bits(count, MORE, bytes)
}

/// The count that the bytes begin with, and the bytes after it.
pub(crate) fn decode_count(bytes: &[u8]) -> Option<(u64, &[u8])>
    ensures { SplitsOff count_bytes (λ count. count < 2 ^ 64) bytes.now result }
{
    decode_bits(bytes, MORE)
}

/// Writes a number: at most `more` bytes, and then the last.
fn encode_bits(number: u64, more: u8, bytes: &mut Vec<u8>) -> Result<(), AllocError>
    requires { number < 2 * 128 ^ more }
    ensures { OnOk result (bytes.new.items ≡ bytes.old.items ++ bits_bytes more number) }
{
    if number < 128 {
        bytes.extend_from_slice(&[number as u8])?;
        return Ok(());
    }
    if more == 0 {
        bytes.extend_from_slice(&[number as u8])?;
        return Ok(());
    }
    bytes.extend_from_slice(&[(128 + number % 128) as u8])?;
    encode_bits(number / 128, more - 1, bytes)?;
    Ok(())
}

/// The number that the bytes begin with, of at most `more` bytes and then the last, and the bytes after it.
fn decode_bits(bytes: &[u8], more: u8) -> Option<(u64, &[u8])>
    ensures { SplitsOff (bits_bytes more) (λ number. number < 2 ^ 64) bytes.now result }
{
    let Some((byte, behind)) = bytes.split_first() else {
        return None;
    };
    if *byte < 128 {
        return Some((*byte as u64, behind));
    }
    if more == 0 {
        return Some((*byte as u64, behind));
    }
    let Some((high, rest)) = decode_bits(behind, more - 1) else {
        return None;
    };
    match joined(*byte, high) {
        Some(number) => Some((number, rest)),
        None => None,
    }
}

/// The number with the seven bits of a byte that is not the last, and these higher bits.
fn joined(byte: u8, high: u64) -> Option<u64>
    requires { 128 ≤ byte }
    ensures { MatchOption result (NoneHasBits byte high) (λ number. HasBits byte high number) }
{
    if high == 0 {
        return None;
    }
    if high >= 1 << 57 {
        return None;
    }
    Some(high * 128 + (byte - 128) as u64)
}
