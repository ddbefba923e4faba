//! A byte as itself, and larger numbers as counts.
ghost use Rattle.std.specs.Prelude.{◌≡◌, ◌<◌, ◌^◌, ◌∷◌, ◌++◌, [], ⊤, IfOk, IfErr};
ghost use Rattle.merkle_bytes.specs.Counts.{count_bytes, count_some};
ghost use Rattle.merkle_bytes.specs.Reading.{FindsNo};
ghost use Rattle.merkle_bytes.specs.Refusals.{IsRefusal};
ghost use Rattle.merkle_bytes.specs.Telling.{number_told, byte_told, unit_told, some_byte};

use crate::counts::encode_count;
use crate::decode::Decode;
use crate::encode::Encode;
use crate::error::{Expected, ReadError};
use crate::reader::Reader;
use std::alloc::AllocError;

/// The byte itself.
impl Encode for u8 {
    ghost encoding = { λ n. n ∷ [] };

    fn encode(&self, bytes: &mut Vec<u8>) -> Result<(), AllocError> {
        bytes.extend_from_slice(&[*self])
    }
}

impl Decode for u8 {
    ghost is_value = { λ n. n < 2 ^ 8 };

    ghost some = { some_byte };

    ghost told = { byte_told };

    fn decode(reader: &mut Reader<'_>) -> Result<Self, ReadError> {
        let [byte] = reader.array::<1>()?;
        Ok(byte)
    }
}

/// A byte 0.
impl Encode for () {
    ghost encoding = { λ _. 0 ∷ [] };

    fn encode(&self, bytes: &mut Vec<u8>) -> Result<(), AllocError> {
        bytes.extend_from_slice(&[0])
    }
}

impl Decode for () {
    ghost is_value = { λ _. ⊤ };

    ghost some = { λ _. some_byte 0 };

    ghost told = { λ _ _ r s. unit_told r s };

    fn decode(reader: &mut Reader<'_>) -> Result<Self, ReadError> {
        let Some((byte, _)) = reader.left().split_first() else {
            return Err(reader.unexpected(Expected::Bytes(1)));
        };
        if *byte != 0 {
            return Err(reader.unexpected(Expected::Flag));
        }
        let [_] = reader.array::<1>()?;
        Ok(())
    }
}

/// The number as a count.
impl Encode for u16 {
    ghost encoding = { count_bytes };

    fn encode(&self, bytes: &mut Vec<u8>) -> Result<(), AllocError> {
        encode_count(*self as u64, bytes)
    }
}

impl Decode for u16 {
    ghost is_value = { λ n. n < 2 ^ 16 };

    ghost some = { count_some };

    ghost told = { number_told };

    fn decode(reader: &mut Reader<'_>) -> Result<Self, ReadError> {
        let number = number_below(65_536, reader)?;
        Ok(number as u16)
    }
}

/// The number as a count.
impl Encode for u32 {
    ghost encoding = { count_bytes };

    fn encode(&self, bytes: &mut Vec<u8>) -> Result<(), AllocError> {
        encode_count(*self as u64, bytes)
    }
}

impl Decode for u32 {
    ghost is_value = { λ n. n < 2 ^ 32 };

    ghost some = { count_some };

    ghost told = { number_told };

    fn decode(reader: &mut Reader<'_>) -> Result<Self, ReadError> {
        let number = number_below(4_294_967_296, reader)?;
        Ok(number as u32)
    }
}

/// The number as a count.
impl Encode for u64 {
    ghost encoding = { count_bytes };

    fn encode(&self, bytes: &mut Vec<u8>) -> Result<(), AllocError> {
        encode_count(*self, bytes)
    }
}

impl Decode for u64 {
    ghost is_value = { λ n. n < 2 ^ 64 };

    ghost some = { count_some };

    ghost told = { number_told };

    fn decode(reader: &mut Reader<'_>) -> Result<Self, ReadError> {
        reader.count()
    }
}

/// The next count, where it is below the limit.
fn number_below(limit: u64, reader: &mut Reader<'_>) -> Result<u64, ReadError>
    ensures read { IfOk result (λ number. reader.old.left.now ≡ count_bytes number ++ reader.new.left.now) }
    ensures below { IfOk result (λ number. number < limit) }
    ensures total { reader.new.total ≡ reader.old.total }
    ensures refused { IfErr result (IsRefusal reader.old.total reader.old.left.now) }
    ensures malformed { IfErr result (FindsNo count_bytes (λ number. number < limit) reader.old) }
{
    let number = reader.count()?;
    if number < limit {
        Ok(number)
    } else {
        Err(reader.unexpected(Expected::Number))
    }
}
