//! Kinds of values, each with a value for each number.
use crate::wide::Wide;
use merkle_bytes::Decode;
use merkle_digest::HashBytes;
use merkle_replica::Join;

/// A kind of values with one for each small number, of which the greater is joined to the value of the greater number.
pub trait Worth: Join + Decode + HashBytes + Copy {
    /// The value of a number.
    fn of(number: u64) -> Self;
}

/// The number, which is written in fewer bytes than a digest has.
impl Worth for u64 {
    fn of(number: u64) -> Self {
        number
    }
}

/// 32 bytes, which are more than a digest has.
impl Worth for Wide {
    fn of(number: u64) -> Self {
        Wide::of(u8::try_from(number).unwrap_or(255))
    }
}
