//! Kinds of keys, each with a key for each number.
use merkle_bytes::Decode;
use merkle_digest::{HashBytes, Key};
use std::alloc::{AllocError, Global};

/// A kind of keys, with a key for each number.
pub trait Sample: Key + Decode + HashBytes {
    /// The key of a number.
    fn of(alloc: Global, number: u64) -> Result<Self, AllocError>;
}

/// A text of nine letters.
impl Sample for String {
    fn of(alloc: Global, number: u64) -> Result<Self, AllocError> {
        format!(in alloc; "key{number:06}")
    }
}

/// The three lowest bytes of the number and, in turn, 0 to 4 bytes more.
impl Sample for Vec<u8> {
    fn of(alloc: Global, number: u64) -> Result<Self, AllocError> {
        let mut bytes = Vec::from_slice(alloc, &number.to_be_bytes()[5..])?;
        for _ in 0..number % 5 {
            bytes.push(7)?;
        }
        Ok(bytes)
    }
}

/// The eight bytes of the number, the highest first.
impl Sample for [u8; 8] {
    fn of(_alloc: Global, number: u64) -> Result<Self, AllocError> {
        Ok(number.to_be_bytes())
    }
}
