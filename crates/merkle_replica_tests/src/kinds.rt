//! Maps of two kinds of keys: texts and byte strings.

use merkle_digest::{HashBytes, Key, SipHasher};
use merkle_replica::Replica;
use std::alloc::{AllocError, Global};

/// A kind of keys, which are in the order of their numbers.
pub trait Kind: Key + HashBytes {
    /// The key of a number.
    fn of(alloc: Global, number: u16) -> Result<Self, AllocError>;
}

/// The number in five digits.
impl Kind for String {
    fn of(alloc: Global, number: u16) -> Result<Self, AllocError> {
        format!(in alloc; "{number:05}")
    }
}

/// The two bytes of the number, the highest first, and up to two zeros.
impl Kind for Vec<u8> {
    fn of(alloc: Global, number: u16) -> Result<Self, AllocError> {
        let mut bytes = Vec::from_array(alloc, number.to_be_bytes())?;
        for _ in 0..number % 3 {
            bytes.push(0)?;
        }
        Ok(bytes)
    }
}

/// A map of a kind of keys.
pub type Map<K> = Replica<K, u64, SipHasher, 16>;

/// Puts a row.
pub fn put<K: Kind + Drop>(
    alloc: Global,
    map: &mut Map<K>,
    number: u16,
    value: u64,
) -> Result<(), AllocError> {
    map.put(K::of(alloc, number)?, value)
}

/// Takes a row out, and tells whether it was there.
pub fn del<K: Kind + Drop>(
    alloc: Global,
    map: &mut Map<K>,
    number: u16,
) -> Result<bool, AllocError> {
    map.del(&K::of(alloc, number)?)
}
