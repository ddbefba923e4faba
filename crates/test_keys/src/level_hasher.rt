//! The hasher of the tests.

ghost use Rattle.std.specs.Prelude.{◌≡◌, slice_index_or};
ghost use Rattle.test_keys.specs.LevelBytes.{level_at, level_byte, value_byte, bytes_from};

mod lengths;

use merkle_digest::Digest;
use std::alloc::AllocError;
use std::marker::Model;

/// A hasher that puts keys on given levels in base 16. The digest of a key on level n is n / 2 zero bytes, then `f0` if n is odd,
/// then bytes `01`. Values are hashed as the first of their bytes, filled with `01`.
///
/// It hashes the kinds of keys and the lengths of digests that the tests use.
pub struct LevelHasher<K> {
    levels: Vec<(K, u8)>,
}

// Written out, so that a caller doesn't prove again how each part is dropped.
impl<K: Drop> Drop for LevelHasher<K> {
    fn drop(self) {
        let LevelHasher { levels: _ } = self;
    }
}

impl<K> Model for LevelHasher<K> {
    ghost use Rattle.std.specs.Prelude.{ℕ, List};
    ghost use Rattle.std.specs.Coded.{coded_ℕ, coded_list, coded×};

    ghost Value = { List (K × ℕ) };

    ghost coded = { coded_list (coded× K.code coded_ℕ) };

    ghost view = { λ hasher. hasher.levels.items };
}

impl<K> LevelHasher<K> {
    /// The hasher that puts each of these keys on its level, and every other key on level 0.
    pub fn new(levels: Vec<(K, u8)>) -> Self
        ensures { result ≡ levels.items }
    {
        LevelHasher { levels }
    }
}

/// The hasher with the same levels.
impl Clone for LevelHasher<[u8; 2]> {
    ghost use Rattle.std.specs.Prelude.{◌≡◌};

    ghost is_clone = { λ hasher copy. copy ≡ hasher };

    ghost is_infallible = { λ _. ⊥ };

    fn clone(&self) -> Result<Self, AllocError> {
        Ok(LevelHasher {
            levels: self.levels.clone()?,
        })
    }
}

/// The level at a key.
fn level_of<K: Eq>(levels: &[(K, u8)], key: &K) -> u8
    ensures { result ≡ level_at K.eq levels.now key.now }
{
    'levels: for i in 0..levels.len() {
        let (other, level) = &levels[i];
        if *other == *key {
            return *level;
        }
    }
    0
}

/// The byte at a place of a digest on a level.
fn byte_on_level(level: u8, place: usize) -> u8
    ensures { result ≡ level_byte level place }
{
    let zeros = (level / 2) as usize;
    if place < zeros {
        0
    } else if place == zeros && level % 2 == 1 {
        0xf0
    } else {
        1
    }
}

/// A digest on a level in base 16.
fn level_digest<const N: usize>(level: u8) -> Digest<N>
    ensures { result ≡ bytes_from (level_byte level) N 0 }
{
    let mut bytes = [1; N];
    'bytes: for i in 0..N {
        bytes[i] = byte_on_level(level, i);
    }
    Digest::new(bytes)
}

/// A value of the tests.
#[derive(Clone, Copy, PartialEq, Eq)]
pub struct Value {
    /// The number, of which the value has the eight bytes, the lowest first.
    pub number: u64,
}

/// The byte at a place, or 1 past the end.
fn byte_or_one(bytes: &[u8], place: usize) -> u8
    ensures { result ≡ slice_index_or bytes.now place 1 }
{
    if place < bytes.len() { bytes[place] } else { 1 }
}

/// The digest of a value.
fn value_digest<const N: usize>(value: u64) -> Digest<N>
    ensures { result ≡ bytes_from (value_byte value) N 0 }
{
    let own = value.to_le_bytes();
    let mut bytes = [1; N];
    'bytes: for i in 0..N {
        bytes[i] = byte_or_one(&own, i);
    }
    Digest::new(bytes)
}
