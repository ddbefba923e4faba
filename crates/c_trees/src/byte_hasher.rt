//! The hasher of byte strings.
ghost use Rattle.std.specs.Prelude.{◌≡◌, ⊤, ◌++◌};
ghost use Rattle.std.specs.Cmp.Lexicographic.{same_text};
ghost use Rattle.std.proofs.Common.{ap, sym, lit<};
ghost use Rattle.merkle_digest.specs.SipHash.{siphash128};
ghost use Rattle.c_trees.specs.Keys.{Hashing, key_digest};

use merkle_digest::{Digest, Hasher, Sip24};
use std::alloc::AllocError;
use std::marker::Model;

/// SipHash of what is fed of a key. In place of a value it takes the value's digest, so that the value is hashed where it lies.
#[derive(Drop)]
pub struct ByteHasher {
    key: [u8; 16],
    /// How keys are fed: [`TEXT`], [`VECTOR`], or any other number for their bytes alone.
    feed: u8,
}

/// A key's bytes, and after them the byte 255, as `Hash` of Rust feeds a `str`.
const TEXT: u8 = 1;
/// How many bytes a key has, and its bytes, as `Hash` of Rust feeds a `Vec<u8>`.
const VECTOR: u8 = 2;

impl Model for ByteHasher {
    ghost Value = { Hashing };

    ghost view = { λ hasher. record { key = hasher.key; feed = hasher.feed } };

    ghost inverse = { λ hashing. record { key = hashing.key; feed = hashing.feed } };
}

impl ByteHasher {
    /// The hasher with this key of SipHash and this way of feeding keys.
    pub fn new(key: &[u8; 16], feed: u8) -> Self
        ensures { result ≡ record { key = key.now; feed = feed } }
    {
        ByteHasher { key: *key, feed }
    }

    /// SipHash of these bytes.
    pub fn hash_bytes(&self, bytes: &[u8]) -> [u8; 16]
        ensures { result ≡ siphash128 self.now.key bytes.now }
    {
        let mut sip = Sip24::with_key(&self.key);
        sip.write(bytes);
        sip.finish128()
    }

    /// SipHash of these bytes, one part after the other.
    fn hash_parts(&self, front: &[u8], behind: &[u8]) -> [u8; 16]
        ensures { result ≡ siphash128 self.now.key (front.now ++ behind.now) }
    {
        let mut sip = Sip24::with_key(&self.key);
        sip.write(front);
        sip.write(behind);
        sip.finish128()
    }

    /// SipHash of what is fed of a key.
    fn hash_key(&self, key: &[u8]) -> [u8; 16]
        ensures { result ≡ key_digest self.now key.now }
    {
        if self.feed == TEXT {
            self.hash_parts(key, &[255])
        } else if self.feed == VECTOR {
            self.hash_parts(&(key.len() as u64).to_le_bytes(), key)
        } else {
            self.hash_bytes(key)
        }
    }
}

/// The hasher with the same key and the same way of feeding keys, for which no memory is taken.
impl Clone for ByteHasher {
    ghost is_clone = { λ hasher copy. copy ≡ hasher };

    ghost is_infallible = { λ _. ⊤ };

    fn clone(&self) -> Result<Self, AllocError> {
        Ok(ByteHasher {
            key: self.key,
            feed: self.feed,
        })
    }
}

/// SipHash of what is fed of the key.
impl Hasher<16, Vec<u8>> for ByteHasher {
    ghost digest_of = { λ hashing key. key_digest hashing key.items };

    ghost respects_eq = { λ hashing a b equal. ap (key_digest hashing) (same_text a.items b.items (sym equal)) };

    ghost fits = { lit< tt };

    fn hash(&self, value: &Vec<u8>) -> Digest<16> {
        Digest::new(self.hash_key(value.as_slice()))
    }
}

/// The value's digest itself.
impl Hasher<16, [u8; 16]> for ByteHasher {
    ghost digest_of = { λ _ digest. digest };

    ghost respects_eq = { λ _ a b equal. same_text a b (sym equal) };

    ghost fits = { lit< tt };

    fn hash(&self, value: &[u8; 16]) -> Digest<16> {
        Digest::new(*value)
    }
}
