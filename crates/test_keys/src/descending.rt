//! Numbers as keys in the reversed order.

ghost use Rattle.std.specs.Prelude.{◌≡◌, true};
ghost use Rattle.std.specs.Int.{w16, to_be_bytes, from_be_bytes};
ghost use Rattle.std.specs.Cmp.Lexicographic.{same_text};
ghost use Rattle.std.proofs.Common.{sym};

use merkle_digest::KeyBytes;
use std::cmp::Reverse;

/// A number as a key of two bytes in the reversed order of numbers: the greatest comes first.
#[derive(PartialEq, Eq, PartialOrd, Ord, Drop)]
pub struct DescendingNumber {
    bytes: Reverse<[u8; 2]>,
}

impl DescendingNumber {
    /// The key of this number.
    pub fn new(number: u16) -> Self
        ensures { ⟦<DescendingNumber as KeyBytes>⟧.bytes_of result ≡ to_be_bytes w16 number }
    {
        DescendingNumber {
            bytes: Reverse(number.to_be_bytes()),
        }
    }

    /// The number.
    pub fn number(&self) -> u16
        ensures { result ≡ from_be_bytes w16 (⟦<DescendingNumber as KeyBytes>⟧.bytes_of self.now) }
    {
        u16::from_be_bytes(self.bytes.0)
    }
}

/// The two bytes, the highest first.
impl KeyBytes for DescendingNumber {
    ghost bytes_of = { λ key. key.bytes.0 };

    ghost bytes_respect_eq = { λ a b equal. same_text a.bytes.0 b.bytes.0 (sym equal) };

    fn key_bytes(&self) -> &[u8] {
        &self.bytes.0
    }
}
