//! The level that a digest gives to its key.

ghost use Rattle.std.specs.Prelude.{◌≡◌};
ghost use Rattle.std.specs.Int.NonZero.{non_zero_u8_get};
ghost use Rattle.merkle_digest.specs.Level.{level_of};

use crate::digest::Digest;
use std::num::NonZeroU8;

/// The level of a digest in a base, from 0 to 255: two for each zero byte at its front, and one more where the base divides the
/// byte after them. A level above 255 counts as 255, and a digest of no bytes has level 0.
///
/// In base 16 it is the number of zeros at the front of the digest's base 16 digits, the lower digit of each byte first. So a key of a
/// good hash function is on level 1 or above with a chance of about one in 16 (Auvolat and Taïani). It reads the digest up to its
/// first byte that isn't zero.
///
/// ```rust crates/merkle_digest_tests/src/shown.rt
/// let digest = Digest::new([0x00, 0x10, 0x00, 0x11]);
/// assert_eq!(rt; level(&digest, default_level_base()), 3);
/// ```
pub fn level<const N: usize>(digest: &Digest<N>, base: NonZeroU8) -> u8
    ensures { result ≡ level_of digest.now (non_zero_u8_get base) }
{
    level_of_bytes(digest.as_bytes(), base)
}

fn level_of_bytes(bytes: &[u8], base: NonZeroU8) -> u8
    ensures { result ≡ level_of bytes.now (non_zero_u8_get base) }
{
    let mut level: u8 = 0;
    'zeros: for byte in bytes {
        if *byte != 0 {
            let divides = *byte % base.get() == 0;
            return level.saturating_add(u8::from(divides));
        }
        level = level.saturating_add(2);
    }
    level
}

/// The base of levels in a tree that is given none: 16.
pub fn default_level_base() -> NonZeroU8
    ensures { non_zero_u8_get result ≡ 16 }
{
    match NonZeroU8::new(16) {
        Some(base) => base,
        None => unreachable!(),
    }
}
