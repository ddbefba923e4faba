//! A digest: the fixed number of bytes that a hash function answers.

ghost use Rattle.std.specs.Prelude.{◌≡◌, ◌↔◌, ⊤, ℕ, List, Some, IsTrue, nat_eq};
ghost use Rattle.std.specs.Cmp.Lexicographic.{pointwise, slice_cmp};
ghost use Rattle.std.specs.Cmp.Rules.{comparing};
ghost use Rattle.std.specs.Ordering.{nat_cmp, as_partial_cmp};
ghost use Rattle.std.proofs.Common.{rules};
ghost use Rattle.merkle_digest.specs.Digest.{base64_of};

use base64::display::Base64Display;
use base64::engine::general_purpose::STANDARD;
use std::alloc::AllocError;
use std::cmp::Ordering;
use std::fmt;
use std::marker::Model;

/// A digest of `N` bytes, as a [`Hasher`](crate::Hasher) makes it. A contract sees its bytes, so that two digests are equal
/// exactly when their bytes are. `N` may be 0.
///
/// Digests are ordered as byte arrays are, the first byte first, and print as the base64 encoding of their bytes in the
/// standard alphabet, padded (RFC 4648, section 4): 24 characters for 16 bytes. To compare two takes time linear in `N`.
#[derive(Debug, Drop, Eq)]
pub struct Digest<const N: usize> {
    bytes: [u8; N],
}

impl<const N: usize> Model for Digest<N> {
    ghost Value = { List ℕ };

    ghost view = { λ digest. digest.bytes };

    ghost inverse = { λ bytes. record { bytes = bytes } };
}

impl<const N: usize> Digest<N> {
    /// The digest of these bytes.
    pub fn new(bytes: [u8; N]) -> Self
        ensures { result ≡ bytes.entry }
    {
        Digest { bytes }
    }

    /// The bytes of the digest.
    pub fn as_bytes(&self) -> &[u8; N]
        ensures { result.now ≡ self.now }
    {
        &self.bytes
    }
}

/// The same digest, for which no memory is taken.
impl<const N: usize> Clone for Digest<N> {
    ghost is_clone = { λ digest copy. copy ≡ digest };

    ghost is_infallible = { λ _. ⊤ };

    fn clone(&self) -> Result<Self, AllocError> {
        Ok(Digest { bytes: self.bytes })
    }
}

impl<const N: usize> PartialEq for Digest<N> {
    ghost eq = { pointwise nat_eq };

    ghost laws = { Prim.search (comparing, rules) };

    fn eq(&self, other: &Self) -> bool
        ensures value { result ≡ pointwise nat_eq self.now other.now }
        ensures same_bytes { IsTrue result ↔ (self.now ≡ other.now) }
    {
        self.bytes == other.bytes
    }
}

impl<const N: usize> Ord for Digest<N> {
    ghost cmp = { slice_cmp nat_cmp };

    ghost total = { Prim.search (comparing, rules) };

    ghost matches_partial_cmp = { Prim.search (comparing, rules) };

    ghost matches_eq = { Prim.search (comparing, rules) };

    fn cmp(&self, other: &Self) -> Ordering {
        self.bytes.cmp(&other.bytes)
    }
}

impl<const N: usize> PartialOrd for Digest<N> {
    ghost partial_cmp = { as_partial_cmp (slice_cmp nat_cmp) };

    ghost laws = { Prim.search (comparing, rules) };

    fn partial_cmp(&self, other: &Self) -> Option<Ordering> {
        Some(self.cmp(other))
    }
}

impl<const N: usize> fmt::Display for Digest<N> {
    ghost output = { λ digest. Some (base64_of digest) };

    fn fmt<W: fmt::Write>(&self, f: &mut fmt::Formatter<W>) -> fmt::Result {
        fmt::Display::fmt(&Base64Display::new(&self.bytes, &STANDARD), f)
    }
}
