//! Digests by what they are of: a value, a page, the root page.

ghost use Rattle.std.specs.Prelude.{◌≡◌, ◌↔◌, ⊤, ℕ, List, Some, IsTrue, nat_eq};
ghost use Rattle.std.specs.Cmp.Lexicographic.{pointwise};
ghost use Rattle.std.specs.Cmp.Rules.{comparing};
ghost use Rattle.std.proofs.Common.{rules};
ghost use Rattle.merkle_digest.specs.Digest.{base64_of};

use crate::digest::Digest;
use std::alloc::AllocError;
use std::fmt;
use std::marker::Model;

/// The digest of the root page of a tree, 16 bytes, which stands for all that the tree holds: under one hasher, level base and page
/// format, trees of equal keys and values have equal root hashes. The converse holds only as far as no digests collide, and in page
/// format 1 only as far as streams are unequal, too. It prints as a [`Digest`] does.
#[derive(Debug, Drop, Eq)]
pub struct RootHash {
    digest: Digest<16>,
}

impl Model for RootHash {
    ghost Value = { List ℕ };

    ghost view = { λ root_hash. root_hash.digest };

    ghost inverse = { λ bytes. record { digest = bytes } };
}

impl RootHash {
    /// The root hash of a tree whose root page has this digest.
    pub fn new(page: PageDigest) -> Self
        ensures { result ≡ page }
    {
        RootHash {
            digest: page.digest,
        }
    }

    /// The digest itself.
    pub fn digest(&self) -> &Digest<16>
        ensures { result.now ≡ self.now }
    {
        &self.digest
    }

    /// The 16 bytes of the digest.
    pub fn as_bytes(&self) -> &[u8; 16]
        ensures { result.now ≡ self.now }
    {
        self.digest.as_bytes()
    }
}

/// The same digest, for which no memory is taken.
impl Clone for RootHash {
    ghost is_clone = { λ root_hash copy. copy ≡ root_hash };

    ghost is_infallible = { λ _. ⊤ };

    fn clone(&self) -> Result<Self, AllocError> {
        Ok(RootHash {
            digest: Digest::new(*self.as_bytes()),
        })
    }
}

impl PartialEq for RootHash {
    ghost eq = { pointwise nat_eq };

    ghost laws = { Prim.search (comparing, rules) };

    fn eq(&self, other: &Self) -> bool
        ensures value { result ≡ pointwise nat_eq self.now other.now }
        ensures same_bytes { IsTrue result ↔ (self.now ≡ other.now) }
    {
        self.digest == other.digest
    }
}

impl fmt::Display for RootHash {
    ghost output = { λ root_hash. Some (base64_of root_hash) };

    fn fmt<W: fmt::Write>(&self, f: &mut fmt::Formatter<W>) -> fmt::Result {
        fmt::Display::fmt(&self.digest, f)
    }
}

/// The digest of a page, 16 bytes: of its nodes and of every page below it. It prints as a [`Digest`] does.
#[derive(Debug, Drop, Eq)]
pub struct PageDigest {
    digest: Digest<16>,
}

impl Model for PageDigest {
    ghost Value = { List ℕ };

    ghost view = { λ page. page.digest };

    ghost inverse = { λ bytes. record { digest = bytes } };
}

impl PageDigest {
    /// The page digest of these bytes.
    pub fn new(bytes: [u8; 16]) -> Self
        ensures { result ≡ bytes }
    {
        PageDigest {
            digest: Digest::new(bytes),
        }
    }

    /// The digest itself.
    pub fn digest(&self) -> &Digest<16>
        ensures { result.now ≡ self.now }
    {
        &self.digest
    }

    /// The 16 bytes of the digest.
    pub fn as_bytes(&self) -> &[u8; 16]
        ensures { result.now ≡ self.now }
    {
        self.digest.as_bytes()
    }
}

impl From<Digest<16>> for PageDigest {
    ghost from_gives = { λ digest page. page ≡ digest };

    fn from(digest: Digest<16>) -> Self {
        PageDigest { digest }
    }
}

/// The same digest, for which no memory is taken.
impl Clone for PageDigest {
    ghost is_clone = { λ page copy. copy ≡ page };

    ghost is_infallible = { λ _. ⊤ };

    fn clone(&self) -> Result<Self, AllocError> {
        Ok(PageDigest {
            digest: Digest::new(*self.as_bytes()),
        })
    }
}

impl PartialEq for PageDigest {
    ghost eq = { pointwise nat_eq };

    ghost laws = { Prim.search (comparing, rules) };

    fn eq(&self, other: &Self) -> bool
        ensures value { result ≡ pointwise nat_eq self.now other.now }
        ensures same_bytes { IsTrue result ↔ (self.now ≡ other.now) }
    {
        self.digest == other.digest
    }
}

impl fmt::Display for PageDigest {
    ghost output = { λ page. Some (base64_of page) };

    fn fmt<W: fmt::Write>(&self, f: &mut fmt::Formatter<W>) -> fmt::Result {
        fmt::Display::fmt(&self.digest, f)
    }
}

/// The digest of a value that a tree holds under a key: `N` bytes. It prints as a [`Digest`] does.
///
/// ```rust crates/merkle_digest_tests/src/shown.rt
/// let digest = ValueDigest::new(hasher.hash(&[0u8, 1, 2]));
/// assert_eq!(rt;
///     *digest.as_bytes(),
///     0x9c70b60c5267a94e5f33b6b02985ed51u128.to_be_bytes()
/// );
/// assert_eq!(rt;
///     digest.to_string(alloc)?.as_str(),
///     "nHC2DFJnqU5fM7awKYXtUQ=="
/// );
/// ```
#[derive(Debug, Drop, Eq)]
pub struct ValueDigest<const N: usize> {
    digest: Digest<N>,
}

impl<const N: usize> Model for ValueDigest<N> {
    ghost Value = { List ℕ };

    ghost view = { λ value. value.digest };

    ghost inverse = { λ bytes. record { digest = bytes } };
}

impl<const N: usize> ValueDigest<N> {
    /// The value digest that is this digest.
    pub fn new(digest: Digest<N>) -> Self
        ensures { result ≡ digest.entry }
    {
        ValueDigest { digest }
    }

    /// The digest itself.
    pub fn digest(&self) -> &Digest<N>
        ensures { result.now ≡ self.now }
    {
        &self.digest
    }

    /// The `N` bytes of the digest.
    pub fn as_bytes(&self) -> &[u8; N]
        ensures { result.now ≡ self.now }
    {
        self.digest.as_bytes()
    }
}

/// The same digest, for which no memory is taken.
impl<const N: usize> Clone for ValueDigest<N> {
    ghost is_clone = { λ value copy. copy ≡ value };

    ghost is_infallible = { λ _. ⊤ };

    fn clone(&self) -> Result<Self, AllocError> {
        Ok(ValueDigest {
            digest: Digest::new(*self.as_bytes()),
        })
    }
}

impl<const N: usize> PartialEq for ValueDigest<N> {
    ghost eq = { pointwise nat_eq };

    ghost laws = { Prim.search (comparing, rules) };

    fn eq(&self, other: &Self) -> bool
        ensures value { result ≡ pointwise nat_eq self.now other.now }
        ensures same_bytes { IsTrue result ↔ (self.now ≡ other.now) }
    {
        self.digest == other.digest
    }
}

impl<const N: usize> fmt::Display for ValueDigest<N> {
    ghost output = { λ value. Some (base64_of value) };

    fn fmt<W: fmt::Write>(&self, f: &mut fmt::Formatter<W>) -> fmt::Result {
        fmt::Display::fmt(&self.digest, f)
    }
}
