//! Keys whose clones are the same keys.

ghost use Rattle.key_order.specs.Order.{Same};
ghost use Rattle.key_order.proofs.Clones.{string_clone, str_clone, vec_clone, array_clone, unsigned_clone, signed_clone};

use crate::key_bytes::KeyBytes;

/// A key whose clones are the same key: each implementation proves that a clone of a key equals it by the order of keys. Its law is
/// what a call that clones keys knows of the clones, so such a call has no condition on them.
///
/// For a type whose clones are the values themselves the law is `key_order`'s lemma `exact_clone` of the order and its laws.
pub trait SameClone: Ord + Clone {
    /// A clone of a key is the same key.
    ghost clone_is_same: { (a b : Self) → Self.is_clone a b → Same Self.cmp a b };
}

/// A key of a tree or a replica that is cloned: every key that has bytes and whose clones are the same key is one.
pub trait Key: SameClone + KeyBytes {}

impl<K: SameClone + KeyBytes> Key for K {}

/// A clone of a text has its bytes.
impl SameClone for String {
    ghost clone_is_same = { string_clone };
}

/// A clone of a borrowed text is that text.
impl SameClone for &str {
    ghost clone_is_same = { str_clone };
}

/// A clone of a vector of bytes has its bytes.
impl SameClone for Vec<u8> {
    ghost clone_is_same = { vec_clone };
}

/// A clone of a slice of bytes is that slice.
impl SameClone for &[u8] {
    ghost clone_is_same = { str_clone };
}

/// A clone of an array of bytes has its bytes.
impl<const M: usize> SameClone for [u8; M] {
    ghost clone_is_same = { array_clone M };
}

/// A clone of a number is that number.
impl SameClone for u8 {
    ghost clone_is_same = { unsigned_clone };
}

/// A clone of a number is that number.
impl SameClone for u16 {
    ghost clone_is_same = { unsigned_clone };
}

/// A clone of a number is that number.
impl SameClone for u32 {
    ghost clone_is_same = { unsigned_clone };
}

/// A clone of a number is that number.
impl SameClone for u64 {
    ghost clone_is_same = { unsigned_clone };
}

/// A clone of a number is that number.
impl SameClone for u128 {
    ghost clone_is_same = { unsigned_clone };
}

/// A clone of a number is that number.
impl SameClone for usize {
    ghost clone_is_same = { unsigned_clone };
}

/// A clone of a number is that number.
impl SameClone for i8 {
    ghost clone_is_same = { signed_clone };
}

/// A clone of a number is that number.
impl SameClone for i16 {
    ghost clone_is_same = { signed_clone };
}

/// A clone of a number is that number.
impl SameClone for i32 {
    ghost clone_is_same = { signed_clone };
}

/// A clone of a number is that number.
impl SameClone for i64 {
    ghost clone_is_same = { signed_clone };
}

/// A clone of a number is that number.
impl SameClone for i128 {
    ghost clone_is_same = { signed_clone };
}

/// A clone of a number is that number.
impl SameClone for isize {
    ghost clone_is_same = { signed_clone };
}

/// A clone of a character is that character.
impl SameClone for char {
    ghost clone_is_same = { unsigned_clone };
}
