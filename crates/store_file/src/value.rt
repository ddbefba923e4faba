//! Values: byte strings, of which those in UTF-8 are texts.
ghost use Rattle.std.specs.Prelude.{◌≡◌, nat_eq, true};
ghost use Rattle.std.specs.Cmp.{partial_order_from_own_ties};
ghost use Rattle.std.specs.Cmp.Lexicographic.{pointwise, slice_cmp};
ghost use Rattle.std.specs.Cmp.Rules.{comparing};
ghost use Rattle.std.specs.Ordering.{nat_cmp, on, then_cmp, eq_of_both, as_partial_cmp};
ghost use Rattle.std.proofs.Common.{rules};
ghost use Rattle.store_file.specs.Values.{bytes_of_value, kind_mark, value_eq, IsValueOf};

use std::alloc::AllocError;
use std::cmp::Ordering;

/// A value: bytes in the one form that they have, which [`Value::of`] makes. Each text is less than all other bytes, as SQLite sorts TEXT below
/// BLOB, and within a kind the greater bytes are the greater value.
#[derive(Debug, Drop)]
pub enum Value {
    /// A text.
    Text(String),
    /// Bytes that aren't UTF-8.
    Bytes(Vec<u8>),
}

impl Value {
    /// The value of these bytes: a text where they are UTF-8, and else the bytes. It takes no memory.
    pub fn of(bytes: Vec<u8>) -> Value
        ensures { IsValueOf bytes.items result }
    {
        match String::from_utf8(bytes) {
            Ok(text) => Value::Text(text),
            Err(error) => Value::Bytes(error.into_bytes()),
        }
    }

    /// Its bytes.
    pub fn as_bytes(&self) -> &[u8]
        ensures { result.now ≡ bytes_of_value self.now }
    {
        match self {
            Value::Text(text) => text.as_bytes(),
            Value::Bytes(bytes) => bytes.as_slice(),
        }
    }

    /// What is before its bytes in a message, and in what is hashed: 1 for a text, 2 for other bytes.
    pub(crate) fn mark(&self) -> u8
        ensures { result ≡ kind_mark self.now }
    {
        match self {
            Value::Text(_) => 1,
            Value::Bytes(_) => 2,
        }
    }
}

/// An equal value, in memory of its own.
impl Clone for Value {
    ghost is_clone = { λ value copy. value_eq copy value ≡ true };

    fn clone(&self) -> Result<Self, AllocError> {
        match self {
            Value::Text(text) => Ok(Value::Text(text.clone()?)),
            Value::Bytes(bytes) => Ok(Value::Bytes(bytes.clone()?)),
        }
    }
}

// (equality and order are written out, so that definitions can name them)
impl PartialEq for Value {
    ghost eq = { eq_of_both (on kind_mark nat_eq) (on bytes_of_value (pointwise nat_eq)) };

    ghost laws = { Prim.search (comparing, rules) };

    fn eq(&self, other: &Self) -> bool {
        self.mark() == other.mark() && self.as_bytes() == other.as_bytes()
    }
}

impl Eq for Value {
    ghost laws = { Prim.search (comparing, rules) };
}

impl Ord for Value {
    ghost cmp = { then_cmp (on kind_mark nat_cmp) (on bytes_of_value (slice_cmp nat_cmp)) };

    ghost total = { Prim.search (comparing, rules) };

    ghost matches_partial_cmp = { Prim.search (comparing, rules) };

    ghost matches_eq = { Prim.search (comparing, rules) };

    fn cmp(&self, other: &Self) -> Ordering {
        let kinds = self.mark().cmp(&other.mark());
        kinds.then(self.as_bytes().cmp(other.as_bytes()))
    }
}

impl PartialOrd for Value {
    ghost partial_cmp = { as_partial_cmp (then_cmp (on kind_mark nat_cmp) (on bytes_of_value (slice_cmp nat_cmp))) };

    ghost laws = { partial_order_from_own_ties (Prim.search (comparing, rules)) (Prim.search (comparing, rules)) };

    fn partial_cmp(&self, other: &Self) -> Option<Ordering> {
        Some(self.cmp(other))
    }
}
