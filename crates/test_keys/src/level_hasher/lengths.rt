//! The kinds of keys and the lengths of digests that the level hasher hashes.

ghost use Rattle.std.specs.Prelude.{◌≡◌};
ghost use Rattle.std.specs.Cmp.Rules.{comparing};
ghost use Rattle.std.proofs.Common.{ap, lit<, refl, rules};
ghost use Rattle.std.proofs.lemmas.Bool.{eqb-true};
ghost use Rattle.test_keys.specs.LevelBytes.{level_byte, value_byte, bytes_from, level_bytes, level_bytes-same};

use super::{LevelHasher, Value, level_digest, level_of, value_digest};
use crate::descending::DescendingNumber;
use crate::keys::CaselessText;
use merkle_digest::{Digest, Hasher};

impl Hasher<32, [u8; 2]> for LevelHasher<[u8; 2]> {
    ghost digest_of = { level_bytes 32 ⟦<[u8; 2] as PartialEq>⟧.eq };

    ghost respects_eq = { level_bytes-same 32 ⟦<[u8; 2] as PartialEq>⟧.eq (Prim.search (comparing, rules)) };

    ghost fits = { lit< tt };

    fn hash(&self, key: &[u8; 2]) -> Digest<32> {
        level_digest(level_of(&self.levels, key))
    }
}

impl Hasher<200, [u8; 2]> for LevelHasher<[u8; 2]> {
    ghost digest_of = { level_bytes 200 ⟦<[u8; 2] as PartialEq>⟧.eq };

    ghost respects_eq = { level_bytes-same 200 ⟦<[u8; 2] as PartialEq>⟧.eq (Prim.search (comparing, rules)) };

    ghost fits = { lit< tt };

    fn hash(&self, key: &[u8; 2]) -> Digest<200> {
        level_digest(level_of(&self.levels, key))
    }
}

impl Hasher<32, DescendingNumber> for LevelHasher<DescendingNumber> {
    ghost digest_of = { level_bytes 32 ⟦<DescendingNumber as PartialEq>⟧.eq };

    ghost respects_eq = { level_bytes-same 32 ⟦<DescendingNumber as PartialEq>⟧.eq (Prim.search (comparing, rules)) };

    ghost fits = { lit< tt };

    fn hash(&self, key: &DescendingNumber) -> Digest<32> {
        level_digest(level_of(&self.levels, key))
    }
}

impl Hasher<32, CaselessText> for LevelHasher<CaselessText> {
    ghost digest_of = { level_bytes 32 ⟦<CaselessText as PartialEq>⟧.eq };

    ghost respects_eq = { level_bytes-same 32 ⟦<CaselessText as PartialEq>⟧.eq (Prim.search (comparing, rules)) };

    ghost fits = { lit< tt };

    fn hash(&self, key: &CaselessText) -> Digest<32> {
        level_digest(level_of(&self.levels, key))
    }
}

impl Hasher<0, String> for LevelHasher<String> {
    ghost digest_of = { level_bytes 0 ⟦<String as PartialEq>⟧.eq };

    ghost respects_eq = { level_bytes-same 0 ⟦<String as PartialEq>⟧.eq (Prim.search (comparing, rules)) };

    ghost fits = { lit< tt };

    fn hash(&self, key: &String) -> Digest<0> {
        level_digest(level_of(&self.levels, key))
    }
}

impl Hasher<1, String> for LevelHasher<String> {
    ghost digest_of = { level_bytes 1 ⟦<String as PartialEq>⟧.eq };

    ghost respects_eq = { level_bytes-same 1 ⟦<String as PartialEq>⟧.eq (Prim.search (comparing, rules)) };

    ghost fits = { lit< tt };

    fn hash(&self, key: &String) -> Digest<1> {
        level_digest(level_of(&self.levels, key))
    }
}

impl<K> Hasher<0, Value> for LevelHasher<K> {
    ghost digest_of = { λ hasher value. bytes_from (value_byte value.number) 0 0 };

    ghost respects_eq = { λ hasher a b equal. ap (λ number. bytes_from (value_byte number) 0 0) (eqb-true a.number b.number equal) };

    ghost fits = { lit< tt };

    fn hash(&self, value: &Value) -> Digest<0> {
        value_digest(value.number)
    }
}

impl<K> Hasher<1, Value> for LevelHasher<K> {
    ghost digest_of = { λ hasher value. bytes_from (value_byte value.number) 1 0 };

    ghost respects_eq = { λ hasher a b equal. ap (λ number. bytes_from (value_byte number) 1 0) (eqb-true a.number b.number equal) };

    ghost fits = { lit< tt };

    fn hash(&self, value: &Value) -> Digest<1> {
        value_digest(value.number)
    }
}

impl<K> Hasher<32, Value> for LevelHasher<K> {
    ghost digest_of = { λ hasher value. bytes_from (value_byte value.number) 32 0 };

    ghost respects_eq = { λ hasher a b equal. ap (λ number. bytes_from (value_byte number) 32 0) (eqb-true a.number b.number equal) };

    ghost fits = { lit< tt };

    fn hash(&self, value: &Value) -> Digest<32> {
        value_digest(value.number)
    }
}

impl<K> Hasher<32, u64> for LevelHasher<K> {
    ghost digest_of = { λ hasher number. bytes_from (value_byte number) 32 0 };

    ghost respects_eq = { λ hasher a b equal. ap (λ number. bytes_from (value_byte number) 32 0) (eqb-true a b equal) };

    ghost fits = { lit< tt };

    fn hash(&self, number: &u64) -> Digest<32> {
        value_digest(*number)
    }
}

impl<K> Hasher<32, ()> for LevelHasher<K> {
    ghost digest_of = { λ hasher value. bytes_from (level_byte 0) 32 0 };

    ghost respects_eq = { λ hasher a b equal. refl };

    ghost fits = { lit< tt };

    fn hash(&self, _value: &()) -> Digest<32> {
        level_digest(0)
    }
}

impl<K> Hasher<200, Value> for LevelHasher<K> {
    ghost digest_of = { λ hasher value. bytes_from (value_byte value.number) 200 0 };

    ghost respects_eq = { λ hasher a b equal. ap (λ number. bytes_from (value_byte number) 200 0) (eqb-true a.number b.number equal) };

    ghost fits = { lit< tt };

    fn hash(&self, value: &Value) -> Digest<200> {
        value_digest(value.number)
    }
}
