//! Kinds of keys.

ghost use Rattle.std.specs.Prelude.{◌≡◌, List, ◌++◌, true, nat_eq, IfOk};
ghost use Rattle.std.specs.Int.{w16, to_be_bytes};
ghost use Rattle.std.specs.String.{string_bytes};
ghost use Rattle.std.specs.Str.{str_to_ascii_lowercase};
ghost use Rattle.std.specs.Ordering.{nat_cmp, as_partial_cmp, on};
ghost use Rattle.std.specs.Cmp.Lexicographic.{pointwise, slice_cmp, same_text};
ghost use Rattle.std.specs.Cmp.Rules.{comparing};
ghost use Rattle.std.proofs.Common.{rules, sym};
ghost use Rattle.merkle_digest.specs.Sip24.{Holds};

use merkle_digest::{HashBytes, KeyBytes, Sip24};
use std::alloc::{AllocError, Global};
use std::cmp::Ordering;

/// The number as a key of two bytes, the highest first, so that keys are in the order of the numbers.
pub fn number_key(number: u16) -> [u8; 2]
    ensures { result ≡ to_be_bytes w16 number }
{
    number.to_be_bytes()
}

/// A text as a key, where only the case of ASCII letters makes no difference: two keys are equal when their lower-case texts are,
/// and it gives the bytes of its lower-case text.
#[derive(Drop)]
pub struct CaselessText {
    lower: Vec<u8>,
    /// The text as it was given.
    pub shown: String,
}

impl CaselessText {
    /// The key with this text.
    pub fn new(alloc: Global, text: &str) -> Result<Self, AllocError>
        ensures bytes { IfOk result (λ key. ⟦<CaselessText as KeyBytes>⟧.bytes_of key ≡ str_to_ascii_lowercase text.now) }
        ensures shown { IfOk result (λ key. string_bytes key.shown ≡ text.now) }
    {
        let lower: Vec<u8> = text
            .as_bytes()
            .iter()
            .map(|byte| byte.to_ascii_lowercase())
            .collect(alloc)?;
        let mut shown = String::new(alloc);
        shown.push_str(text)?;
        Ok(CaselessText { lower, shown })
    }
}

impl PartialEq for CaselessText {
    ghost eq = { on (λ key. key.lower.items) (pointwise nat_eq) };

    ghost laws = { Prim.search (comparing, rules) };

    fn eq(&self, other: &Self) -> bool {
        self.lower == other.lower
    }
}

impl Eq for CaselessText {
    ghost laws = { Prim.search (comparing, rules) };
}

impl Ord for CaselessText {
    ghost cmp = { on (λ key. key.lower.items) (slice_cmp nat_cmp) };

    ghost total = { Prim.search (comparing, rules) };

    ghost matches_partial_cmp = { Prim.search (comparing, rules) };

    ghost matches_eq = { Prim.search (comparing, rules) };

    fn cmp(&self, other: &Self) -> Ordering {
        self.lower.cmp(&other.lower)
    }
}

impl PartialOrd for CaselessText {
    ghost partial_cmp = { on (λ key. key.lower.items) (as_partial_cmp (slice_cmp nat_cmp)) };

    ghost laws = { Prim.search (comparing, rules) };

    fn partial_cmp(&self, other: &Self) -> Option<Ordering> {
        Some(self.cmp(other))
    }
}

/// The bytes of the lower-case text.
impl KeyBytes for CaselessText {
    ghost bytes_of = { λ key. key.lower.items };

    ghost bytes_respect_eq = { λ a b equal. same_text a.lower.items b.lower.items (sym equal) };

    fn key_bytes(&self) -> &[u8] {
        self.lower.as_slice()
    }
}

/// The bytes of the lower-case text.
impl HashBytes for CaselessText {
    ghost fed_bytes = { λ key. key.lower.items };

    ghost fed_bytes_respect_eq = { λ a b equal. same_text a.lower.items b.lower.items (sym equal) };

    fn feed(&self, sip: &mut Sip24) {
        sip.write(self.lower.as_slice());
    }
}
