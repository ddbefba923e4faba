//! The bytes that a value feeds to SipHash.

ghost use Rattle.std.specs.Prelude.{◌≡◌, ℕ, List, [], ◌∷◌, ◌++◌, true, string_bytes, refl};
ghost use Rattle.std.specs.Int.{w16, w32, w64, w128, to_le_bytes};
ghost use Rattle.std.proofs.Common.{sym, ap};
ghost use Rattle.std.proofs.lemmas.Bool.{eqb-true};
ghost use Rattle.std.specs.Cmp.Lexicographic.{same_text};
ghost use Rattle.merkle_digest.specs.Sip24.{Holds};

use crate::siphash::Sip24;

/// A value that can be hashed by its bytes. Each implementation states which bytes those are, and proves that equal values feed
/// equal bytes. No length and no end mark is fed.
pub trait HashBytes: Eq {
    /// The bytes that a value feeds.
    ghost fed_bytes: { Self → List ℕ };

    /// Writes the bytes of the value to the hasher.
    #[inline(always)]
    fn feed(&self, sip: &mut Sip24)
        ensures { (key written : List ℕ) → Holds sip.old key written → Holds sip.new key (written ++ fed_bytes self.now) };

    /// Equal values feed equal bytes.
    ghost fed_bytes_respect_eq: { (a b : Self) → Self.eq a b ≡ true → fed_bytes a ≡ fed_bytes b };
}

/// The UTF-8 bytes of the text.
impl HashBytes for String {
    ghost fed_bytes = { string_bytes };

    ghost fed_bytes_respect_eq = { λ a b equal. same_text (string_bytes a) (string_bytes b) (sym equal) };

    #[inline(always)]
    fn feed(&self, sip: &mut Sip24) {
        sip.write(self.as_bytes());
    }
}

/// The UTF-8 bytes of the text.
impl HashBytes for &str {
    ghost fed_bytes = { λ text. text.now };

    ghost fed_bytes_respect_eq = { λ a b equal. same_text a.now b.now (sym equal) };

    #[inline(always)]
    fn feed(&self, sip: &mut Sip24) {
        sip.write(self.as_bytes());
    }
}

/// The bytes themselves.
impl HashBytes for Vec<u8> {
    ghost fed_bytes = { λ bytes. bytes.items };

    ghost fed_bytes_respect_eq = { λ a b equal. same_text a.items b.items (sym equal) };

    #[inline(always)]
    fn feed(&self, sip: &mut Sip24) {
        sip.write(self.as_slice());
    }
}

/// The bytes themselves.
impl<const M: usize> HashBytes for [u8; M] {
    ghost fed_bytes = { λ bytes. bytes };

    ghost fed_bytes_respect_eq = { λ a b equal. same_text a b (sym equal) };

    #[inline(always)]
    fn feed(&self, sip: &mut Sip24) {
        sip.write(self);
    }
}

/// The bytes themselves.
impl HashBytes for &[u8] {
    ghost fed_bytes = { λ bytes. bytes.now };

    ghost fed_bytes_respect_eq = { λ a b equal. same_text a.now b.now (sym equal) };

    #[inline(always)]
    fn feed(&self, sip: &mut Sip24) {
        sip.write(self);
    }
}

/// The byte 1 for true, and 0 for false.
impl HashBytes for bool {
    ghost use Rattle.std.specs.Prelude.{cond};
    ghost use Rattle.std.specs.Cmp.{booleans_Decides};

    ghost fed_bytes = { λ test. cond test 1 0 ∷ [] };

    ghost fed_bytes_respect_eq = { λ a b equal. ap (λ test. cond test 1 0 ∷ []) ((booleans_Decides a b).0 equal) };

    #[inline(always)]
    fn feed(&self, sip: &mut Sip24) {
        let byte = if *self { 1 } else { 0 };
        sip.write(&[byte]);
    }
}

/// The byte itself.
impl HashBytes for u8 {
    ghost fed_bytes = { λ n. n ∷ [] };

    ghost fed_bytes_respect_eq = { λ a b equal. ap (λ n. n ∷ []) (eqb-true a b equal) };

    #[inline(always)]
    fn feed(&self, sip: &mut Sip24) {
        sip.write(&[*self]);
    }
}

/// The two bytes of the number, the lowest first.
impl HashBytes for u16 {
    ghost fed_bytes = { to_le_bytes w16 };

    ghost fed_bytes_respect_eq = { λ a b equal. ap (to_le_bytes w16) (eqb-true a b equal) };

    #[inline(always)]
    fn feed(&self, sip: &mut Sip24) {
        sip.write(&u16::to_le_bytes(*self));
    }
}

/// The four bytes of the number, the lowest first.
impl HashBytes for u32 {
    ghost fed_bytes = { to_le_bytes w32 };

    ghost fed_bytes_respect_eq = { λ a b equal. ap (to_le_bytes w32) (eqb-true a b equal) };

    #[inline(always)]
    fn feed(&self, sip: &mut Sip24) {
        sip.write(&u32::to_le_bytes(*self));
    }
}

/// The eight bytes of the number, the lowest first.
impl HashBytes for u64 {
    ghost fed_bytes = { to_le_bytes w64 };

    ghost fed_bytes_respect_eq = { λ a b equal. ap (to_le_bytes w64) (eqb-true a b equal) };

    #[inline(always)]
    fn feed(&self, sip: &mut Sip24) {
        sip.write(&u64::to_le_bytes(*self));
    }
}

/// The sixteen bytes of the number, the lowest first.
impl HashBytes for u128 {
    ghost fed_bytes = { to_le_bytes w128 };

    ghost fed_bytes_respect_eq = { λ a b equal. ap (to_le_bytes w128) (eqb-true a b equal) };

    #[inline(always)]
    fn feed(&self, sip: &mut Sip24) {
        sip.write(&u128::to_le_bytes(*self));
    }
}

/// No bytes.
impl HashBytes for () {
    ghost fed_bytes = { λ _. [] };

    ghost fed_bytes_respect_eq = { λ a b equal. refl };

    #[inline(always)]
    fn feed(&self, _sip: &mut Sip24) {}
}

/// The bytes of the first, and then those of the second: where neither says how long it is, unequal pairs can feed equal bytes, as
/// the texts `ab`, `c` and `a`, `bc` do.
impl<A: HashBytes, B: HashBytes> HashBytes for (A, B) {
    ghost use Rattle.std.proofs.Common.{ap₂};
    ghost use Rattle.std.proofs.lemmas.Bool.{and_parts};

    ghost fed_bytes = { λ pair. A.fed_bytes pair.0 ++ B.fed_bytes pair.1 };

    ghost fed_bytes_respect_eq = { λ a b equal.
        let (first, second) = and_parts (A.eq a.0 b.0) (B.eq a.1 b.1) equal in
        ap₂ (λ x y. x ++ y) (A.fed_bytes_respect_eq a.0 b.0 first) (B.fed_bytes_respect_eq a.1 b.1 second) };

    #[inline(always)]
    fn feed(&self, sip: &mut Sip24) {
        self.0.feed(sip);
        self.1.feed(sip);
    }
}
