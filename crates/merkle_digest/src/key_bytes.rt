//! The bytes of a key, from which the digest of its page is made.

ghost use Rattle.std.specs.Prelude.{◌≡◌, ℕ, List, true, string_bytes};
ghost use Rattle.std.proofs.Common.{sym};
ghost use Rattle.std.specs.Cmp.Lexicographic.{same_text, bytes_decides};

/// A key that has bytes. A page's digest is made of the bytes of its keys, so each implementation proves that equal keys have
/// equal bytes.
pub trait KeyBytes: Eq {
    /// The bytes of a key.
    ghost bytes_of: { Self → List ℕ };

    /// The bytes of the key.
    fn key_bytes(&self) -> &[u8]
        ensures { result.now ≡ bytes_of self.now };

    /// Equal keys have equal bytes.
    ghost bytes_respect_eq: { (a b : Self) → Self.eq a b ≡ true → bytes_of a ≡ bytes_of b };
}

/// The UTF-8 bytes of the text.
impl KeyBytes for String {
    ghost bytes_of = { string_bytes };

    ghost bytes_respect_eq = { λ a b equal. same_text (string_bytes a) (string_bytes b) (sym equal) };

    fn key_bytes(&self) -> &[u8] {
        self.as_bytes()
    }
}

/// The UTF-8 bytes of the text.
impl KeyBytes for &str {
    ghost bytes_of = { λ text. text.now };

    ghost bytes_respect_eq = { λ a b equal. same_text a.now b.now (sym equal) };

    fn key_bytes(&self) -> &[u8] {
        self.as_bytes()
    }
}

/// The bytes themselves.
impl KeyBytes for Vec<u8> {
    ghost bytes_of = { λ bytes. bytes.items };

    ghost bytes_respect_eq = { λ a b equal. same_text a.items b.items (sym equal) };

    fn key_bytes(&self) -> &[u8] {
        self.as_slice()
    }
}

/// The bytes themselves.
impl<const M: usize> KeyBytes for [u8; M] {
    ghost bytes_of = { λ bytes. bytes };

    ghost bytes_respect_eq = { λ a b equal. same_text a b (sym equal) };

    fn key_bytes(&self) -> &[u8] {
        self
    }
}

/// A key that its bytes tell apart from every other: each implementation proves that keys with equal bytes are equal.
pub trait KeyBytesExact: KeyBytes {
    /// Keys with equal bytes are equal.
    ghost bytes_tell_keys: { (a b : Self) → Self.bytes_of a ≡ Self.bytes_of b → Self.eq a b ≡ true };
}

/// Texts with equal bytes are equal.
impl KeyBytesExact for String {
    ghost bytes_tell_keys = { λ a b same. (bytes_decides (string_bytes a) (string_bytes b)).1 same };
}

/// Texts with equal bytes are equal.
impl KeyBytesExact for &str {
    ghost bytes_tell_keys = { λ a b same. (bytes_decides a.now b.now).1 same };
}

/// The bytes are the key.
impl KeyBytesExact for Vec<u8> {
    ghost bytes_tell_keys = { λ a b same. (bytes_decides a.items b.items).1 same };
}

/// The bytes are the key.
impl<const M: usize> KeyBytesExact for [u8; M] {
    ghost bytes_tell_keys = { λ a b same. (bytes_decides a b).1 same };
}
