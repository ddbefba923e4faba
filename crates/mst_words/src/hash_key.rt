//! Hash keys as words.
ghost use Rattle.std.specs.Prelude.{◌≡◌, List, ℕ, MatchOption};
ghost use Rattle.std.specs.Int.{w128, from_be_bytes};
ghost use Rattle.mst_words.specs.HashKeys.{IsHashKey};

/// The bytes of a key of 32 hexadecimal digits.
pub fn hash_key_of(word: &str) -> Option<[u8; 16]>
    ensures { MatchOption result ((key : List ℕ) → ¬ IsHashKey word.now key) (IsHashKey word.now) }
{
    if word.len() != 32 || word.as_bytes().starts_with(b"+") {
        return None;
    }
    let Ok(number) = u128::from_str_radix(word, 16) else {
        return None;
    };
    Some(number.to_be_bytes())
}

/// The number whose 32 hexadecimal digits are those of the key.
pub fn number_of(hash_key: &[u8; 16]) -> u128
    ensures { result ≡ from_be_bytes w128 hash_key.now }
{
    u128::from_be_bytes(*hash_key)
}
