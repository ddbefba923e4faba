//! Numbers in decimal digits.
ghost use Rattle.std.specs.Prelude.{ℕ, MatchOption};
ghost use Rattle.mst_pair.specs.Requests.{IsNumber};

/// The most digits that a number is spelled with.
const DIGITS: usize = 20;

/// The number that 1 to 20 digits spell, leading zeros allowed, or nothing where they are no number below 2^64.
pub fn number_of(digits: &[u8]) -> Option<u64>
    ensures { MatchOption result ((n : ℕ) → IsNumber digits.now n → ⊥) (λ n. IsNumber digits.now n) }
{
    if digits.is_empty() || digits.len() > DIGITS || digits[0] == b'+' {
        return None;
    }
    let Ok(text) = str::from_utf8(digits) else {
        return None;
    };
    text.parse::<u64>().ok()
}
