//! Bytes read as numbers, strings, and the front of a list. What isn't such a list is malformed.
ghost use Rattle.std.specs.Prelude.{◌≡◌, ◌≢◌, ◌↔◌, ◌⊎◌, ◌<◌, ◌^◌, [], ◌++◌, ℕ, List, None, Err, IfOk, IfSome, length};
ghost use Rattle.c_values.specs.Lists.{number_bytes, sized_bytes, sized_row};
ghost use Rattle.c_values.specs.declared.reading.ListError.TheVariants.{Memory, Malformed};

use crate::status::{MALFORMED, MEMORY};
use std::alloc::AllocError;

/// Why bytes were not read.
#[derive(Clone, Copy, Debug, PartialEq, Eq)]
pub enum ListError {
    /// Out of memory.
    Memory,
    /// The bytes are no list of the kind.
    Malformed,
}

impl ListError {
    /// The status that it is for a caller in C.
    pub fn status(self) -> u32
        ensures memory { (result ≡ 1) ↔ (self ≡ Memory) }
        ensures malformed { (result ≡ 2) ↔ (self ≡ Malformed) }
        ensures status { (result ≡ 1) ⊎ (result ≡ 2) }
    {
        match self {
            ListError::Memory => MEMORY,
            ListError::Malformed => MALFORMED,
        }
    }
}

impl From<AllocError> for ListError {
    ghost from_gives = { λ _ error. error ≡ Memory };

    fn from(_error: AllocError) -> Self {
        ListError::Memory
    }
}

/// The number that eight bytes spell.
fn number(bytes: &[u8; 8]) -> u64
    ensures { number_bytes result ≡ bytes.now }
{
    u64::from_le_bytes(*bytes)
}

/// The number at the front, and the bytes after it.
fn number_of(bytes: &[u8]) -> Option<(u64, &[u8])>
    ensures number { IfSome result (λ r. bytes.now ≡ number_bytes r.0 ++ r.1.now) }
    ensures none { result ≡ None → length bytes.now < 8 }
{
    let (front, rest) = bytes.split_first_chunk::<8>()?;
    Some((number(front), rest))
}

/// The string at the front, and the bytes after it.
pub fn text_of(bytes: &[u8]) -> Option<(&[u8], &[u8])>
    ensures text { IfSome result (λ r. bytes.now ≡ sized_bytes r.0.now ++ r.1.now) }
    ensures short { IfSome result (λ r. length r.0.now < 2 ^ 64) }
    ensures none { result ≡ None → (text rest : List ℕ) → bytes.now ≢ sized_bytes text ++ rest }
{
    let (len, rest) = number_of(bytes)?;
    rest.split_at_checked(len as usize)
}

/// The two strings at the front, and the bytes after them.
pub fn pair_of(bytes: &[u8]) -> Option<(&[u8], &[u8], &[u8])>
    ensures pair { IfSome result (λ r. bytes.now ≡ sized_row (r.0.now, r.1.now) ++ r.2.now) }
    ensures none { result ≡ None → (row : List ℕ × List ℕ) (rest : List ℕ) → bytes.now ≢ sized_row row ++ rest }
{
    let (first, rest) = text_of(bytes)?;
    let (second, rest) = text_of(rest)?;
    Some((first, second, rest))
}

/// The number of entries after this mark, and the bytes of the entries.
pub fn body_of<'b>(mark: &[u8; 4], bytes: &'b [u8]) -> Option<(u64, &'b [u8])>
    ensures body { IfSome result (λ r. bytes.now ≡ mark.now ++ (number_bytes r.0 ++ r.1.now)) }
    ensures none { result ≡ None → (count : ℕ) (rest : List ℕ) → bytes.now ≢ mark.now ++ (number_bytes count ++ rest) }
{
    let (front, rest) = bytes.split_first_chunk::<4>()?;
    if front != mark {
        return None;
    }
    number_of(rest)
}

/// What was read, where no byte is left.
pub fn all_read<T: Drop>(read: Vec<T>, rest: &[u8]) -> Result<Vec<T>, ListError>
    ensures all { IfOk result (λ all. (all ≡ read) × (rest.now ≡ [])) }
    ensures malformed { result ≡ Err Malformed → rest.now ≢ [] }
{
    if rest.is_empty() {
        Ok(read)
    } else {
        Err(ListError::Malformed)
    }
}
