//! The keys of the sample: texts that spell the states of a generator of numbers.

ghost use Rattle.std.specs.Prelude.{◌≡◌, IfOk, map, string_bytes};
ghost use Rattle.mst_bench.specs.Keys.{next_state, key_text, key_texts};

use std::alloc::{AllocError, Global};

/// The seed of the local tree's keys.
pub const LOCAL_SEED: u64 = 88_172_645_463_325_252;

/// The seed of the peer's keys.
pub const PEER_SEED: u64 = 362_436_069;

/// The state of xorshift64 after this one (Marsaglia, "Xorshift RNGs").
fn next_state(state: u64) -> u64
    ensures { result ≡ next_state state }
{
    let left = state ^ (state << 13);
    let right = left ^ (left >> 7);
    right ^ (right << 17)
}

/// The key of a state: `k` and its 16 hex digits.
fn key_of(alloc: Global, state: u64) -> Result<String, AllocError>
    ensures { IfOk result (λ key. string_bytes key ≡ key_text state) }
{
    format!(in alloc; "k{state:016x}")
}

/// The keys of the first `count` states after the seed.
pub fn keys(alloc: Global, seed: u64, count: usize) -> Result<Vec<String>, AllocError>
    ensures { IfOk result (λ keys. map string_bytes keys.items ≡ key_texts count seed) }
{
    let mut keys = Vec::with_capacity(alloc, count)?;
    let mut state = seed;
    'making: for made in 0..count {
        state = next_state(state);
        keys.push(key_of(alloc, state)?)?;
    }
    Ok(keys)
}

/// The same keys once more.
pub fn copies(alloc: Global, keys: &[String]) -> Result<Vec<String>, AllocError>
    ensures { IfOk result (λ copies. map string_bytes copies.items ≡ map string_bytes keys.now) }
{
    let mut copies = Vec::with_capacity(alloc, keys.len())?;
    'copying: for key in keys {
        copies.push(key.clone()?)?;
    }
    Ok(copies)
}
