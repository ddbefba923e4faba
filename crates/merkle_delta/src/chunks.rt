//! Bytes in chunks.
ghost use Rattle.std.specs.Prelude.{◌≡◌, ◌<◌, ◌≤◌, ◌+◌, ◌-◌, ◌^◌, [], get_or, length, IfOk};
ghost use Rattle.merkle_delta.specs.Chunks.{chunks_of, ends_chunk, window_with};

use std::alloc::{AllocError, Global};
use std::marker::Model;

/// How many bytes a chunk has at least, but for the last one.
const FEWEST: usize = 16;

/// How many bytes a chunk has at most.
const MOST: usize = 96;

/// The odd number next to 2^32 over the golden ratio: it spreads bits to the highest ones.
const SPREAD: u32 = 2_654_435_761;

/// Below it is one number in sixteen.
const ONE_IN_SIXTEEN: u32 = 1 << 28;

/// Bytes, and where their chunks are. A contract sees the chunks.
#[derive(Drop)]
pub struct Chunks {
    bytes: Vec<u8>,
    ranges: Vec<(usize, usize)>,
}

impl Model for Chunks {
    ghost use Rattle.std.specs.Prelude.{ℕ, List, ◌≤◌, length, map, slice_range};
    ghost use Rattle.std.specs.List.{AllByRecursion};

    ghost Value = { List (List ℕ) };

    ghost view = { λ chunks. map (λ range. slice_range chunks.bytes.items range.0 range.1) chunks.ranges.items };

    ghost invariant = { λ chunks. AllByRecursion (λ range. (range.0 ≤ range.1) × (range.1 ≤ length chunks.bytes.items)) chunks.ranges.items };
}

impl Chunks {
    /// The chunks of bytes. A chunk ends after its 96th byte; after the 16th or a later one where the four bytes up to there say so, which is
    /// once in sixteen times; or with the bytes. So where bytes are changed, the chunks that begin a few chunks later are as before.
    ///
    /// It takes time linear in the number of bytes, and 16 bytes of memory a chunk.
    ///
    /// # Errors
    ///
    /// Out of memory.
    pub fn cut(alloc: Global, bytes: Vec<u8>) -> Result<Self, AllocError>
        ensures { IfOk result (λ chunks. chunks ≡ chunks_of bytes.items) }
    {
        let mut ranges = Vec::new(alloc);
        let mut window: u32 = 0;
        let mut start = 0;
        'bytes: for at in 0..bytes.len() {
            window = window_with(window, bytes[at]);
            if ends_chunk(window, at + 1 - start) {
                ranges.push((start, at + 1))?;
                start = at + 1;
            }
        }
        if start < bytes.len() {
            ranges.push((start, bytes.len()))?;
        }
        Ok(Chunks { bytes, ranges })
    }

    /// How many chunks there are.
    pub fn len(&self) -> usize
        ensures { result ≡ length self.now }
    {
        self.ranges.len()
    }

    /// A chunk, in constant time.
    pub fn get(&self, index: usize) -> &[u8]
        requires { index < length self.now }
        ensures { result.now ≡ get_or self.now index [] }
    {
        let (start, end) = self.ranges[index];
        &self.bytes[start..end]
    }
}

/// The last four bytes as a number, once one more came.
fn window_with(window: u32, byte: u8) -> u32
    ensures { result ≡ window_with window byte }
{
    window.wrapping_mul(256).wrapping_add(byte as u32)
}

/// Whether a chunk of this many bytes ends after these last four.
fn ends_chunk(window: u32, len: usize) -> bool
    ensures { result ≡ ends_chunk window len }
{
    len >= MOST || (len >= FEWEST && window.wrapping_mul(SPREAD) < ONE_IN_SIXTEEN)
}
