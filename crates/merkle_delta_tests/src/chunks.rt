//! Where chunks end, by a second program.
use crate::rows::Random;
use merkle_delta::Chunks;
use std::alloc::{AllocError, Global};

/// Where these chunks end.
const ENDS: [usize; 30] = [
    38, 57, 77, 152, 171, 204, 220, 236, 252, 268, 284, 300, 316, 332, 348, 364, 380, 396, 412,
    428, 444, 460, 476, 492, 550, 595, 612, 635, 674, 700,
];

/// 200 random bytes, 300 of 7, and 200 random bytes.
fn bytes(alloc: Global) -> Result<Vec<u8>, AllocError> {
    let mut random = Random::new(1);
    let mut bytes = Vec::new(alloc);
    for place in 0..700 {
        let [byte, ..] = (random.next() >> 11).to_le_bytes();
        bytes.push(if place < 200 || place >= 500 { byte } else { 7 })?;
    }
    Ok(bytes)
}

/// Whether chunks end there.
fn end_there(chunks: &Chunks) -> bool {
    let mut end = 0usize;
    for place in 0..chunks.len() {
        end = end.saturating_add(chunks.get(place).len());
        if ENDS.get(place) != Some(&end) {
            return false;
        }
    }
    chunks.len() == ENDS.len()
}

#[test]
fn chunks_end_where_a_second_program_says(rt: HostRuntime) -> Result<(), AllocError> {
    let chunks = Chunks::cut(rt.alloc(), bytes(rt.alloc())?)?;
    assert!(rt; end_there(&chunks));
    Ok(())
}
