//! Where checksums are first met in a signature.
use std::alloc::{AllocError, Global};

/// A slot without a checksum.
const NONE: usize = usize::MAX;

/// Slots for the places of checksums, of which each has the first whose checksum falls on it. What it answers may be any place.
#[derive(Drop)]
pub(crate) struct Table {
    slots: Vec<usize>,
}

impl Table {
    /// The table of a signature. It takes 32 bytes a checksum.
    pub(crate) fn new(alloc: Global, signature: &[u32]) -> Result<Self, AllocError> {
        let size = signature.len().saturating_mul(4);
        let mut slots = vec![in alloc; NONE; size]?;
        'checksums: for at in 0..signature.len() {
            let slot = slot_of(signature[at], slots.len());
            if slot < slots.len() && slots[slot] == NONE {
                slots[slot] = at;
            }
        }
        Ok(Table { slots })
    }

    /// The place that the slot of a checksum has, or one above all where it has none.
    pub(crate) fn place(&self, checksum: u32) -> usize {
        match self.slots.get(slot_of(checksum, self.slots.len())) {
            Some(place) => *place,
            None => NONE,
        }
    }
}

/// The slot of a checksum, of this many.
fn slot_of(checksum: u32, slots: usize) -> usize {
    match (checksum as usize).checked_rem(slots) {
        Some(slot) => slot,
        None => 0,
    }
}
