//! Maps from number keys to numbers, as lists of what each key has, in the order of the keys from 0 on.
use crate::keys::number_key;
use crate::level_hasher::LevelHasher;
use std::alloc::{AllocError, Global};

/// The hasher that puts each key on its level.
pub fn number_hasher(alloc: Global, levels: &[u8]) -> Result<LevelHasher<[u8; 2]>, AllocError> {
    let mut keys = Vec::with_capacity(alloc, levels.len())?;
    for (number, level) in (0..u16::MAX).zip(levels) {
        keys.push((number_key(number), *level))?;
    }
    Ok(LevelHasher::new(keys))
}

/// Whether the rows are those of the keys that have a value, where 0 is none.
pub fn have_values(rows: &[([u8; 2], u64)], values: &[u64]) -> bool {
    let mut rows = rows.iter();
    for (number, value) in (0..u16::MAX).zip(values) {
        if *value > 0 {
            match rows.next() {
                Some(row) if row.0 == number_key(number) && row.1 == *value => {}
                _ => return false,
            }
        }
    }
    rows.next().is_none()
}

/// Raises each value to the other's of the same key.
pub fn raise(values: &mut [u64], others: &[u64]) {
    for (value, other) in values.iter_mut().zip(others) {
        *value = (*value).max(*other);
    }
}
