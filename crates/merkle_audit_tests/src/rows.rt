//! Replicas of texts and numbers.
use merkle_digest::SipHasher;
use merkle_replica::Replica;
use merkle_search_tree::builder::Builder;
use std::alloc::{AllocError, Global};

/// A replica under SipHash.
pub(crate) type Rows = Replica<String, u64, SipHasher, 16>;

/// A replica of the builder's settings with these rows.
pub(crate) fn rows_of(
    alloc: Global,
    builder: Builder<SipHasher>,
    rows: &[(&str, u64)],
) -> Result<Rows, AllocError> {
    let mut replica = Rows::new(alloc, builder);
    for (key, value) in rows {
        let own = String::from_str(alloc, key)?;
        replica.put(own, *value)?;
    }
    Ok(replica)
}

/// The key of a number: a text of nine letters.
pub(crate) fn key_of(alloc: Global, number: u64) -> Result<String, AllocError> {
    format!(in alloc; "key{number:06}")
}
