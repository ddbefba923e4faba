//! The replicas that are measured.

use crate::fault::Fault;
use merkle_digest::SipHasher;
use merkle_replica::Replica;
use merkle_search_tree::builder::Builder;
use std::alloc::Global;

/// A replica of the default settings.
pub type Numbers = Replica<String, u64, SipHasher, 16>;

/// The replica of rows, not hashed. Their keys are different and ascend, so that they are refused only when out of memory.
pub fn replica_of(alloc: Global, rows: Vec<(String, u64)>) -> Result<Numbers, Fault> {
    match Replica::from_rows(alloc, Builder::default(), rows) {
        Ok(replica) => Ok(replica),
        Err(_) => Err(Fault::Memory),
    }
}
