//! Pulls for which memory is refused. Under `rt try --test --fail-alloc N -- a_refused` the Nth request for memory is refused: then
//! the rows that the answer names were joined, and no others.

use merkle_digest::SipHasher;
use merkle_replica::{PullError, Pulled, Replica};
use merkle_search_tree::builder::Builder;
use std::alloc::{AllocError, Global};

/// A map of texts, whose copies take memory.
type Texts = Replica<String, u64, SipHasher, 16>;

/// Puts a row.
fn put(alloc: Global, replica: &mut Texts, text: &str, value: u64) -> Result<(), AllocError> {
    let key = String::from_str(alloc, text)?;
    replica.put(key, value)
}

/// Pulls from a peer.
fn pull(local: &mut Texts, peer: &mut Texts) -> Result<Pulled<String>, PullError<String>> {
    local.pull(peer)
}

/// Three rows.
const THREE: [(&str, u64); 3] = [("a", 1), ("b", 2), ("c", 3)];

/// The map of the three rows.
fn three(alloc: Global) -> Result<Texts, AllocError> {
    let mut replica = Texts::new(alloc, Builder::default());
    for (text, value) in THREE {
        put(alloc, &mut replica, text, value)?;
    }
    Ok(replica)
}

/// Whether the map has the first `count` of the three rows and no others.
fn has_first(replica: &Texts, count: usize) -> bool {
    let rows = replica.rows();
    let mut is_right = rows.len() == count;
    for (at, row) in rows.iter().enumerate() {
        is_right = is_right
            && match THREE.get(at) {
                Some((text, number)) => row.0.as_str() == *text && row.1 == *number,
                None => false,
            };
    }
    is_right
}

#[test]
fn a_refused_pull_has_joined_the_first_rows(rt: HostRuntime) {
    let mut local = Texts::new(rt.alloc(), Builder::default());
    if let Ok(mut peer) = three(rt.alloc()) {
        let is_right = match pull(&mut local, &mut peer) {
            Ok(pulled) => pulled.joined == 3 && has_first(&local, 3),
            Err(PullError::Memory) => has_first(&local, 0),
            Err(PullError::Partly { pulled, done }) => {
                (done == 1 || done == 2) && pulled.joined == 3 && has_first(&local, done)
            }
        };
        assert!(rt; is_right);
        assert!(rt; has_first(&peer, 3));
    }
}

/// The digest of the page stream of no byte.
const OF_NO_ROW: [u8; 16] = [
    0x50, 0x49, 0xd7, 0x47, 0x80, 0xa3, 0xe0, 0x7d, 0x42, 0x02, 0xab, 0x47, 0xd4, 0xce, 0xf2, 0xf4,
];

#[test]
fn a_new_replica_takes_no_memory(rt: HostRuntime) {
    let mut replica = Texts::new(rt.alloc(), Builder::default());
    assert!(rt; replica.rows().is_empty());
    replica.hash();
    assert!(rt; *replica.root_hash().as_bytes() == OF_NO_ROW);
}
