//! Gossip: peers compare root hashes, and page ranges only where those differ.
ghost use Rattle.std.specs.Prelude.{◌≡◌, [], IsOkAnd};
ghost use Rattle.key_order.specs.Map.{SameMap};
ghost use Rattle.merkle_tree_theory.specs.State.{map_of, SameSettings};
ghost use Rattle.merkle_replica.specs.Contents.{side};
ghost use Rattle.merkle_replica.specs.Faithful.{AreSetAlike};
ghost use Rattle.examples.specs.Gossip.{AsksWhereTheyDiffer, HaveOneRootHash};

use merkle_digest::Key;
use merkle_replica::{Join, Replica, RowHasher};
use merkle_search_tree::laws::{a_map_has_one_tree, every_tree_is_sound};
use std::alloc::{AllocError, Global};

/// The ranges of keys that a replica asks a peer for: none where their root hashes are equal, for which no page range is listed;
/// else those in which the page ranges of both trees differ.
///
/// # Errors
///
/// Out of memory, for page ranges alone: the rows stay.
pub fn ranges_to_ask<K: Key + Drop, V: Join + Drop, H: RowHasher<N, K, V>, const N: usize>(
    alloc: Global,
    local: &mut Replica<K, V, H, N>,
    peer: &mut Replica<K, V, H, N>,
) -> Result<Vec<(K, K)>, AllocError>
    ensures quiet { HaveOneRootHash K.bytes_of local.old peer.old → IsOkAnd result (λ ranges. ranges.items ≡ []) }
    ensures answer { AsksWhereTheyDiffer H.laws local.old peer.old result }
    ensures rows { local.new.rows ≡ local.old.rows }
    ensures peer_rows { peer.new.rows ≡ peer.old.rows }
    ensures settings { SameSettings local.old.tree local.new.tree }
    ensures peer_settings { SameSettings peer.old.tree peer.new.tree }
{
    if local.root_hash() == peer.root_hash() {
        return Ok(Vec::new(alloc));
    }
    local.ranges_to_ask(peer)
}

/// One of two replicas of equal maps, whose hashers give each key one digest, with one level base and page format, asks the other for
/// nothing, and is never refused.
///
/// # Errors
///
/// None: it returns the empty list.
pub fn equal_maps_ask_for_nothing<
    K: Key + Drop,
    V: Join + Drop,
    H: RowHasher<N, K, V>,
    const N: usize,
>(
    alloc: Global,
    local: &mut Replica<K, V, H, N>,
    peer: &mut Replica<K, V, H, N>,
) -> Result<Vec<(K, K)>, AllocError>
    requires alike { AreSetAlike H.laws (side local.old) (side peer.old) }
    requires equal_maps { SameMap K.cmp (λ d e. d ≡ e) (map_of local.old.tree) (map_of peer.old.tree) }
    ensures nothing { IsOkAnd result (λ ranges. ranges.items ≡ []) }
    ensures rows { local.new.rows ≡ local.old.rows }
    ensures peer_rows { peer.new.rows ≡ peer.old.rows }
    ensures settings { SameSettings local.old.tree local.new.tree }
    ensures peer_settings { SameSettings peer.old.tree peer.new.tree }
{
    a_map_has_one_tree::<K, H, N>();
    every_tree_is_sound(local.tree());
    every_tree_is_sound(peer.tree());
    ranges_to_ask(alloc, local, peer)
}
