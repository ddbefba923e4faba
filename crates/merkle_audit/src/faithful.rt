//! Whether the digests of two replicas are faithful, whole.
ghost use Rattle.std.specs.Prelude.{◌≡◌, IfOk, IsTrue};
ghost use Rattle.merkle_audit.specs.Collisions.{IsFreeWhereSmall};
ghost use Rattle.merkle_replica.specs.Contents.{side};
ghost use Rattle.merkle_replica.specs.Faithful.{IsFaithful};
ghost use Rattle.merkle_tree_theory.specs.State.{SameSettings};
ghost use Rattle.merkle_wire.specs.Sessions.{IsFaithfulSession, NoNodesCollide};

use crate::nodes::have_faithful_nodes;
use crate::pages::have_faithful_pages;
use crate::values::{digest_their_values_alike, have_faithful_values};
use merkle_digest::Key;
use merkle_replica::{Join, Replica, RowHasher};
use merkle_search_tree::laws::{
    a_map_has_one_tree, equal_keys_have_equal_bytes, equal_pages_have_equal_maps,
};
use std::alloc::{AllocError, Global};

/// Whether the digests of two replicas are faithful: where `true`, what is proved of pulls, of catch-ups at hand and of
/// [`agree`](merkle_replica::agree) while digests are faithful holds of these two. Both are hashed for it, and their rows
/// stay. It costs what [`have_faithful_values`] and [`have_faithful_pages`] cost.
///
/// # Errors
///
/// `AllocError` if memory runs out.
pub fn are_faithful<K: Key + Drop, V: Join + Drop, H: RowHasher<N, K, V>, const N: usize>(
    a: &mut Replica<K, V, H, N>,
    b: &mut Replica<K, V, H, N>,
) -> Result<bool, AllocError>
    ensures told { IfOk result (λ are. IsTrue are → IsFaithful H.laws (side a.old) (side b.old)) }

    // Sides that are set alike, in format 2 and with small maps, are then free of collisions.
    ensures free { IfOk result (λ are. IsTrue are → IsFreeWhereSmall H.laws (side a.old) (side b.old)) }

    // It is true wherever they are faithful.
    ensures found { IfOk result (λ are. IsFaithful H.laws (side a.old) (side b.old) → IsTrue are) }

    ensures a_rows { a.new.rows ≡ a.old.rows }
    ensures b_rows { b.new.rows ≡ b.old.rows }
    ensures a_settings { SameSettings a.old.tree a.new.tree }
    ensures b_settings { SameSettings b.old.tree b.new.tree }
{
    a_map_has_one_tree::<K, H, N>();
    equal_keys_have_equal_bytes::<K>();
    equal_pages_have_equal_maps::<K>();
    if !have_faithful_values(a, b) {
        return Ok(false);
    }
    let are = have_faithful_pages(a, b)?;
    Ok(are)
}

/// Whether digests are faithful in a session in which the one catches up with the other by messages: where `true`, it brings all rows
/// that are missing. A session the other way is asked for by itself. Both are hashed for it, and their rows stay. It costs what
/// [`are_faithful`], [`digest_their_values_alike`] and [`have_faithful_nodes`] cost.
///
/// # Errors
///
/// `AllocError` if memory runs out.
pub fn is_faithful_session<K: Key + Drop, V: Join + Drop, H: RowHasher<N, K, V>, const N: usize>(
    alloc: Global,
    local: &mut Replica<K, V, H, N>,
    peer: &mut Replica<K, V, H, N>,
) -> Result<bool, AllocError>
    ensures told { IfOk result (λ is. IsTrue is → IsFaithfulSession H.laws (side local.old) (side peer.old)) }
    ensures apart { IfOk result (λ is. IsTrue is → NoNodesCollide H.laws (side local.old) (side peer.old)) }
    ensures local_rows { local.new.rows ≡ local.old.rows }
    ensures peer_rows { peer.new.rows ≡ peer.old.rows }
    ensures local_settings { SameSettings local.old.tree local.new.tree }
    ensures peer_settings { SameSettings peer.old.tree peer.new.tree }
{
    if !digest_their_values_alike(local, peer) {
        return Ok(false);
    }
    if !have_faithful_nodes(alloc, local, peer)? {
        return Ok(false);
    }
    are_faithful(local, peer)
}
