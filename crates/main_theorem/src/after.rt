//! A replica's whole life: updates carried out one after the other, from no row on.
ghost use Rattle.std.specs.Prelude.{◌≡◌, [], IfOk, length};
ghost use Rattle.key_order.specs.Order.{Same};
ghost use Rattle.merkle_tree_theory.specs.State.{HasSettings, SameSettings};
ghost use Rattle.main_theorem.specs.After.{FreeUpdatesAreAccepted, HasRootHashOf, IsAcceptedBy, IsCarriedOut, IsDefinedTreeOf, IsHashedLast, rows_after};
ghost use Rattle.merkle_replica.specs.Agreeing.{AreEqual};

use merkle_digest::Key;
use merkle_replica::{Join, Replica, RowHasher};
use merkle_search_tree::MerkleSearchTree;
use merkle_search_tree::builder::Builder;
use merkle_search_tree::laws::{
    a_map_has_one_tree, equal_pages_have_equal_maps, every_tree_is_sound,
};
use merkle_search_tree::updates::Update;
use std::alloc::{AllocError, Global};

/// Carries out an update, and returns whether it was accepted.
fn carry_out<K, V, H, const N: usize>(
    replica: &mut Replica<K, V, H, N>,
    update: Update<K, V>,
) -> bool
where
    K: Key + Drop,
    V: Join + Drop,
    H: RowHasher<N, K, V>,
    ensures rows { IsCarriedOut H.laws update result replica.old.rows replica.new.rows }
    ensures free { IsAcceptedBy H.laws replica.old update result }
    ensures settings { SameSettings replica.old.tree replica.new.tree }
{
    a_map_has_one_tree::<K, H, N>();
    every_tree_is_sound(replica.tree());
    let _ = replica.rows();
    match update {
        Update::Upsert(key, value) => replica.put(key, value).is_ok(),
        Update::Remove(key) => replica.del(&key).is_ok(),
        Update::RootHash => {
            replica.hash();
            true
        }
    }
}

/// The replica that the updates lead to, hashed at the end, and for each update whether it was accepted.
pub(crate) fn after<K, V, H, const N: usize>(
    alloc: Global,
    builder: Builder<H>,
    updates: Vec<Update<K, V>>,
) -> Result<(Replica<K, V, H, N>, Vec<bool>), AllocError>
where
    K: Key + Drop,
    V: Join + Drop,
    H: RowHasher<N, K, V> + Drop,
    ensures answers { IfOk result (λ r. length r.1.items ≡ length updates.items) }
    ensures free { IfOk result (λ r. FreeUpdatesAreAccepted H.laws builder [] updates.items r.1.items) }
    ensures rows { IfOk result (λ r. AreEqual K.cmp V.eq r.0.rows (rows_after K.cmp V.join_of updates.items r.1.items)) }
    ensures settings { IfOk result (λ r. HasSettings builder r.0.tree) }
    ensures root_hash { IfOk result (λ r. HasRootHashOf H.laws builder r.0.rows r.0.tree) }
{
    let mut accepted = Vec::with_capacity(alloc, updates.len())?;
    let mut replica = Replica::new(alloc, builder);
    'updates: for update in updates {
        accepted.push(carry_out(&mut replica, update))?;
    }
    hash_last(&mut replica);
    Ok((replica, accepted))
}

/// Fills in the digests that pages of the replica lack: its root hash is then the one that its rows define.
pub(crate) fn hash_last<K, V, H, const N: usize>(replica: &mut Replica<K, V, H, N>)
where
    K: Key,
    V: Join,
    H: RowHasher<N, K, V>,
    ensures rows { replica.new.rows ≡ replica.old.rows }
    ensures settings { SameSettings replica.old.tree replica.new.tree }
    ensures root_hash { IsHashedLast H.laws replica.old replica.new }
{
    a_map_has_one_tree::<K, H, N>();
    every_tree_is_sound(replica.tree());
    replica.hash();
}

/// A copy of the replica's tree. Where the replica is hashed, the copy is the tree that its rows define.
pub(crate) fn copy_of_tree<K, V, H, const N: usize>(
    replica: &Replica<K, V, H, N>,
) -> Result<MerkleSearchTree<K, V, H, N>, AllocError>
where
    K: Key + Drop,
    V: Join,
    H: RowHasher<N, K, V> + Clone + Drop,
    requires hashers { (x y : H) → H.is_clone x y → y ≡ x }
    ensures { IfOk result (IsDefinedTreeOf H.laws replica.now) }
{
    a_map_has_one_tree::<K, H, N>();
    equal_pages_have_equal_maps::<K>();
    let copy = replica.tree().try_clone()?;
    every_tree_is_sound(&copy);
    Ok(copy)
}
