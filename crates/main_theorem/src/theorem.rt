//! The main theorem.
ghost use Rattle.std.specs.Prelude.{◌≡◌, IfOk, IfErr};
ghost use Rattle.key_order.specs.Order.{Same};
ghost use Rattle.main_theorem.specs.Course.{IsExchangeDone, IsRunStopped};
ghost use Rattle.main_theorem.specs.Runs.{AreAnswered, AcceptTheFree, HadTheDefinedTrees, HaveTheirMaps, HasTheDefinedTree, Converge};
ghost use Rattle.main_theorem.specs.declared.course.Exchange.TheVariants.{Apart};

use crate::after::{after, copy_of_tree, hash_last};
use crate::course::{Exchange, Exchanged, RunRefused, come_together};
use merkle_digest::{Hasher, Key};
use merkle_replica::{Join, Replica, RowHasher, ValueHasher};
use merkle_search_tree::MerkleSearchTree;
use merkle_search_tree::builder::Builder;
use merkle_search_tree::laws::{
    a_map_has_one_tree, equal_pages_have_equal_maps, every_tree_is_sound,
};
use merkle_search_tree::updates::Update;
use std::alloc::Global;

/// What became of one of the two replicas.
#[derive(Drop)]
pub struct Outcome<K: Key, V: Join, H: Hasher<N, K> + ValueHasher<N, V>, const N: usize> {
    /// For each of its updates, whether it was accepted.
    pub accepted: Vec<bool>,
    /// A copy of its tree after the updates, before the exchange.
    pub before: MerkleSearchTree<K, V, H, N>,
    /// The replica after the exchange, hashed.
    pub replica: Replica<K, V, H, N>,
}

/// What the two replicas did.
#[derive(Drop)]
pub struct Run<K: Key, V: Join, H: Hasher<N, K> + ValueHasher<N, V>, const N: usize> {
    /// The first replica, which pulls or catches up first.
    pub a: Outcome<K, V, H, N>,
    /// The second replica.
    pub b: Outcome<K, V, H, N>,
    /// What the exchange did.
    pub exchanged: Exchanged<K>,
}

/// Two replicas with the builder's settings carry out their updates, from no row on, and then come together.
///
/// Whatever the updates, each replica's rows are then the map of its accepted updates, where an upsert joins its value to the one that is
/// there. Its pages are the one tree that its map defines, apart from caches, and hashed, as the call leaves it, it has the page ranges
/// and the root hash of that tree. While digests don't collide in what the two meet, four pulls by turns or more, or a catch-up
/// each way, leave both with the join of their two maps, and one root hash.
///
/// An update is refused when out of memory, or by the join of a value with the one that is there, and changes nothing then. Hashing takes no
/// memory and is always accepted, and so is a removal of a key that isn't there, or beside which a gap is empty in the tree that the map
/// defines. Of each other update nothing says that it is accepted, since nothing says when memory runs out.
///
/// ```rust crates/main_theorem_tests/src/random_runs.rt
/// fn run_both(
///     alloc: Global,
///     builder: Builder<LevelHasher<[u8; 2]>>,
///     a: Vec<Change>,
///     b: Vec<Change>,
///     exchange: Exchange,
/// ) -> Result<Run<[u8; 2], u64, LevelHasher<[u8; 2]>, 32>, RunRefused<[u8; 2]>> {
///     converge(alloc, builder, a, b, exchange)
/// }
/// ```
///
/// # Errors
///
/// [`RunRefused`] if memory runs out for anything else: both replicas are then given up.
pub fn converge<K, V, H, const N: usize>(
    alloc: Global,
    builder: Builder<H>,
    a_updates: Vec<Update<K, V>>,
    b_updates: Vec<Update<K, V>>,
    exchange: Exchange,
) -> Result<Run<K, V, H, N>, RunRefused<K>>
where
    K: Key + Drop,
    V: Join + Drop,
    H: RowHasher<N, K, V> + Clone + Drop,
    // A clone of the hasher is the hasher.
    requires hashers { (x y : H) → H.is_clone x y → y ≡ x }

    // Each update is answered, and accepted where it takes no memory.
    ensures answers { IfOk result (λ r. AreAnswered a_updates.items r.a × AreAnswered b_updates.items r.b) }
    ensures free { IfOk result (AcceptTheFree H.laws builder a_updates.items b_updates.items) }

    // Between the updates and the exchange, whichever it is, each tree is the one that the map of the accepted updates defines: its pages
    // apart from caches, its page ranges and its root hash.
    ensures before { IfOk result (HadTheDefinedTrees H.laws builder a_updates.items b_updates.items) }

    // Where there is no exchange, the rows at the end are the maps of the accepted updates.
    ensures rows { exchange ≡ Apart → IfOk result (HaveTheirMaps H.laws a_updates.items b_updates.items) }

    // Whatever map the rows of a replica are, its pages are the one tree that the map defines, apart from caches, and its page ranges
    // and root hash are the defined ones.
    ensures a_defined { IfOk result (λ r. HasTheDefinedTree H.laws builder r.a) }
    ensures b_defined { IfOk result (λ r. HasTheDefinedTree H.laws builder r.b) }

    // The exchange was the one that was asked for.
    ensures exchanged { IfOk result (λ r. IsExchangeDone exchange r.exchanged) }

    // While digests are faithful in what was met on the way, four pulls by turns or more, or a catch-up each way, leave both replicas with
    // the join of the two maps, and one root hash.
    ensures converges { IfOk result (Converge H.laws builder a_updates.items b_updates.items exchange) }

    // A run is refused before the exchange, or in the one that was asked for.
    ensures refused { IfErr result (λ refused. IsRunStopped exchange refused) }
{
    a_map_has_one_tree::<K, H, N>();
    equal_pages_have_equal_maps::<K>();
    let Ok(other) = builder.try_clone() else {
        return Err(RunRefused::Before);
    };
    let Ok((mut a, a_accepted)) = after(alloc, builder, a_updates) else {
        return Err(RunRefused::Before);
    };
    let Ok((mut b, b_accepted)) = after(alloc, other, b_updates) else {
        return Err(RunRefused::Before);
    };
    let (Ok(a_before), Ok(b_before)) = (copy_of_tree(&a), copy_of_tree(&b)) else {
        return Err(RunRefused::Before);
    };
    let exchanged = come_together(alloc, &mut a, &mut b, exchange)?;
    hash_last(&mut a);
    hash_last(&mut b);
    every_tree_is_sound(a.tree());
    every_tree_is_sound(b.tree());
    Ok(Run {
        a: Outcome {
            accepted: a_accepted,
            before: a_before,
            replica: a,
        },
        b: Outcome {
            accepted: b_accepted,
            before: b_before,
            replica: b,
        },
        exchanged,
    })
}
