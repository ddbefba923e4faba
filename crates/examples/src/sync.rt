//! A sync: four pulls by turns, after which two replicas hold the same map.
ghost use Rattle.std.specs.Prelude.{◌≡◌, OnOk, IfErr};
ghost use Rattle.merkle_tree_theory.specs.State.{SameSettings};
ghost use Rattle.merkle_tree_theory.specs.declared.page_format.PageFormat.TheVariants.{V2};
ghost use Rattle.merkle_replica.specs.ByTurns.{StopInTurns};
ghost use Rattle.merkle_replica.specs.Contents.{side};
ghost use Rattle.merkle_replica.specs.Faithful.{AreSetAlike};
ghost use Rattle.examples.specs.Sync.{ExactlySyncsToTheJoin, SyncsToTheJoin};

use merkle_digest::{Key, KeyBytesExact};
use merkle_replica::laws::no_collision_is_enough;
use merkle_replica::{Join, Replica, RowHasher, TurnsError, pull_by_turns};
use std::alloc::Global;

/// Brings two replicas to the same map, the join of both: while digests are faithful in what is met before each of the four pulls.
///
/// # Errors
///
/// Out of memory: each pull that was made until then stays.
pub fn sync<K: Key + Drop, V: Join + Drop, H: RowHasher<N, K, V>, const N: usize>(
    alloc: Global,
    a: &mut Replica<K, V, H, N>,
    b: &mut Replica<K, V, H, N>,
) -> Result<(), TurnsError<K>>
    ensures same { OnOk result (SyncsToTheJoin H.laws a.old b.old a.new b.new) }
    ensures stopped { IfErr result (StopInTurns H.laws a.old b.old a.new b.new) }
    ensures a_settings { SameSettings a.old.tree a.new.tree }
    ensures b_settings { SameSettings b.old.tree b.new.tree }
{
    pull_by_turns(alloc, a, b, 4)?;
    Ok(())
}

/// The same for replicas whose hashers give each key one digest, with one level base, in page format 2, for keys that their bytes tell
/// apart: it is enough that no two unequal page streams have one digest and that equal digests of values mean equal values, in what is
/// met before each of the four pulls.
///
/// # Errors
///
/// Out of memory: each pull that was made until then stays.
pub fn sync_exact<
    K: Key + KeyBytesExact + Drop,
    V: Join + Drop,
    H: RowHasher<N, K, V>,
    const N: usize,
>(
    alloc: Global,
    a: &mut Replica<K, V, H, N>,
    b: &mut Replica<K, V, H, N>,
) -> Result<(), TurnsError<K>>
    requires alike { AreSetAlike H.laws (side a.old) (side b.old) }
    requires format_2 { a.old.tree.format ≡ V2 }
    ensures same { OnOk result (ExactlySyncsToTheJoin H.laws N a.old b.old a.new b.new) }
    ensures stopped { IfErr result (StopInTurns H.laws a.old b.old a.new b.new) }
    ensures a_settings { SameSettings a.old.tree a.new.tree }
    ensures b_settings { SameSettings b.old.tree b.new.tree }
{
    no_collision_is_enough::<K, V, H, N>();
    sync(alloc, a, b)
}
