//! Catch-ups by messages: what is premise enough, how many replies come at most and how long their keys are; a copy that pulls what its
//! original pulls; and ranges that are found again.
ghost use Rattle.std.specs.Prelude.{◌≡◌, IfOk, OnOk};
ghost use Rattle.merkle_diff.specs.DiffRange.{spans};
ghost use Rattle.merkle_diff.specs.Difference.{IsAnswer};
ghost use Rattle.merkle_diff.specs.Merge.{SameSpans};
ghost use Rattle.merkle_tree_theory.specs.declared.page_format.PageFormat.TheVariants.{V2};
ghost use Rattle.merkle_replica.specs.Contents.{side};
ghost use Rattle.merkle_replica.specs.Faithful.{AreSetAlike};
ghost use Rattle.merkle_wire.specs.Sessions.{DigestTheirValuesAlike};
ghost use Rattle.examples.specs.Sessions.{AreMostKeyBytes, AreMostReplies, HaveOneMap, JoinsWhereNothingCollides};

use merkle_bytes::laws::keys_of_a_run_are_bounded;
use merkle_bytes::{Decode, Encode};
use merkle_diff::laws::the_exact_walk_has_one_answer;
use merkle_diff::{DiffRange, PageRangeSnapshot, diff_snapshots};
use merkle_digest::{Key, KeyBytesExact};
use merkle_replica::laws::{a_pull_has_one_answer, a_replica_in_memory_is_small};
use merkle_replica::{Join, PullError, Replica, RowHasher};
use merkle_wire::laws::{an_honest_session_ends, no_collision_makes_a_session_faithful};
use merkle_wire::{MessagesError, catch_up_by_messages};
use std::alloc::{AllocError, Global};

/// Catches up with a peer by messages, in page format 2, for keys that their bytes tell apart. It is enough that no two unequal streams of
/// pages have one digest, that equal digests of values mean equal values, and that no nodes of pages collide.
///
/// # Errors
///
/// As of [`catch_up_by_messages`].
pub fn catch_up_exact<
    K: Key + KeyBytesExact + Decode,
    V: Join + Decode,
    H: RowHasher<N, K, V>,
    const N: usize,
>(
    alloc: Global,
    replica: &mut Replica<K, V, H, N>,
    peer: &mut Replica<K, V, H, N>,
) -> Result<usize, MessagesError>
    requires alike { AreSetAlike H.laws (side replica.old) (side peer.old) }
    requires values { DigestTheirValuesAlike H.laws (side replica.old) (side peer.old) }
    requires format_2 { replica.old.tree.format ≡ V2 }
    ensures join { OnOk result (JoinsWhereNothingCollides H.laws N replica.old peer.old replica.new) }
    ensures peer_rows { peer.new.rows ≡ peer.old.rows }
{
    no_collision_makes_a_session_faithful::<K, V, H, N>();
    catch_up_by_messages(alloc, replica, peer)
}

/// How many replies of a peer ask on at most, in a session of whoever catches up with it: so a server knows how long to serve.
/// It looks at the bytes of each key of the peer, and takes no memory.
pub fn most_replies<K: Key + Decode, V: Join + Decode, H: RowHasher<N, K, V>, const N: usize>(
    peer: &Replica<K, V, H, N>,
) -> u128
    ensures { AreMostReplies H.laws N K.encoding V.encoding peer.now result }
{
    an_honest_session_ends::<K, V, H, N>();
    a_replica_in_memory_is_small(peer);
    peer.rows().len() as u128 * 3 + 2
}

/// How many bytes the keys of rows have at most that stand in this many bytes of a reply: so who takes replies of a bounded length knows what
/// their keys come to.
pub fn most_key_bytes<K: Encode, V: Encode>(bytes: usize) -> u128
    ensures { AreMostKeyBytes K.encoding V.encoding bytes result }
{
    keys_of_a_run_are_bounded::<K, V>();
    bytes as u128 * 64
}

/// The ranges in which two lists of page ranges differ, asked for again: they are those that were found before, up to equal keys, whoever
/// found them.
///
/// # Errors
///
/// Out of memory.
pub fn found_again<'p, K: Ord>(
    alloc: Global,
    local: &'p PageRangeSnapshot<K>,
    peer: &'p PageRangeSnapshot<K>,
    before: &[DiffRange<'p, K>],
) -> Result<Vec<DiffRange<'p, K>>, AllocError>
    requires { IsAnswer K.cmp local.now peer.now (spans before.now) }
    ensures { IfOk result (λ found. SameSpans K.cmp (spans before.now) (spans found.items)) }
{
    the_exact_walk_has_one_answer::<K>();
    diff_snapshots(alloc, local, peer)
}

/// A replica and a copy of it pull from a peer, one after the other, and hold the same map again.
///
/// # Errors
///
/// Out of memory: the first may have pulled then, and the copy not.
pub fn pull_with_copy<K: Key + Drop, V: Join + Drop, H: RowHasher<N, K, V>, const N: usize>(
    replica: &mut Replica<K, V, H, N>,
    copy: &mut Replica<K, V, H, N>,
    peer: &mut Replica<K, V, H, N>,
) -> Result<(), PullError<K>>
    requires copied { side copy.old ≡ side replica.old }
    ensures { OnOk result (HaveOneMap H.laws replica.new copy.new) }
{
    a_pull_has_one_answer::<K, V, H, N>();
    replica.pull(peer)?;
    copy.pull(peer)?;
    Ok(())
}
