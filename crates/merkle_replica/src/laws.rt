//! Laws over the definitions alone: what is premise enough in page format 2, that a map in memory is small, which tree a replica has, that
//! three steps are a pull, and what gossip joins. Each function has no effect and takes no memory.

ghost use Rattle.merkle_replica.specs.Contents.{IsTreeOfSide, side};
ghost use Rattle.merkle_replica.specs.Faithful.{HasSmallMap};
ghost use Rattle.merkle_replica.specs.Faithfully.{CollisionFreeIsFaithful, CollisionFreePullsCover, CollisionFreeTurnsAreFaithful, CollisionFreeTurnsConverge};
ghost use Rattle.merkle_replica.specs.Gossip.{GossipJoins, OrderIsIndifferent};
ghost use Rattle.merkle_replica.specs.PullSteps.{AnswersAreThoseOfAPull, PullsHaveOneAnswer, PullsLeaveOneMap, StepsAreAPull};

use crate::replica::Replica;
use crate::row_hasher::RowHasher;
use key_order::Join;
use merkle_digest::{Key, KeyBytes, KeyBytesExact};
use merkle_search_tree::laws::{
    a_map_has_one_tree, a_tree_in_memory_is_small, equal_keys_have_equal_bytes,
    every_tree_is_sound, exact_keys_make_pages_faithful, page_ranges_of_a_map,
};

/// In format 2, where the bytes of a key tell it from every other, it is premise enough that no streams and no values collide, for
/// coverage by [`Replica::pull`](crate::Replica::pull), for convergence by [`pull_by_turns`](crate::pull_by_turns), and for the
/// faithful digests of which both speak. It holds of any two sides that are alike: one digest a key, one level base.
pub fn no_collision_is_enough<
    K: Ord + KeyBytesExact,
    V: Join,
    H: RowHasher<N, K, V>,
    const N: usize,
>()
    // Two sides without collision have faithful digests.
    ensures faithful { CollisionFreeIsFaithful H.laws N }

    // So have all that pulls by turns meet.
    ensures all_faithful { CollisionFreeTurnsAreFaithful H.laws N }

    // Coverage: where no streams collide and the peer's keys span the local ones, the ranges to ask the peer for miss no key.
    ensures covers { CollisionFreePullsCover H.laws N }

    // Convergence: four pulls by turns or more, without collision in the sides met, leave both with the join of their maps.
    ensures converges { CollisionFreeTurnsConverge H.laws N }
{
    exact_keys_make_pages_faithful::<K, H, N>();
    page_ranges_of_a_map::<K, H, N>();
}

/// The map of a replica in memory is small: its keys have fewer than 2^64 bytes, the digests of its values `N` bytes, and each page of a
/// tree of the map has fewer than 2^64 nodes. It looks at the bytes of each key.
pub fn a_replica_in_memory_is_small<K: Key, V: Join, H: RowHasher<N, K, V>, const N: usize>(
    replica: &Replica<K, V, H, N>,
)
    ensures { HasSmallMap H.laws N (side replica.now) }
{
    equal_keys_have_equal_bytes::<K>();
    a_tree_in_memory_is_small(replica.tree());
}

/// The pages of a replica are the tree of its rows, each value replaced by its digest. So the page ranges that it tells a peer are those that
/// [`steps_are_a_pull`] asks for.
pub fn a_replica_has_the_tree_of_its_rows<K: Key, V: Join, H: RowHasher<N, K, V>, const N: usize>(
    replica: &Replica<K, V, H, N>,
)
    ensures { IsTreeOfSide H.laws (side replica.now) replica.now.tree.root }
{
    every_tree_is_sound(replica.tree());
}

/// The three steps of a pull are a pull, whatever lies between them: where each message was read on the other side as what was sent, up
/// to equal keys and equal values, as it is where it was turned to bytes and read again. So coverage and convergence hold of such steps as
/// of pulls, under any hashers, level bases and page formats. Nothing has to be known of the messages but that: where what came is what was
/// sent, the lemmas `same_entries-own`, `same_spans-own` and `equal_rows-own` (of `merkle_diff` and `key_order`) say so.
pub fn steps_are_a_pull<K: Ord + KeyBytes, V: Join, H: RowHasher<N, K, V>, const N: usize>()
    // Ranges that answer the list of the peer's tree, up to equal keys, are those of a pull.
    ensures answer { AnswersAreThoseOfAPull H.laws }

    ensures pull { StepsAreAPull H.laws }
{
    page_ranges_of_a_map::<K, H, N>();
}

/// A pull has one answer, up to equal keys and equal values: of the same two sides any two answers have the same ranges, and any two pulls
/// join as many rows and leave the same ones. So the ranges that a list of page ranges is answered with, by
/// [`Replica::ranges_to_ask_of`](crate::Replica::ranges_to_ask_of), are those of a pull, where the list is that of the peer's tree.
pub fn a_pull_has_one_answer<K: Ord + KeyBytes, V: Join, H: RowHasher<N, K, V>, const N: usize>()
    ensures ranges { PullsHaveOneAnswer H.laws }
    ensures pulls { PullsLeaveOneMap H.laws }
{
    a_map_has_one_tree::<K, H, N>();
}

/// Gossip joins what came. Whatever catch-ups are made among any number of replicas, in whatever order, the rows of each are then the
/// join of the rows of those whose news came to it, by a chain of catch-ups, while digests are faithful in what is met before each. So
/// all hold the join of all maps as soon as the news of each has come to each: through a hub, round a ring and back, or in any other way. It
/// holds of any hashers, level bases and page formats.
pub fn gossip_joins_what_came<K: Ord + KeyBytes, V: Join, H: RowHasher<N, K, V>, const N: usize>()
    ensures joins { GossipJoins H.laws }

    // The order in which maps are joined doesn't matter, nor how often each is.
    ensures same { OrderIsIndifferent K.cmp V.eq V.join_of }
{}
