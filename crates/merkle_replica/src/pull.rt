//! Pulls: a replica joins what its tree shows it to lack from a peer.
ghost use Rattle.std.specs.Prelude.{◌≡◌, IfOk, IfErr, IsSome};
ghost use Rattle.merkle_diff.specs.DiffRange.{spans};
ghost use Rattle.merkle_diff.specs.Merge.{SameSpans};
ghost use Rattle.merkle_tree_theory.specs.Hashed.{hashed_tree};
ghost use Rattle.merkle_tree_theory.specs.State.{SameSettings};
ghost use Rattle.merkle_replica.specs.Contents.{side};
ghost use Rattle.merkle_replica.specs.Faithfully.{CoverInPartWhileFaithful, CoversWhileFaithful};
ghost use Rattle.merkle_replica.specs.Answers.{spans_of, MayAskPeer, HasPulled, StopsPulling};
ghost use Rattle.merkle_replica.specs.Steps.{MayAskOf};

use crate::replica::Replica;
use crate::row_hasher::RowHasher;
use key_order::Join;
use merkle_diff::{DiffRange, PageRangeSnapshot, diff};
use merkle_digest::{Key, SameClone};
use merkle_search_tree::laws::{every_tree_is_sound, page_ranges_of_a_map};
use std::alloc::{AllocError, Global};

/// What a pull did.
#[derive(Debug, Drop)]
pub struct Pulled<K> {
    /// The ranges of keys that were asked for, ascending, each with its first and its last key.
    pub ranges: Vec<(K, K)>,
    /// How many rows of the peer are in the ranges.
    pub joined: usize,
}

/// Why a pull stopped: out of memory.
#[derive(Debug, Drop)]
pub enum PullError<K> {
    /// No row was joined, and the rows are unchanged. Pages may have got their digests.
    Memory,
    /// The first rows of the peer in the ranges are joined, and no others.
    Partly {
        /// The ranges, and how many rows of the peer are in them.
        pulled: Pulled<K>,
        /// How many of these rows are joined, in key order: at least one, and not all.
        done: usize,
    },
}

impl<K: Key + Drop, V: Join + Drop, H: RowHasher<N, K, V>, const N: usize> Replica<K, V, H, N> {
    /// The ranges of keys that a pull from the peer asks for: ascending, each with its first and its last key, in which the two trees
    /// differ. It hashes the pages of both trees that lack a digest, walks over the pages of both once, and copies the bounds of the
    /// ranges.
    ///
    /// ```rust crates/examples/src/gossip.rt
    /// local.ranges_to_ask(peer)
    /// ```
    ///
    /// # Errors
    ///
    /// `AllocError` if memory runs out; the rows are then as they were, and both trees hashed.
    pub fn ranges_to_ask(
        &mut self,
        peer: &mut Replica<K, V, H, N>,
    ) -> Result<Vec<(K, K)>, AllocError>
        ensures answer { IfOk result (λ ranges. MayAskPeer H.laws self.old peer.old ranges.items) }
        ensures rows { self.new.rows ≡ self.old.rows }
        ensures peer_rows { peer.new.rows ≡ peer.old.rows }

        // Both trees are hashed, whatever it answers.
        ensures tree { self.new.tree ≡ hashed_tree K.bytes_of self.old.tree }
        ensures peer_tree { peer.new.tree ≡ hashed_tree K.bytes_of peer.old.tree }
        ensures settings { SameSettings self.old.tree self.new.tree }
        ensures peer_settings { SameSettings peer.old.tree peer.new.tree }
    {
        self.hash();
        peer.hash();
        ask(self.alloc, self, peer)
    }

    /// Hashes both trees, and joins each row of the peer whose key is in a range of keys in which the trees differ, one after the
    /// other in key order, each key cloned when its turn comes. The peer's rows stay.
    ///
    /// A value is copied by joining it with itself, and then joined with the one that is here, if there is one. The bounds of the ranges
    /// are copied, and room for all rows is made, before a row is joined. Own rows below the first range stay where they are; those from
    /// it on are moved out of the way and back in one pass, so a pull costs no more a row where it joins many. Where it joins none, none
    /// moves.
    ///
    /// Replicas of equal rows, at least one, whose trees are in different page formats don't look the same, as far as no digests collide: a
    /// pull then asks for ranges, and joins what is there already. Whatever it joins is right all the same, and no row is lost.
    ///
    /// ```rust crates/merkle_replica_tests/src/agreeing.rt
    /// // the keys of `a` span those of `b`, so that one pull is enough
    /// let pulled = b.pull(&mut a)?;
    /// assert_eq!(rt; pulled.joined, 3);
    /// assert!(rt; agree(&mut a, &mut b));
    /// ```
    ///
    /// # Errors
    ///
    /// [`PullError`] if memory runs out: no row is joined, or the first ones in key order and not all.
    pub fn pull(&mut self, peer: &mut Replica<K, V, H, N>) -> Result<Pulled<K>, PullError<K>>
        // The rows are the join with the peer's rows in the ranges.
        ensures done { IfOk result (HasPulled H.laws self.old peer.old self.new) }

        // Refused, it has joined no row, or the first ones.
        ensures refused { IfErr result (StopsPulling H.laws self.old peer.old self.new) }

        // Coverage: where pages with equal digests have equal maps, and the peer's keys span the replica's, the ranges miss no key, also
        // where the pull stopped after the first rows.
        ensures covers { IfOk result (CoversWhileFaithful H.laws (side self.old) (side peer.old)) }
        ensures part_covers { IfErr result (CoverInPartWhileFaithful H.laws (side self.old) (side peer.old)) }

        ensures peer_rows { peer.new.rows ≡ peer.old.rows }
        ensures peer_tree { peer.new.tree ≡ hashed_tree K.bytes_of peer.old.tree }
        ensures settings { SameSettings self.old.tree self.new.tree }
        ensures peer_settings { SameSettings peer.old.tree peer.new.tree }
    {
        self.rows_ascend();
        peer.rows_ascend();
        page_ranges_of_a_map::<K, H, N>();
        let Ok(ranges) = self.ranges_to_ask(peer) else {
            return Err(PullError::Memory);
        };
        match self.join_within(peer.rows(), &ranges) {
            Ok(joined) => Ok(Pulled { ranges, joined }),
            Err(stopped) => {
                if stopped.done == 0 {
                    return Err(PullError::Memory);
                }
                let done = stopped.done;
                let joined = stopped.joined;
                Err(PullError::Partly {
                    pulled: Pulled { ranges, joined },
                    done,
                })
            }
        }
    }
}

/// The ranges that `local` may ask of `peer`, where both are hashed, with bounds of their own.
fn ask<K: Key + Drop, V: Join + Drop, H: RowHasher<N, K, V>, const N: usize>(
    alloc: Global,
    local: &Replica<K, V, H, N>,
    peer: &Replica<K, V, H, N>,
) -> Result<Vec<(K, K)>, AllocError>
    requires local_hashed { IsSome local.now.tree.root_hash }
    requires peer_hashed { IsSome peer.now.tree.root_hash }
    ensures { IfOk result (λ ranges. MayAskPeer H.laws local.now peer.now ranges.items) }
{
    every_tree_is_sound(local.tree());
    every_tree_is_sound(peer.tree());
    let ours = match local.tree().page_range_iter()? {
        Some(ours) => ours,
        None => unreachable!(),
    };
    let theirs = match peer.tree().page_range_iter()? {
        Some(theirs) => theirs,
        None => unreachable!(),
    };
    let found = diff(alloc, ours, theirs)?;
    own_bounds(alloc, &found)
}

/// The ranges that `local`, which is hashed, may ask of a peer that sent these page ranges, with bounds of their own.
pub(crate) fn ask_of<K: Key + Drop, V: Join + Drop, H: RowHasher<N, K, V>, const N: usize>(
    alloc: Global,
    local: &Replica<K, V, H, N>,
    theirs: &PageRangeSnapshot<K>,
) -> Result<Vec<(K, K)>, AllocError>
    requires hashed { IsSome local.now.tree.root_hash }
    ensures { IfOk result (λ ranges. MayAskOf H.laws local.now theirs.now ranges.items) }
{
    every_tree_is_sound(local.tree());
    let ours = match local.tree().page_range_iter()? {
        Some(ours) => ours,
        None => unreachable!(),
    };
    let found = diff(alloc, ours, theirs.iter())?;
    own_bounds(alloc, &found)
}

/// The ranges with bounds of their own.
fn own_bounds<K: SameClone + Drop>(
    alloc: Global,
    found: &[DiffRange<'_, K>],
) -> Result<Vec<(K, K)>, AllocError>
    ensures { IfOk result (λ ranges. SameSpans K.cmp (spans found.now) (spans_of ranges.items)) }
{
    let mut ranges = Vec::new(alloc);
    'owning: for range in found {
        let first = range.start().clone()?;
        let last = range.end().clone()?;
        ranges.push((first, last))?;
    }
    Ok(ranges)
}
