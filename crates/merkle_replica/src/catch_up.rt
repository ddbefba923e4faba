//! Catch-ups: a replica joins exactly the rows of a peer that it lacks.
ghost use Rattle.std.specs.Prelude.{◌≡◌, ◌+◌, ◌≤◌, length, IfOk, IfErr, OnOk, IsSome};
ghost use Rattle.merkle_search_tree.specs.Items.{items};
ghost use Rattle.merkle_tree_theory.specs.Page.{level};
ghost use Rattle.merkle_tree_theory.specs.State.{SameSettings};
ghost use Rattle.merkle_replica.specs.CatchUp.{HasCaughtUp, StopsCatchingUp, LacksKeys, LacksRows};
ghost use Rattle.merkle_replica.specs.Contents.{side};
ghost use Rattle.merkle_replica.specs.Descent.{whole_of};
ghost use Rattle.merkle_replica.specs.Faithfully.{JoinsWhileFaithful};
ghost use Rattle.merkle_replica.specs.Missing.{nodes_to_compare, pages_to_open};

use crate::descent::node_count;
use crate::laws::a_replica_has_the_tree_of_its_rows;
use crate::replica::Replica;
use crate::row_hasher::RowHasher;
use crate::wanted::in_order;
use key_order::Join;
use merkle_digest::{Hasher, Key};
use merkle_search_tree::OutlineItem;
use merkle_search_tree::laws::{
    a_map_has_one_tree, equal_keys_are_on_one_level, equal_pages_have_equal_maps,
    every_tree_is_sound, outlines_lead_down,
};
use std::alloc::{AllocError, Global};

/// What a catch-up did.
#[derive(Clone, Copy, Debug, PartialEq, Eq)]
pub struct CaughtUp {
    /// How many rows of the peer were joined.
    pub joined: usize,
    /// How many rounds were made: in each, pages of the peer were opened, from the root down.
    pub rounds: usize,
    /// How many pages of the peer were opened.
    pub opened: usize,
    /// How many nodes these have: each was looked up on this side.
    pub compared: usize,
}

/// Why a catch-up stopped: out of memory.
#[derive(Clone, Copy, Debug, PartialEq, Eq)]
pub enum CatchUpError {
    /// No row was joined, and the rows are unchanged. Pages may have got their digests.
    Memory,
    /// The first of the rows that this side lacks are joined, in key order, and not all.
    Partly {
        /// How many rows are joined: at least one.
        done: usize,
        /// How many rows this side lacks.
        lacked: usize,
    },
}

/// The keys that a replica lacks of a peer, and what it took to find them.
#[derive(Drop)]
struct Lacked<'a, K> {
    keys: Vec<&'a K>,
    rounds: usize,
    opened: usize,
    compared: usize,
}

impl<K: Key + Drop, V: Join + Drop, H: RowHasher<N, K, V>, const N: usize> Replica<K, V, H, N> {
    /// Joins exactly those rows of the peer whose key this side lacks or has with another digest, so that its rows are then the join of
    /// both sides' rows, while digests are faithful. The peer's rows stay.
    ///
    /// It hashes the pages of both trees that lack a digest, and then goes down the peer's tree in rounds, from the root: where this side's
    /// page over the same gap has the same digest, nothing below is looked at; else the page is opened, once, and its nodes are looked up
    /// here, one by one. No more rounds are made than the level of the peer's root and one. The keys that are missing are then sorted, and the
    /// rows at them copied, each value by a join with itself. Where few of them are new, each is then put; else they are joined in one pass,
    /// as [`put_all`](Self::put_all) joins rows.
    ///
    /// Over a wire the messages of `merkle_wire` do the same.
    ///
    /// Replicas whose trees differ in hasher, level base or page format spare each other nothing, but whatever is joined is right.
    ///
    /// ```rust crates/merkle_replica_tests/src/agreeing.rt
    /// let mut a = counts(alloc, &[("apples", 3), ("bananas", 5)])?;
    /// let mut b = counts(alloc, &[("bananas", 7), ("cherries", 1)])?;
    /// let caught = a.catch_up(&mut b)?;
    /// assert_eq!(rt; caught.joined, 2);
    /// ```
    ///
    /// # Errors
    ///
    /// [`CatchUpError`] if memory runs out: no row is joined, or the first ones in key order and not all.
    pub fn catch_up(&mut self, peer: &mut Replica<K, V, H, N>) -> Result<CaughtUp, CatchUpError>
        // The rows are the join with the peer's rows at the keys that this side was missing.
        ensures done { IfOk result (HasCaughtUp H.laws self.old peer.old self.new) }

        // While digests are faithful, that is the join of both sides' rows.
        ensures join { OnOk result (JoinsWhileFaithful H.laws (side self.old) (side peer.old) self.new.rows) }

        ensures few { IfOk result (λ caught. caught.rounds ≤ level peer.old.tree.root + 1) }

        // Each page of the peer is opened exactly once that this side hasn't over the same gap, and below a page that it has none is.
        ensures opened { IfOk result (λ caught. caught.opened ≡ pages_to_open H.laws (side self.old) (side peer.old)) }

        // Each node of these is looked up once.
        ensures compared { IfOk result (λ caught. caught.compared ≡ nodes_to_compare H.laws (side self.old) (side peer.old)) }

        // Refused, it has joined no row, or the first ones.
        ensures refused { IfErr result (StopsCatchingUp H.laws self.old peer.old self.new) }

        ensures peer_rows { peer.new.rows ≡ peer.old.rows }
        ensures settings { SameSettings self.old.tree self.new.tree }
        ensures peer_settings { SameSettings peer.old.tree peer.new.tree }
    {
        self.rows_ascend();
        peer.rows_ascend();
        self.hash();
        peer.hash();
        let Ok((rows, caught)) = self.lacked_rows(peer) else {
            return Err(CatchUpError::Memory);
        };
        match self.join_sparse(rows) {
            Ok(()) => Ok(caught),
            Err(0) => Err(CatchUpError::Memory),
            Err(done) => Err(CatchUpError::Partly {
                done,
                lacked: caught.joined,
            }),
        }
    }

    /// Copies of the rows of a peer that this side lacks, and what a catch-up does that joins them.
    fn lacked_rows(&self, peer: &Replica<K, V, H, N>) -> Result<(Vec<(K, V)>, CaughtUp), AllocError>
        requires local { IsSome self.now.tree.root_hash }
        requires hashed { IsSome peer.now.tree.root_hash }
        ensures rows { IfOk result (λ found. LacksRows H.laws self.now peer.now found.0.items) }
        ensures joined { IfOk result (λ found. found.1.joined ≡ length found.0.items) }
        ensures few { IfOk result (λ found. found.1.rounds ≤ level peer.now.tree.root + 1) }
        ensures opened { IfOk result (λ found. found.1.opened ≡ pages_to_open H.laws (side self.now) (side peer.now)) }
        ensures compared { IfOk result (λ found. found.1.compared ≡ nodes_to_compare H.laws (side self.now) (side peer.now)) }
    {
        let lacked = lacked_keys(self.alloc, self, peer)?;
        let keys = in_order(self.alloc, lacked.keys)?;
        let rows = peer.copies_at(&keys)?;
        let caught = CaughtUp {
            joined: rows.len(),
            rounds: lacked.rounds,
            opened: lacked.opened,
            compared: lacked.compared,
        };
        Ok((rows, caught))
    }
}

/// The keys that `local` lacks of `peer`, where both are hashed, with how many rounds were made, pages opened and nodes compared.
fn lacked_keys<'a, K: Key + Drop, V: Join + Drop, H: RowHasher<N, K, V>, const N: usize>(
    alloc: Global,
    local: &Replica<K, V, H, N>,
    peer: &'a Replica<K, V, H, N>,
) -> Result<Lacked<'a, K>, AllocError>
    requires local { IsSome local.now.tree.root_hash }
    requires peer { IsSome peer.now.tree.root_hash }
    ensures found { IfOk result (λ found. LacksKeys H.laws local.now peer.now found.keys.items) }
    ensures few { IfOk result (λ lacked. lacked.rounds ≤ level peer.now.tree.root + 1) }
    ensures opened { IfOk result (λ found. found.opened ≡ pages_to_open H.laws (side local.now) (side peer.now)) }
    ensures compared { IfOk result (λ found. found.compared ≡ nodes_to_compare H.laws (side local.now) (side peer.now)) }
{
    local.rows_ascend();
    every_tree_is_sound(peer.tree());
    a_replica_has_the_tree_of_its_rows(peer);
    a_map_has_one_tree::<K, H, N>();
    equal_pages_have_equal_maps::<K>();
    outlines_lead_down::<K, H, N>();
    equal_keys_are_on_one_level::<K, H, N>();
    // Each node is counted once, and there are as many as rows.
    let _ = peer.rows();
    let first = root_items(alloc, peer)?;
    let first_asked = local.sort_out(&first)?;
    let mut gaps = first_asked.gaps;
    let mut keys = first_asked.keys;
    let (mut rounds, mut opened, mut compared) = (0, 0, 0);
    'rounds: while !gaps.is_empty() {
        let outlines = peer.outlines(&gaps)?;
        let mut asked = local.sort_out(&outlines)?;
        keys.append(&mut asked.keys)?;
        rounds += 1;
        opened += gaps.len();
        compared += node_count(&outlines);
        gaps = asked.gaps;
    }
    Ok(Lacked {
        keys,
        rounds,
        opened,
        compared,
    })
}

/// The whole tree of a hashed replica as one item, or none where it has no row.
fn root_items<'a, K: Key + Drop, V: Join + Drop, H: Hasher<N, K> + Hasher<N, V>, const N: usize>(
    alloc: Global,
    replica: &'a Replica<K, V, H, N>,
) -> Result<Vec<OutlineItem<'a, N, K>>, AllocError>
    requires { IsSome replica.now.tree.root_hash }
    ensures { IfOk result (λ list. items list.items ≡ whole_of K.bytes_of replica.now.tree) }
{
    let mut items = Vec::new(alloc);
    if let Some(item) = replica.tree().whole() {
        items.push(item)?;
    }
    Ok(items)
}
