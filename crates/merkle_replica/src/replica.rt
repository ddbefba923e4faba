//! A replica: a map from keys to values, with the tree of their digests.
ghost use Rattle.std.specs.Prelude.{◌≡◌, OnOk, OnErr, IfOk, IfErr, [], ◌∷◌, None};
ghost use Rattle.key_order.specs.Map.{IsMap};
ghost use Rattle.key_order.specs.Join.{IsJoin};
ghost use Rattle.merkle_tree_theory.specs.Dropped.{RemovalDropsFew};
ghost use Rattle.merkle_tree_theory.specs.State.{HasSettings, SameSettings};
ghost use Rattle.merkle_replica.specs.Contents.{IsEmpty, HasItsDigests};
ghost use Rattle.key_order.specs.Places.{FindsRow, IsPlaceOf, IsGapFor};
ghost use Rattle.merkle_replica.specs.Puts.{PutDropsFew};

use crate::merge::{Stopped, join_all, join_owned};
use crate::value_hasher::ValueHasher;
use key_order::Join;
use merkle_digest::{Hasher, Key, RootHash};
use merkle_search_tree::builder::Builder;
use merkle_search_tree::{LoadRefused, MerkleSearchTree};
use std::alloc::{AllocError, Global};
use std::cmp::Ordering;
use std::marker::Model;

/// A map from keys to values that can be joined, kept as rows in ascending key order, and the Merkle search tree of the digests of
/// the values. Rows and tree never part, also if memory runs out.
///
/// ```rust crates/examples/src/readme.rt
/// let mut a: Replica<String, u64, SipHasher, 16> = Replica::new(alloc, Builder::default());
/// a.put(key, 42)?;
/// // each pulls from the other, by turns, what is in the ranges of keys in which they differ: both come to hold the join
/// pull_by_turns(alloc, &mut a, b, 4)?;
/// ```
///
/// A contract sees the rows, and the tree as its hasher, its level base, its page format, its root page with all caches, and its cached
/// root hash. The replica keeps the allocator that it was made with.
pub struct Replica<K: Key, V: Eq, H: Hasher<N, K> + ValueHasher<N, V>, const N: usize> {
    pub(crate) alloc: Global,
    rows: Vec<(K, V)>,
    tree: MerkleSearchTree<K, V, H, N>,
}

// Written out, so that a caller doesn't prove again how each part is dropped.
impl<K: Key + Drop, V: Eq + Drop, H: Hasher<N, K> + ValueHasher<N, V> + Drop, const N: usize> Drop
    for Replica<K, V, H, N> {
    fn drop(self) {
        let Replica {
            alloc: _,
            rows: _,
            tree: _,
        } = self;
    }
}

impl<K: Key, V: Eq, H: Hasher<N, K> + ValueHasher<N, V>, const N: usize> Model
    for Replica<K, V, H, N> {
    ghost use Rattle.merkle_replica.specs.Contents.{Contents, contents_code, IsKept};

    ghost Value = { Contents K V H };

    ghost coded = { contents_code K.code V.code H.code };

    ghost view = { λ r. record { rows = r.rows.items; tree = r.tree } };

    ghost invariant = { λ r. IsKept K.cmp H.value_digest (record { rows = r.rows.items; tree = r.tree }) };
}

impl<K: Key, V: Eq, H: Hasher<N, K> + Hasher<N, V>, const N: usize> Replica<K, V, H, N> {
    /// A replica without rows, whose tree has the builder's hasher, level base and page format. It takes no memory.
    pub fn new(alloc: Global, builder: Builder<H>) -> Self
        ensures { IsEmpty builder.hasher builder.base builder.format result }
    {
        Replica {
            alloc,
            rows: Vec::new(alloc),
            tree: builder.build(alloc),
        }
    }

    /// The allocator that it was made with.
    pub fn alloc(&self) -> Global {
        self.alloc
    }

    /// The rows, strictly ascending by key.
    pub fn rows(&self) -> &[(K, V)]
        ensures rows { result.now ≡ self.now.rows }
        ensures ascending { IsMap K.cmp self.now.rows }
    {
        &self.rows
    }

    /// The rows ascend strictly by key.
    pub(crate) fn rows_ascend(&self)
        ensures { IsMap K.cmp self.now.rows }
    {
        let _ = &self.rows;
    }

    /// The tree of the digests of the rows.
    pub fn tree(&self) -> &MerkleSearchTree<K, V, H, N>
        ensures tree { result.now ≡ self.now.tree }

        // Its map is the digests of the rows.
        ensures digests { HasItsDigests K.cmp ⟦<H as Hasher<N, V>>⟧.digest_of self.now }
    {
        &self.tree
    }
}

impl<K: Key, V: Eq, H: Hasher<N, K> + ValueHasher<N, V>, const N: usize> Replica<K, V, H, N> {
    ghost use Rattle.std.specs.Prelude.{◌≡◌};
    ghost use Rattle.merkle_tree_theory.specs.Stream.{page_digest};
    ghost use Rattle.merkle_tree_theory.specs.Hashed.{hashed_tree};
    ghost use Rattle.merkle_replica.specs.RootHash.{ends_hashed};
    ghost use Rattle.std.specs.Borrow.{sem};

    /// Fills in the digests that pages of the tree lack, so that the tree is hashed then, at the cost of
    /// [`MerkleSearchTree::root_hash`]. It takes no memory.
    pub fn hash(&mut self)
        ensures rows { self.new.rows ≡ self.old.rows }
        ensures tree { self.new.tree ≡ hashed_tree K.bytes_of self.old.tree }
        ensures settings { SameSettings self.old.tree self.new.tree }
    {
        let _ = self.tree.root_hash_counted();
    }

    /// The digest of the root page of the tree. It fills in the digests that pages lack, so the tree is hashed then, and takes no
    /// memory. Replicas whose rows have equal keys and equal digests have equal root hashes, under one hasher, level base and page format; the
    /// converse holds only as far as no digests collide.
    ///
    /// ```rust crates/merkle_replica/src/agreeing.rt
    /// a.root_hash() == b.root_hash()
    /// ```
    pub fn root_hash(&mut self) -> &RootHash
        ensures* hashed { sem 𝓛 (ends_hashed K.row V.row H.row N K.Ord.own K.PartialEq K.PartialOrd.own K.Clone K.KeyBytes.own
            V.PartialEq H.Hasher H.ValueHasher self.entry) }
        ensures digest { result.now ≡ page_digest self.old.tree.format K.bytes_of self.old.tree.root }
    {
        self.hash();
        match self.tree.root_hash_cached() {
            Some(digest) => digest,
            None => unreachable!(),
        }
    }
}

impl<K: Key + Drop, V: Join + Drop, H: Hasher<N, K> + Hasher<N, V>, const N: usize> Replica<
    K,
    V,
    H,
    N,
> {
    /// Joins a row: a new key is added, and a key that is there holds the join of both values. It finds the key's place by
    /// halving, and moves the rows after a new one up by one: at a random place half of them. [`put_all`](Self::put_all) is for many
    /// rows. The tree then takes the value's digest, as [`MerkleSearchTree::upsert`] says.
    ///
    /// ```rust crates/examples/src/store.rt
    /// let mut store = open_rows(alloc, rows)?;
    /// store.put(name, number)?;
    /// let digest = root_hash(&mut store)?;
    /// ```
    ///
    /// # Errors
    ///
    /// `AllocError` if memory runs out; the replica is then unchanged, and key and value are given up.
    pub fn put(&mut self, key: K, value: V) -> Result<(), AllocError>
        ensures joined { OnOk result (IsJoin K.cmp V.eq V.join_of self.old.rows ((key, value) ∷ []) self.new.rows) }
        ensures unchanged { OnErr result (self.new ≡ self.old) }
        ensures settings { SameSettings self.old.tree self.new.tree }

        // Few digests of the tree are dropped.
        ensures few_more { OnOk result (PutDropsFew ⟦<H as Hasher<N, K>>⟧.digest_of key self.old.tree self.new.tree) }
    {
        match place(&self.rows, &key) {
            Ok(at) => {
                let stored = self.rows[at].1.join(self.alloc, &value)?;
                if self.tree.upsert(key, &stored).is_err() {
                    return Err(AllocError);
                }
                self.rows[at].1 = stored;
                Ok(())
            }
            Err(at) => {
                self.rows.reserve(1)?;
                let own = key.clone()?;
                if self.tree.upsert(own, &value).is_err() {
                    return Err(AllocError);
                }
                match self.rows.insert(at, (key, value)) {
                    Ok(()) => Ok(()),
                    Err(_) => unreachable!(),
                }
            }
        }
    }
}

impl<K: Key + Drop, V: Join + Drop, H: Hasher<N, K> + Hasher<N, V>, const N: usize> Replica<
    K,
    V,
    H,
    N,
> {
    ghost use Rattle.std.specs.Prelude.{IsOk, true, false};
    ghost use Rattle.key_order.specs.Map.{has_key, del};
    ghost use Rattle.merkle_tree_theory.specs.Remove.{HasFreeGap};

    /// Takes the row of a key out of this replica alone, so a pull from a peer that still has the key brings the row back: removals
    /// are not merged. Returns true if a row was taken out, and false where there was none.
    ///
    /// It finds the row by halving, and moves the rows after it down by one; the tree then compares `key` and joins pages as
    /// [`MerkleSearchTree::remove`] says. No memory is taken where there is no such row, or where in the tree the gap before its key or
    /// the gap after it is empty.
    ///
    /// ```rust crates/merkle_replica_tests/src/kinds.rt
    /// map.del(&K::of(alloc, number)?)
    /// ```
    ///
    /// # Errors
    ///
    /// `AllocError` if memory runs out; rows and tree are then as they were.
    pub fn del(&mut self, key: &K) -> Result<bool, AllocError>
        // The rows no longer have the key, and the answer says whether they had it.
        ensures rows { OnOk result (self.new.rows ≡ del K.cmp self.old.rows key.now) }
        ensures found { IfOk result (λ found. found ≡ has_key K.cmp self.old.rows key.now) }
        ensures settings { SameSettings self.old.tree self.new.tree }

        // Few digests of the tree are dropped.
        ensures few_more { OnOk result (RemovalDropsFew self.old.tree self.new.tree) }

        // Where there is no such row, and where it is refused, nothing changes.
        ensures absent { IfOk result (λ found. found ≡ false → self.new ≡ self.old) }
        ensures unchanged { OnErr result (self.new ≡ self.old) }
        ensures succeeds { HasFreeGap K.cmp key.now self.old.tree.root → IsOk result }
        ensures succeeds_absent { has_key K.cmp self.old.rows key.now ≡ false → IsOk result }
    {
        let Ok(at) = place(&self.rows, key) else {
            return Ok(false);
        };
        self.tree.remove(key)?;
        self.rows.remove(at);
        Ok(true)
    }
}

/// Rows of which no replica was made.
#[derive(Debug, Drop)]
pub struct RowsRefused<K, V> {
    /// The rows, as they were handed in.
    pub rows: Vec<(K, V)>,
    /// Why: the place of the first row that doesn't ascend, or out of memory.
    pub why: LoadRefused,
}

impl<K: Key + Drop, V: Join, H: Hasher<N, K> + Hasher<N, V> + Drop, const N: usize> Replica<
    K,
    V,
    H,
    N,
> {
    ghost use Rattle.merkle_search_tree.specs.Loading.{LoadFails, BeginsWith};

    /// A replica of rows that ascend strictly by key, whose tree has the builder's hasher, level base and page format. It takes the rows
    /// over as they are: no row is moved, and each key is cloned once, for the tree.
    ///
    /// The tree is built in one pass, as [`MerkleSearchTree::from_ascending_slice`] says.
    ///
    /// ```rust crates/examples/src/store.rt
    /// match Replica::from_rows(alloc, Builder::default(), rows) {
    ///     Ok(store) => Ok(store),
    ///     Err(refused) => Err(refused.why),
    /// }
    /// ```
    ///
    /// # Errors
    ///
    /// [`RowsRefused`], at the first row that doesn't ascend or if memory runs out: it hands the rows back, and the builder is given
    /// up.
    pub fn from_rows(
        alloc: Global,
        builder: Builder<H>,
        rows: Vec<(K, V)>,
    ) -> Result<Self, RowsRefused<K, V>>
        ensures rows { IfOk result (λ replica. replica.rows ≡ rows.items) }
        ensures settings { IfOk result (λ replica. HasSettings builder replica.tree) }
        ensures not_hashed { IfOk result (λ replica. replica.tree.root_hash ≡ None) }

        // Refused, the rows are handed back, with the first that doesn't ascend where there is one.
        ensures returned { IfErr result (λ refused. refused.rows.items ≡ rows.items) }
        ensures refused { IfErr result (λ refused. LoadFails K.cmp (BeginsWith rows.items) refused.why) }
    {
        match MerkleSearchTree::from_ascending_slice(alloc, builder, &rows) {
            Ok(tree) => Ok(Replica { alloc, rows, tree }),
            Err(why) => Err(RowsRefused { rows, why }),
        }
    }
}

impl<K: Key + Drop, V: Join + Drop, H: Hasher<N, K> + Hasher<N, V>, const N: usize> Replica<
    K,
    V,
    H,
    N,
> {
    ghost use Rattle.std.specs.List.{AllByRecursion};
    ghost use Rattle.key_order.specs.Interval.{IsApart, IsOrdered};
    ghost use Rattle.merkle_replica.specs.Answers.{spans_of, JoinsWithin, JoinsPartly};
    ghost use Rattle.merkle_replica.specs.Puts.{IsRising, HasGathered, IsGatheredTo};

    /// Joins the rows of `theirs` in the ranges, in one pass over both, and returns how many they are.
    pub(crate) fn join_within(
        &mut self,
        theirs: &[(K, V)],
        ranges: &[(K, K)],
    ) -> Result<usize, Stopped>
        requires apart { IsApart K.cmp (spans_of ranges.now) }
        requires ordered { AllByRecursion (IsOrdered K.cmp) (spans_of ranges.now) }
        requires ascending { IsMap K.cmp theirs.now }
        ensures all { IfOk result (JoinsWithin K.cmp V.eq V.join_of ranges.now theirs.now self.old.rows self.new.rows) }
        ensures stopped { IfErr result (JoinsPartly K.cmp V.eq V.join_of ranges.now theirs.now self.old.rows self.new.rows) }
        ensures settings { SameSettings self.old.tree self.new.tree }
    {
        join_all(self.alloc, &mut self.rows, &mut self.tree, theirs, ranges)
    }

    /// The row at a key, where there is one. It finds it by halving, and takes no memory.
    ///
    /// ```rust crates/merkle_wire/src/kept_rows.rt
    /// match self.row_at(key) {
    ///     None => Ok(false),
    ///     Some(row) => {
    ///         row.1.encode(bytes)?;
    ///         Ok(true)
    ///     }
    /// }
    /// ```
    pub fn row_at(&self, key: &K) -> Option<&(K, V)>
        ensures { FindsRow K.cmp key.now self.now.rows result }
    {
        match place(&self.rows, key) {
            Ok(at) => Some(&self.rows[at]),
            Err(_) => None,
        }
    }

    /// Joins rows whose keys don't fall, in one pass over both. Refused, it returns how many of them are joined.
    pub(crate) fn join_rising(&mut self, theirs: Vec<(K, V)>) -> Result<(), usize>
        requires rising { IsRising K.cmp theirs.items }
        ensures all { OnOk result (HasGathered K.cmp V.eq V.join_of self.old.rows theirs.items self.new.rows) }
        ensures cut { IfErr result (IsGatheredTo K.cmp V.eq V.join_of self.old.rows theirs.items self.new.rows) }
        ensures settings { SameSettings self.old.tree self.new.tree }
    {
        join_owned(self.alloc, &mut self.rows, &mut self.tree, theirs)
    }
}

/// Where the key is among ascending rows, or where it would go.
fn place<K: Ord, V>(rows: &[(K, V)], key: &K) -> Result<usize, usize>
    requires { IsMap K.cmp rows.now }
    ensures found { IfOk result (λ at. IsPlaceOf K.cmp key.now rows.now at) }
    ensures absent { IfErr result (λ at. IsGapFor K.cmp key.now rows.now at) }
{
    rows.binary_search_by(
        |row: &(K, V)| -> Ordering
            ensures { result ≡ K.cmp row.now.0 key.entry.now }
        { row.0.cmp(key) },
    )
}
