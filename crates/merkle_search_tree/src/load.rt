//! Building a tree of rows that come in ascending key order.

ghost use Rattle.std.specs.Prelude.{◌≡◌, IfOk, IfErr, OnOk, None};
ghost use Rattle.std.specs.Iterator.{IsFiniteIterable};
ghost use Rattle.key_order.specs.Map.{IsMap};
ghost use Rattle.merkle_diff.specs.Iterable.{Gives, Begins};
ghost use Rattle.merkle_tree_theory.specs.Edge.{edge_pairs};
ghost use Rattle.merkle_search_tree.specs.Loading.{Adds, IsLoading, HasLoaded, HasRowDigests, RowFails, LoadFails, BeginsWith};
ghost use Rattle.merkle_tree_theory.specs.State.{map_of, HasSettings};
ghost use Rattle.merkle_search_tree.specs.declared.load.LoadRefused.TheVariants.{Memory};

use crate::builder::Builder;
use crate::edge::{append, is_above, root_of};
use crate::page::PageOf;
use crate::tree::MerkleSearchTree;
use merkle_digest::{Hasher, Key, KeyBytes, ValueDigest, level};
use std::alloc::{AllocError, Global};
use std::error::Error;
use std::fmt;

/// Why rows were not loaded.
#[derive(Clone, Copy, Debug, PartialEq, Eq)]
pub enum LoadRefused {
    /// Out of memory.
    Memory,
    /// The row at this place, counted from 0 and at most `usize::MAX`, is the first whose key isn't above that of the row before it.
    NotAscending(usize),
}

impl From<AllocError> for LoadRefused {
    ghost from_gives = { λ _ fault. fault ≡ Memory };

    fn from(_error: AllocError) -> Self {
        LoadRefused::Memory
    }
}

/// Says that memory ran out, or which row doesn't ascend.
impl fmt::Display for LoadRefused {
    ghost use Rattle.std.specs.Prelude.{Some};
    ghost use Rattle.merkle_search_tree.specs.Loading.{refusal_text};

    ghost output = { λ why. Some (refusal_text why) };

    fn fmt<W: fmt::Write>(&self, f: &mut fmt::Formatter<W>) -> fmt::Result {
        match self {
            LoadRefused::Memory => write!(f, "memory was refused, and no row was loaded"),
            LoadRefused::NotAscending(place) => {
                write!(
                    f,
                    "the key at place {place} isn't above the one before it, and no row was loaded"
                )
            }
        }
    }
}

impl Error for LoadRefused {}

/// What is loaded so far: the open pages of the right edge, and how many rows came, but at most `usize::MAX`.
#[derive(Drop)]
struct Loading<K, D> {
    edge: Vec<PageOf<K, D>>,
    count: usize,
}

/// Puts a row after those that are loaded.
fn push_row<K: Ord + KeyBytes + Drop, V: Eq, H: Hasher<N, K> + Hasher<N, V>, const N: usize>(
    alloc: Global,
    builder: &Builder<H>,
    loading: &mut Loading<K, ValueDigest<N>>,
    key: K,
    value: &V,
) -> Result<(), LoadRefused>
    requires { IsLoading K.cmp ⟦<H as Hasher<N, K>>⟧.digest_of builder.now loading.old }
    ensures loading { OnOk result (IsLoading K.cmp ⟦<H as Hasher<N, K>>⟧.digest_of builder.now loading.new) }
    ensures pushed { OnOk result (Adds ⟦<H as Hasher<N, V>>⟧.digest_of builder.now loading.old key value.now loading.new) }
    ensures refused { IfErr result (λ fault. RowFails K.cmp (edge_pairs loading.old.edge.items) key fault) }
{
    if !is_above(&loading.edge, &key) {
        return Err(LoadRefused::NotAscending(loading.count));
    }
    let digest = ValueDigest::new(<H as Hasher<N, V>>::hash(&builder.hasher, value));
    let key_level = level(
        &<H as Hasher<N, K>>::hash(&builder.hasher, &key),
        builder.level_base,
    );
    append(alloc, &mut loading.edge, key, key_level, digest)?;
    loading.count = loading.count.saturating_add(1);
    Ok(())
}

/// The tree of the rows that are loaded.
fn finished<K: Ord + KeyBytes + Drop, V, H: Hasher<N, K> + Drop, const N: usize>(
    alloc: Global,
    builder: Builder<H>,
    loading: Loading<K, ValueDigest<N>>,
) -> Result<MerkleSearchTree<K, V, H, N>, LoadRefused>
    requires { IsLoading K.cmp H.digest_of builder loading }
    ensures map { IfOk result (λ tree. map_of tree ≡ edge_pairs loading.edge.items) }
    ensures settings { IfOk result (HasSettings builder) }
    ensures not_hashed { IfOk result (λ tree. tree.root_hash ≡ None) }
    ensures refused { IfErr result (λ fault. fault ≡ Memory) }
{
    let root = root_of(alloc, loading.edge)?;
    Ok(MerkleSearchTree::with_root(alloc, builder, root))
}

impl<
    K: Ord + KeyBytes + Drop,
    V: Eq + Drop,
    H: Hasher<N, K> + Hasher<N, V> + Drop,
    const N: usize,
> MerkleSearchTree<K, V, H, N> {
    /// The tree of rows that ascend strictly by key, with the builder's hasher, level base and page format: the tree that upserts of
    /// the same rows make, in whatever order.
    ///
    /// It is built in one pass, in time linear in the number of rows: each key is compared with the one before it alone, and each
    /// page is written once. Memory is taken for the pages and their nodes, and for a list of the pages to which nodes are still
    /// added, at most one for each level.
    ///
    /// The rows have to end, and are taken to their end unless they are refused.
    ///
    /// ```rust crates/c_trees/src/byte_tree.rt
    /// match MerkleSearchTree::from_ascending(alloc, builder, pairs) {
    ///     Ok(tree) => {
    ///         self.tree = tree;
    ///         Ok(())
    ///     }
    ///     Err(LoadRefused::Memory) => Err(ListError::Memory),
    ///     Err(LoadRefused::NotAscending(_)) => Err(ListError::Malformed),
    /// }
    /// ```
    ///
    /// # Errors
    ///
    /// [`LoadRefused::NotAscending`] at the first row whose key isn't above that of the row before it, with its place, and
    /// [`LoadRefused::Memory`] if memory runs out. The rows and the builder are then given up.
    pub fn from_ascending<T>(
        alloc: Global,
        builder: Builder<H>,
        rows: T,
    ) -> Result<Self, LoadRefused>
    where
        T: IntoIterator<Item = (K, V)>,
        requires ends { IsFiniteIterable T.into_iter_gives T.IntoIter.can_next T.IntoIter.remaining rows }

        // The map is the rows that were given, which ascend, with the digests of their values.
        ensures map { IfOk result (HasLoaded K.cmp (⟦<H as Hasher<N, V>>⟧.digest_of builder.hasher)
            (Gives T.into_iter_gives T.IntoIter.next_gives rows)) }

        ensures settings { IfOk result (HasSettings builder) }
        ensures not_hashed { IfOk result (λ tree. tree.root_hash ≡ None) }

        // Refused, it is at the first row that doesn't ascend, or when out of memory.
        ensures refused { IfErr result (λ fault. LoadFails K.cmp (Begins T.into_iter_gives T.IntoIter.next_gives rows) fault) }
    {
        let mut loading = Loading {
            edge: Vec::new(alloc),
            count: 0,
        };
        'rows: for (key, value) in rows {
            push_row(alloc, &builder, &mut loading, key, &value)?;
        }
        finished(alloc, builder, loading)
    }
}

impl<K: Key + Drop, V: Eq, H: Hasher<N, K> + Hasher<N, V> + Drop, const N: usize> MerkleSearchTree<
    K,
    V,
    H,
    N,
> {
    /// The tree of rows that stay where they are and ascend strictly by key, as [`from_ascending`](Self::from_ascending) builds it, with
    /// clones of their keys. It costs what that does, and a clone of each key.
    ///
    /// # Errors
    ///
    /// [`LoadRefused::NotAscending`] at the first row whose key isn't above that of the row before it, with its place, and
    /// [`LoadRefused::Memory`] if memory runs out, for a clone of a key too. The builder is then given up.
    pub fn from_ascending_slice(
        alloc: Global,
        builder: Builder<H>,
        rows: &[(K, V)],
    ) -> Result<Self, LoadRefused>
        // The map is the rows with the digests of their values.
        ensures map { IfOk result (HasRowDigests K.cmp (⟦<H as Hasher<N, V>>⟧.digest_of builder.hasher) rows.now) }

        ensures ascending { IfOk result (λ tree. IsMap K.cmp rows.now) }
        ensures settings { IfOk result (HasSettings builder) }
        ensures not_hashed { IfOk result (λ tree. tree.root_hash ≡ None) }

        // Refused, it is at the first row that doesn't ascend, or when out of memory.
        ensures refused { IfErr result (λ fault. LoadFails K.cmp (BeginsWith rows.now) fault) }
    {
        let mut loading = Loading {
            edge: Vec::new(alloc),
            count: 0,
        };
        'rows: for (key, value) in rows {
            push_row(alloc, &builder, &mut loading, key.clone()?, value)?;
        }
        finished(alloc, builder, loading)
    }
}
