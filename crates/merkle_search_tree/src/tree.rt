//! The tree.

ghost use Rattle.std.specs.Prelude.{◌≡◌, ◌≢◌, ℕ, ◌+◌, ◌^◌, ◌<◌, ◌≤◌, length, None, OnOk, OnErr, IfOk, IfErr, IfSome, IsOk, true, map};
ghost use Rattle.std.specs.Option.{option_map};
ghost use Rattle.std.specs.Int.NonZero.{non_zero_u8_get};
ghost use Rattle.key_order.specs.Map.{has_key};
ghost use Rattle.merkle_digest.specs.SipHash.{zero_key};
ghost use Rattle.merkle_tree_theory.specs.Tree.{page};
ghost use Rattle.merkle_tree_theory.specs.Page.{level, pair_of, nodes_of, nodes_in_order};
ghost use Rattle.merkle_tree_theory.specs.Search.{ComparesByHalves};
ghost use Rattle.merkle_tree_theory.specs.Upsert.{place};
ghost use Rattle.merkle_tree_theory.specs.Cache.{uncached_pages, KeyUncached};
ghost use Rattle.merkle_tree_theory.specs.Dropped.{UpsertDropsFew, RemovalDropsFew};
ghost use Rattle.merkle_tree_theory.specs.Sound.{IsSound};
ghost use Rattle.merkle_tree_theory.specs.State.{map_of, IsNew, SameSettings};
ghost use Rattle.merkle_tree_theory.specs.declared.page_format.PageFormat.TheVariants.{V1};
ghost use Rattle.merkle_search_tree.specs.Pages.{unhashed_tree, root_digest};
ghost use Rattle.merkle_search_tree.specs.Upserts.{SetsKey, FewAreMissing};

use crate::builder::{Builder, PageFormat};
use crate::node_iter::NodeIter;
use crate::page::Page;
use crate::spot::search;
use crate::upsert::UpsertRefused;
use crate::visitor::{Visitor, traverse_page};
use merkle_digest::{Digest, Hasher, KeyBytes, RootHash, SipHasher, ValueDigest, level};
use std::alloc::{AllocError, Global};
use std::marker::{Model, PhantomData};
use std::num::NonZeroU8;

/// A Merkle search tree (Auvolat and Taïani, "Merkle Search Trees: Efficient State-Based CRDTs in Open Networks"): an ordered map
/// from keys to digests of values, whose pages depend on the map, the hasher and the level base alone, and not on the order in
/// which keys came. Its root hash depends on the page format too.
///
/// `K` is the type of the keys, `V` that of the values, of which only digests are kept, and `H` the hasher, whose digests have `N`
/// bytes. A tree is made by a [`Builder`], or from rows that ascend. Where `Tree` is
/// `MerkleSearchTree<String, u64, SipHasher, 16>`:
///
/// ```rust crates/merkle_search_tree_kind_tests/src/doc_lines.rt
/// let mut tree: Tree = MerkleSearchTree::with_defaults(alloc);
/// tree.upsert(key, &42)?;
/// let digest = tree.root_hash().clone()?;
/// ```
///
/// At most 256 pages stand below one another, one for each level. With a hasher that spreads its digests evenly, and the level base b,
/// about one key in b is above level 0 (one in 128 for b above 128), and one in 256 above level 1; at base 16 a page so has about 16 nodes.
///
/// A contract sees the tree as its hasher, its level base, its page format, its root page with all caches, and its cached root hash. Of every
/// tree it holds that the keys ascend, that the pages are the tree of the map, that each cached digest is that of its page with
/// every page below it cached too, and that a cached root hash is the digest of the root page.
///
/// The tree keeps the allocator that it was made with.
pub struct MerkleSearchTree<K: Ord + KeyBytes, V, H: Hasher<N, K>, const N: usize> {
    pub(crate) alloc: Global,
    pub(crate) hasher: H,
    pub(crate) level_base: NonZeroU8,
    pub(crate) page_format: PageFormat,
    pub(crate) root: Page<N, K>,
    pub(crate) root_hash: Option<RootHash>,
    pub(crate) value_type: PhantomData<V>,
}

// Written out, so that a caller doesn't prove again how each part is dropped.
impl<K: Ord + KeyBytes + Drop, V, H: Hasher<N, K> + Drop, const N: usize> Drop
    for MerkleSearchTree<K, V, H, N> {
    fn drop(self) {
        let MerkleSearchTree {
            alloc: _,
            hasher: _,
            level_base: _,
            page_format: _,
            root: _,
            root_hash: _,
            value_type: _,
        } = self;
    }
}

impl<K: Ord + KeyBytes, V, H: Hasher<N, K>, const N: usize> Model for MerkleSearchTree<K, V, H, N> {
    ghost use Rattle.std.specs.Int.NonZero.{non_zero_u8_get};
    ghost use Rattle.merkle_tree_theory.specs.State.{State, state_code};

    ghost Value = { State K H };

    ghost coded = { state_code K.code H.code };

    ghost view = { λ a. record { hasher = a.hasher; base = non_zero_u8_get a.level_base; format = a.page_format; root = a.root; root_hash = a.root_hash } };

    ghost use Rattle.merkle_tree_theory.specs.Sound.{IsSound};

    ghost invariant = { λ a. IsSound K.cmp H.digest_of K.bytes_of
        (record { hasher = a.hasher; base = non_zero_u8_get a.level_base; format = a.page_format; root = a.root; root_hash = a.root_hash }) };
}

impl<K: Ord + KeyBytes, V, const N: usize> MerkleSearchTree<K, V, SipHasher, N>
where
    SipHasher: Hasher<N, K>,
{
    /// The empty tree with the default hasher, SipHash under the zero key, level base 16, and format 1. It takes no memory.
    pub fn with_defaults(alloc: Global) -> Self
        ensures { IsNew zero_key 16 V1 result }
    {
        Builder::default().build(alloc)
    }
}

impl<K: Ord + KeyBytes, V, H: Hasher<N, K>, const N: usize> MerkleSearchTree<K, V, H, N> {
    /// The empty tree with this hasher, level base 16, and format 1. It takes no memory.
    ///
    /// Deprecated: use [`Builder`](crate::builder::Builder).
    #[deprecated]
    pub fn new_with_hasher(alloc: Global, hasher: H) -> Self
        ensures { IsNew hasher 16 V1 result }
    {
        MerkleSearchTree::new(
            alloc,
            hasher,
            merkle_digest::default_level_base(),
            PageFormat::V1,
        )
    }

    /// The empty tree with this hasher, level base and page format.
    pub(crate) fn new(
        alloc: Global,
        hasher: H,
        level_base: NonZeroU8,
        page_format: PageFormat,
    ) -> Self
        ensures { IsNew hasher (non_zero_u8_get level_base) page_format result }
    {
        MerkleSearchTree {
            alloc,
            hasher,
            level_base,
            page_format,
            root: Page::empty(alloc),
            root_hash: None,
            value_type: PhantomData,
        }
    }

    /// The tree with the builder's hasher, level base and page format, and this root page. It isn't hashed.
    pub(crate) fn with_root(alloc: Global, builder: Builder<H>, root: Page<N, K>) -> Self
        requires { IsSound K.cmp H.digest_of K.bytes_of (unhashed_tree builder root) }
        ensures { result ≡ unhashed_tree builder root }
    {
        MerkleSearchTree {
            alloc,
            hasher: builder.hasher,
            level_base: builder.level_base,
            page_format: builder.page_format,
            root,
            root_hash: None,
            value_type: PhantomData,
        }
    }

    /// The page format, which is that of the builder that made the tree.
    pub fn page_format(&self) -> PageFormat
        ensures { result ≡ self.now.format }
    {
        self.page_format
    }

    /// The level base, which is that of the builder that made the tree.
    pub fn level_base(&self) -> NonZeroU8
        ensures { non_zero_u8_get result ≡ self.now.base }
    {
        self.level_base
    }

    /// The digest of a key by the tree's hasher, which tells the level of the key. The key need not be there. It hashes the key once.
    pub fn key_digest(&self, key: &K) -> Digest<N>
        ensures { result ≡ H.digest_of self.now.hasher key.now }
    {
        self.hasher.hash(key)
    }

    /// The digest of the root page, where it is cached: `None` for a new tree, and after every accepted upsert and every removal of a
    /// key that was there, until the tree is hashed again. It takes no memory.
    pub fn root_hash_cached(&self) -> Option<&RootHash>
        ensures cached { option_map (λ digest. digest.now) result ≡ self.now.root_hash }
        ensures digest { IfSome result (λ digest. digest.now ≡ root_digest K.bytes_of self.now) }
    {
        self.root_hash.as_ref()
    }

    /// For the root page, the place of the first node whose key is at least `key`, or the number of nodes; and how many nodes' keys
    /// were compared, by halving, at most the number of binary digits of the number of nodes. It takes no memory.
    ///
    /// ```rust crates/merkle_search_tree_tests/src/places.rt
    /// let keys = keys_of(alloc, "2:0 4:0 6:0")?;
    /// let page = tree(alloc, &keys)?;
    /// for (key, place) in [(5, 2), (6, 2), (7, 3), (1, 0)] {
    ///     let (found, compared) = page.find_counted(&number_key(key));
    ///     assert!(rt; found == place && compared <= 2, "{key}");
    /// }
    /// ```
    pub fn find_counted(&self, key: &K) -> (usize, usize)
        ensures place { result.0 ≡ place K.cmp key.now (nodes_of self.now.root) }
        ensures counted { ComparesByHalves K.cmp key.now result.1 (nodes_of self.now.root) }
        ensures few { (digits : ℕ) → length (nodes_of self.now.root) < 2 ^ digits → result.1 ≤ digits }
    {
        let spot = search(self.root.nodes(), key);
        (spot.at, spot.compared)
    }

    /// The nodes of all pages, in ascending key order: as many items as the tree has keys. It looks at each page once, and compares
    /// no keys.
    ///
    /// ```rust crates/c_trees/src/byte_tree.rt
    /// 'nodes: for node in self.tree.node_iter()? {
    ///     put_digest(node, &mut out)?;
    /// }
    /// Ok(out)
    /// ```
    ///
    /// # Errors
    ///
    /// `AllocError` if memory runs out for the pages on the way down, one more than the level of the root. The iteration
    /// itself takes none.
    pub fn node_iter(&self) -> Result<NodeIter<'_, N, K>, AllocError>
        ensures nodes { IfOk result (λ rest. rest ≡ nodes_in_order self.now.root) }
        ensures map { IfOk result (λ rest. map pair_of rest ≡ map_of self.now) }
    {
        NodeIter::new(self.alloc, &self.root)
    }
}

impl<K: Ord + KeyBytes, V, H: Hasher<N, K>, const N: usize> MerkleSearchTree<K, V, H, N> {
    ghost use Rattle.std.specs.Prelude.{Bool, false};
    ghost use Rattle.merkle_tree_theory.specs.Events.{events_of};
    ghost use Rattle.merkle_tree_theory.specs.Traversal.{Visits};

    /// Calls a visitor at each page and node, the root page first. At a page it calls `visit_page`; for each node in order
    /// `pre_visit_node`, then all calls at the page below the node, then `visit_node` and `post_visit_node`; then
    /// `post_visit_page`, and then all calls at the high page. The first call that returns false is the last one.
    /// That the nodes of the `visit_node` calls are the nodes of the tree in order is the law
    /// [`a_traversal_visits_nodes_in_order`](crate::laws::a_traversal_visits_nodes_in_order).
    ///
    /// It makes at most three calls for each node and two for each page, compares no keys, and takes no memory of its own. Its recursion
    /// is as deep as the tree, at most 256 pages.
    ///
    /// ```rust crates/merkle_search_tree_tests/src/traversals.rt
    /// let mut recorder = Recorder {
    ///     calls: Vec::new(alloc),
    ///     last,
    /// };
    /// tree.in_order_traversal(&mut recorder);
    /// Ok(recorder.calls)
    /// ```
    pub fn in_order_traversal<T: Visitor<N, K>>(&self, visitor: &mut T)
        ensures visited { (all : Bool) × Visits T.step visitor.old (events_of false self.now.root) all visitor.new }
    {
        let _ = traverse_page(&self.root, false, visitor);
    }
}

impl<K: Ord + KeyBytes, V: Eq, H: Hasher<N, K> + Hasher<N, V>, const N: usize> MerkleSearchTree<
    K,
    V,
    H,
    N,
> {
    /// The digest of a value by the tree's hasher. It hashes the value once, and takes no memory of its own.
    pub fn value_digest(&self, value: &V) -> Digest<N>
        ensures { result ≡ ⟦<H as Hasher<N, V>>⟧.digest_of self.now.hasher value.now }
    {
        <H as Hasher<N, V>>::hash(&self.hasher, value)
    }
}

impl<
    K: Ord + KeyBytes + Drop,
    V: Eq,
    H: Hasher<N, K> + Hasher<N, V>,
    const N: usize,
> MerkleSearchTree<K, V, H, N> {
    /// Sets `key` to the digest of `value`. Where an equal key is there, it stays, and gets the new digest; no memory is taken
    /// then, and the upsert is accepted.
    ///
    /// Accepted, it drops the cached root hash and the cached digest of each page whose subtree then holds the key, even where
    /// the digest stays the same.
    ///
    /// It hashes the key and the value once. On each page of the key's path it compares the key with at most as many keys as the number
    /// of the page's nodes has binary digits. Where the key is new, it moves the nodes after it in the page of its level, and parts at
    /// most one page of each lower level.
    ///
    /// ```rust crates/examples/src/hashing.rt
    /// tree.upsert(name, &number)?;
    /// let (digest, _) = tree.root_hash_counted();
    /// Ok(digest)
    /// ```
    ///
    /// # Errors
    ///
    /// [`UpsertRefused`] if memory runs out, and nowhere else: it holds the key, and the pages, all cached digests and the cached root
    /// hash are as before.
    pub fn upsert(&mut self, key: K, value: &V) -> Result<(), UpsertRefused<K>>
        // The map has the key with the digest of the value.
        ensures set { OnOk result (SetsKey K.cmp ⟦<H as Hasher<N, V>>⟧.digest_of self.old key value.now self.new) }

        // No digest over the key is left, and few others are dropped: few are missing in a tree that was hashed.
        ensures forgotten { OnOk result (self.new.root_hash ≡ None) }
        ensures dropped { OnOk result (KeyUncached K.cmp key self.new.root) }
        ensures few_more { OnOk result (UpsertDropsFew (⟦<H as Hasher<N, K>>⟧.digest_of self.old.hasher key) self.old self.new) }
        ensures few { OnOk result (FewAreMissing (⟦<H as Hasher<N, K>>⟧.digest_of self.old.hasher key) self.old self.new) }

        ensures settings { SameSettings self.old self.new }

        // Refused, it leaves the tree and hands the key back.
        ensures unchanged { OnErr result (self.new ≡ self.old) }
        ensures returned { IfErr result (λ refused. refused ≡ key) }
        ensures succeeds { has_key K.cmp (map_of self.old) key ≡ true → IsOk result }
    {
        let digest = ValueDigest::new(<H as Hasher<N, V>>::hash(&self.hasher, value));
        let key_level = level(
            &<H as Hasher<N, K>>::hash(&self.hasher, &key),
            self.level_base,
        );
        self.root.set(self.alloc, key, key_level, digest)?;
        self.root_hash = None;
        Ok(())
    }
}

impl<K: Ord + KeyBytes + Drop, V, H: Hasher<N, K>, const N: usize> MerkleSearchTree<K, V, H, N> {
    ghost use Rattle.std.specs.Prelude.{false};
    ghost use Rattle.key_order.specs.Map.{del, entry};
    ghost use Rattle.merkle_tree_theory.specs.Remove.{HasFreeGap};

    /// Takes `key` out, and hands out the stored key and its value digest. Where no equal key is there, it returns `Ok(None)` and
    /// changes nothing.
    ///
    /// The two gaps beside the key become one, whose pages are joined, and a page left without nodes gives way to that joined page; so
    /// the pages are again the tree of the map. Where the key was there, the cached root hash is dropped, and so are the cached
    /// digests of the pages above the key and of those that are joined, at most one for each level up to the root's, but no others.
    ///
    /// It never asks for a key's level. On each page of the key's path it compares `key` with at most as many keys as the number of
    /// the page's nodes has binary digits, and it compares no other keys. It moves the nodes after the key's, and of each two pages
    /// of one level that are joined the nodes of the upper one; no page is copied. The depth of its recursion is the number of pages
    /// above the key and along the joint.
    ///
    /// ```rust crates/c_trees/src/byte_tree.rt
    /// match self.tree.remove(&own_key)? {
    ///     None => Ok(false),
    ///     Some(_) => Ok(true),
    /// }
    /// ```
    ///
    /// # Errors
    ///
    /// `AllocError` if memory runs out, and nowhere else; the pages, all cached digests and the cached root hash are then as
    /// before. Memory is taken for no more than the nodes that come to a page of their own level, and none where no equal key is
    /// there, or where the gap before the key or the gap after it is empty.
    pub fn remove(&mut self, key: &K) -> Result<Option<(K, ValueDigest<N>)>, AllocError>
        // The map no longer has the key, and what it had there is handed out.
        ensures map { OnOk result (map_of self.new ≡ del K.cmp (map_of self.old) key.now) }
        ensures found { IfOk result (λ found. found ≡ entry K.cmp (map_of self.old) key.now) }

        // Nothing changes where it had no such key; else the root hash is forgotten.
        ensures absent { IfOk result (λ found. found ≡ None → self.new ≡ self.old) }
        ensures forgotten { IfOk result (λ found. found ≢ None → self.new.root_hash ≡ None) }

        // Few digests are dropped, and few are missing in a tree that was hashed.
        ensures few_more { OnOk result (RemovalDropsFew self.old self.new) }
        ensures few { OnOk result (self.old.root_hash ≢ None → uncached_pages self.new.root ≤ level self.old.root + 1) }

        ensures settings { SameSettings self.old self.new }

        // Refused, it leaves the tree.
        ensures unchanged { OnErr result (self.new ≡ self.old) }
        ensures succeeds { HasFreeGap K.cmp key.now self.old.root → IsOk result }
        ensures succeeds_absent { has_key K.cmp (map_of self.old) key.now ≡ false → IsOk result }
    {
        let Some(entry) = self.root.remove_from_root(self.alloc, key)? else {
            return Ok(None);
        };
        self.root_hash = None;
        Ok(Some(entry))
    }
}
