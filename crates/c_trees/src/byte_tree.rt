//! What a handle holds: a tree of byte strings.
ghost use Rattle.std.specs.Prelude.{◌≡◌, ◌≢◌, ℕ, List, None, Err, OnOk, OnErr, IfOk, IfSome, false, true};
ghost use Rattle.std.specs.Int.NonZero.{non_zero_u8_get};
ghost use Rattle.key_order.specs.Map.{IsMap, get};
ghost use Rattle.merkle_tree_theory.specs.Dropped.{RemovalDropsFew};
ghost use Rattle.merkle_tree_theory.specs.Hashed.{IsHashed};
ghost use Rattle.merkle_tree_theory.specs.State.{IsNew, map_of};
ghost use Rattle.merkle_tree_theory.specs.Stream.{page_digest};
ghost use Rattle.merkle_search_tree.specs.Loading.{row_count};
ghost use Rattle.c_trees.specs.Lists.{AllSet, AreDigests, AreLoaded, AreManyRows, ArePageRanges, AreRows, AreSetOf, FirstSet, HasPairs, IsLengthOf, IsLoaded, page_ranges_of};
ghost use Rattle.c_trees.specs.Pages.{page_list};
ghost use Rattle.c_trees.specs.Trees.{SamePairs, IsSet, SetDropsFew, IsCopied};
ghost use Rattle.c_values.specs.Trees.{IsSetTo, IsDel};
ghost use Rattle.c_values.specs.Keys.{bytes_cmp, key_items, key_cmp, pairs_of};
ghost use Rattle.c_trees.specs.Wire.{digest_list};
ghost use Rattle.c_values.specs.Lists.{row_list};
ghost use Rattle.c_values.specs.declared.reading.ListError.TheVariants.{Malformed};

use crate::byte_hasher::ByteHasher;
use crate::entries::is_list;
use crate::reading::{decode_digests, decode_rows};
use crate::walk::Pages;
use crate::wire::{DIGESTS, encode, encoded_len, put_digest};
use c_values::{ListError, ROWS, body_of, pair_of, put, put_number};
use merkle_search_tree::builder::{Builder, PageFormat};
use merkle_search_tree::{LoadRefused, MerkleSearchTree};
use std::alloc::{AllocError, Global};
use std::num::NonZeroU8;

type Tree = MerkleSearchTree<Vec<u8>, [u8; 16], ByteHasher, 16>;

/// A tree from byte strings to digests of byte strings, with its hasher and level base at hand.
pub struct ByteTree {
    pub tree: Tree,
    hasher: ByteHasher,
    level_base: NonZeroU8,
    ghost same_hasher: { hasher ≡ tree.hasher },
    ghost same_base: { non_zero_u8_get level_base ≡ tree.base },
}

// Written out, so that a caller doesn't prove again how each part is dropped.
impl Drop for ByteTree {
    fn drop(self) {
        let ByteTree {
            tree: _,
            hasher: _,
            level_base: _,
        } = self;
    }
}

impl ByteTree {
    /// The empty tree with this key of SipHash, way of feeding keys, level base and page format.
    pub fn new(
        alloc: Global,
        key: &[u8; 16],
        feed: u8,
        level_base: NonZeroU8,
        page_format: PageFormat,
    ) -> ByteTree
        ensures { IsNew (record { key = key.now; feed = feed }) (non_zero_u8_get level_base) page_format result.tree }
    {
        let tree = Builder::default()
            .with_hasher(ByteHasher::new(key, feed))
            .with_level_base(level_base)
            .with_page_format(page_format)
            .build(alloc);
        ByteTree {
            tree,
            hasher: ByteHasher::new(key, feed),
            level_base,
        }
    }

    /// Sets a key to the digest of a value. Refused, the tree is as before.
    pub fn upsert(&mut self, alloc: Global, key: &[u8], value: &[u8]) -> Result<(), AllocError>
        ensures done { OnOk result (IsSet key.now value.now self.old.tree self.new.tree) }
        ensures few_more { OnOk result (SetDropsFew key.now self.old.tree self.new.tree) }
        ensures unchanged { OnErr result (self.new ≡ self.old) }
    {
        let digest = self.hasher.hash_bytes(value);
        self.upsert_digest(alloc, key, &digest)
    }

    /// Sets a key to this digest of a value. Refused, the tree is as before.
    pub fn upsert_digest(
        &mut self,
        alloc: Global,
        key: &[u8],
        digest: &[u8; 16],
    ) -> Result<(), AllocError>
        ensures done { OnOk result (IsSetTo key.now digest.now self.old.tree self.new.tree) }
        ensures few_more { OnOk result (SetDropsFew key.now self.old.tree self.new.tree) }
        ensures unchanged { OnErr result (self.new ≡ self.old) }
    {
        let own_key = Vec::from_slice(alloc, key)?;
        match self.tree.upsert(own_key, digest) {
            Ok(()) => Ok(()),
            Err(_) => Err(AllocError),
        }
    }

    /// Takes a key out, and returns whether it was there. Where it wasn't, and refused, the tree is as before.
    pub fn remove(&mut self, alloc: Global, key: &[u8]) -> Result<bool, AllocError>
        ensures done { IfOk result (λ found. IsDel key.now found self.old.tree self.new.tree) }
        ensures absent { IfOk result (λ found. found ≡ false → self.new ≡ self.old) }
        ensures few_more { OnOk result (RemovalDropsFew self.old.tree self.new.tree) }
        ensures unchanged { OnErr result (self.new ≡ self.old) }
    {
        let own_key = Vec::from_slice(alloc, key)?;
        match self.tree.remove(&own_key)? {
            None => Ok(false),
            Some(_) => Ok(true),
        }
    }

    /// The digest of the value at a key, where the key is there.
    pub fn find(&self, alloc: Global, key: &[u8]) -> Result<Option<[u8; 16]>, AllocError>
        ensures { IfOk result (λ found. found ≡ get bytes_cmp (pairs_of self.now.tree) key.now) }
    {
        let own_key = Vec::from_slice(alloc, key)?;
        match self.tree.value_hash(&own_key) {
            None => Ok(None),
            Some(digest) => Ok(Some(*digest.as_bytes())),
        }
    }

    /// Sets the rows of a list one after the other until memory runs out, and returns how many were set, and whether that is all of
    /// them. `None` where the bytes are no list of rows, and then the tree is as before.
    pub fn upsert_rows(&mut self, alloc: Global, list: &[u8]) -> Option<(usize, bool)>
        ensures all { IfSome result (λ set. set.1 ≡ true → AllSet list.now set.0 self.old.tree self.new.tree) }
        ensures first { IfSome result (λ set. set.1 ≡ false → FirstSet list.now set.0 self.old.tree self.new.tree) }
        ensures malformed { result ≡ None → (given : List (List ℕ × List ℕ)) → list.now ≢ row_list given }
        ensures unchanged { result ≡ None → self.new ≡ self.old }
    {
        let (count, body) = body_of(&ROWS, list)?;
        if !is_list(false, false, count, body) {
            return None;
        }
        let done = self.set_rows(alloc, count, body);
        Some((done as usize, done == count))
    }

    /// Sets this many rows, which the bytes are, one after the other until memory runs out, and returns how many were set.
    fn set_rows(&mut self, alloc: Global, count: u64, body: &[u8]) -> u64
        requires { AreManyRows count body.now }
        ensures { AreSetOf count body.now result self.old.tree self.new.tree }
    {
        let mut rest = body;
        'rows: for done in 0..count {
            let Some((key, value, behind)) = pair_of(rest) else {
                return done;
            };
            match self.upsert(alloc, key, value) {
                Ok(()) => rest = behind,
                Err(_) => return done,
            }
        }
        count
    }

    /// Makes these rows the map, in place of the map that the tree has. Refused, the tree is as before.
    pub fn load(&mut self, alloc: Global, rows: &[u8]) -> Result<(), ListError>
        ensures done { OnOk result (IsLoaded rows.now self.old.tree self.new.tree) }
        ensures malformed { result ≡ Err Malformed → (given : List (List ℕ × List ℕ)) → ¬ (AreRows rows.now given) }
        ensures unchanged { OnErr result (self.new ≡ self.old) }
    {
        let pairs = decode_rows(alloc, &self.hasher, rows)?;
        self.load_pairs(alloc, pairs)
    }

    /// The same of keys that come with the digests of their values.
    pub fn load_digests(&mut self, alloc: Global, list: &[u8]) -> Result<(), ListError>
        ensures done { OnOk result (AreLoaded list.now self.old.tree self.new.tree) }
        ensures malformed { result ≡ Err Malformed → (given : List (List ℕ × List ℕ)) → ¬ (AreDigests list.now given) }
        ensures unchanged { OnErr result (self.new ≡ self.old) }
    {
        let pairs = decode_digests(alloc, list)?;
        self.load_pairs(alloc, pairs)
    }

    /// Makes these pairs of keys and digests the map. Refused, the tree is as before.
    fn load_pairs(
        &mut self,
        alloc: Global,
        pairs: Vec<(Vec<u8>, [u8; 16])>,
    ) -> Result<(), ListError>
        ensures done { OnOk result (HasPairs pairs.items self.old.tree self.new.tree) }
        ensures malformed { result ≡ Err Malformed → ¬ (IsMap key_cmp pairs.items) }
        ensures unchanged { OnErr result (self.new ≡ self.old) }
    {
        let builder = Builder::default()
            .with_hasher(self.hasher.clone()?)
            .with_level_base(self.level_base)
            .with_page_format(self.tree.page_format());
        match MerkleSearchTree::from_ascending(alloc, builder, pairs) {
            Ok(tree) => {
                self.tree = tree;
                Ok(())
            }
            Err(LoadRefused::Memory) => Err(ListError::Memory),
            Err(LoadRefused::NotAscending(_)) => Err(ListError::Malformed),
        }
    }

    /// How many keys the tree has, at most `usize::MAX`.
    pub fn count(&self) -> Result<usize, AllocError>
        ensures { IfOk result (λ count. count ≡ row_count (map_of self.now.tree)) }
    {
        let mut count: usize = 0;
        'nodes: for _node in self.tree.node_iter()? {
            count = count.saturating_add(1);
        }
        Ok(count)
    }

    /// The keys in their order, each with the digest of its value, as bytes.
    pub fn digests(&self, alloc: Global) -> Result<Vec<u8>, AllocError>
        ensures { IfOk result (λ out. out.items ≡ digest_list (pairs_of self.now.tree)) }
    {
        let count = self.count()?;
        let mut out = Vec::new(alloc);
        put(&DIGESTS, &mut out)?;
        put_number(count, &mut out)?;
        'nodes: for node in self.tree.node_iter()? {
            put_digest(node, &mut out)?;
        }
        Ok(out)
    }

    /// The pages as they are, as bytes.
    pub fn pages(&self, alloc: Global) -> Result<Vec<u8>, AllocError>
        ensures { IfOk result (λ out. out.items ≡ page_list self.now.tree.root) }
    {
        let mut pages = Pages::new(alloc);
        self.tree.in_order_traversal(&mut pages);
        pages.list(alloc)
    }

    /// The ranges of all pages, as bytes.
    pub fn page_ranges(&mut self, alloc: Global) -> Result<Vec<u8>, AllocError>
        ensures ranges { IfOk result (λ out. ArePageRanges out.items (page_ranges_of self.new.tree)) }
        ensures kept { SamePairs self.old.tree self.new.tree }
        ensures hashed { IsHashed key_items self.old.tree self.new.tree }
    {
        let _ = self.root_hash();
        match self.tree.serialise_page_ranges()? {
            Some(ranges) => encode(alloc, &ranges),
            None => encode(alloc, &[]),
        }
    }

    /// How many bytes the ranges of all pages are. It takes no memory for them.
    pub fn page_ranges_len(&mut self) -> Result<usize, AllocError>
        ensures len { IfOk result (λ len. IsLengthOf (page_ranges_of self.new.tree) len) }
        ensures kept { SamePairs self.old.tree self.new.tree }
        ensures hashed { IsHashed key_items self.old.tree self.new.tree }
    {
        let _ = self.root_hash();
        match self.tree.page_range_iter()? {
            Some(ranges) => encoded_len(ranges),
            None => Err(AllocError),
        }
    }

    /// A tree with equal pages, the same settings and the same cached root hash.
    pub fn try_clone(&self) -> Result<ByteTree, AllocError>
        ensures { IfOk result (λ copy. IsCopied self.now.tree copy.tree) }
    {
        Ok(ByteTree {
            tree: self.tree.try_clone()?,
            hasher: self.hasher.clone()?,
            level_base: self.level_base,
        })
    }

    /// The digest of the root page. It fills in the digests that pages lack.
    pub fn root_hash(&mut self) -> [u8; 16]
        ensures digest { result ≡ page_digest self.old.tree.format key_items self.old.tree.root }
        ensures kept { SamePairs self.old.tree self.new.tree }
        ensures hashed { IsHashed key_items self.old.tree self.new.tree }
        ensures cached { self.new.tree.root_hash ≢ None }
    {
        let (digest, _) = self.tree.root_hash_counted();
        *digest.as_bytes()
    }
}
