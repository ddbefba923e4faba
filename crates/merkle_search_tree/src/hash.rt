//! The digests that pages lack: how many there are, and filling them in.

ghost use Rattle.std.specs.Prelude.{◌≡◌, ◌-◌, ◌^◌, min};
ghost use Rattle.merkle_tree_theory.specs.Tree.{held_of};
ghost use Rattle.merkle_tree_theory.specs.Stream.{page_digest, held_stream, head_bytes, none_bytes, below_bytes, key_bytes};
ghost use Rattle.merkle_tree_theory.specs.Cache.{CachesHold, HeldCachesHold, uncached_pages, held_uncached_pages, tree_with_digests, held_with_digests};
ghost use Rattle.merkle_search_tree.specs.Hashing.{HoldsMore};

use crate::builder::PageFormat;
use crate::page::{Page, PageOf};
use crate::tree::MerkleSearchTree;
use merkle_digest::{Hasher, KeyBytes, PageDigest, RootHash, Sip24};

impl<K, D> PageOf<K, D> {
    /// How many pages lack a digest, this one and those below it, but at most `usize::MAX`.
    #[cycle(missing)]
    pub(crate) fn missing(&self) -> usize
        ensures { result ≡ min (uncached_pages self.now) (2 ^ 64 - 1) }
    {
        let mut count: usize = if self.tree_hash.is_none() { 1 } else { 0 };
        'nodes: for node in &self.nodes {
            count = count.saturating_add(missing_below(&node.lt_pointer));
        }
        count.saturating_add(missing_below(&self.high_page))
    }
}

/// How many pages lack a digest in what a pointer holds.
#[cycle(missing)]
fn missing_below<K, D>(held: &Option<Box<PageOf<K, D>>>) -> usize
    ensures { result ≡ min (held_uncached_pages (held_of held.now)) (2 ^ 64 - 1) }
{
    match held {
        None => 0,
        Some(page) => page.missing(),
    }
}

impl<const N: usize, K: KeyBytes> Page<N, K> {
    /// Fills in every missing digest of this page and those below it, and gives this page's digest, and how many pages got one.
    /// Below a page with a digest it does not look.
    #[cycle(fill)]
    pub(crate) fn fill(&mut self, format: PageFormat) -> (PageDigest, usize)
        requires { CachesHold format K.bytes_of self.old }
        ensures pages { self.new ≡ tree_with_digests format K.bytes_of self.old }
        ensures digest { result.0 ≡ page_digest format K.bytes_of self.old }
        ensures count { result.1 ≡ min (uncached_pages self.old) (2 ^ 64 - 1) }
    {
        if let Some(digest) = &self.tree_hash {
            return (PageDigest::new(*digest.as_bytes()), 0);
        }
        let mut sip = Sip24::new();
        write_head(format, self.level, self.nodes.len(), &mut sip);
        let mut hashed: usize = 1;
        'nodes: for i in 0..self.nodes.len() {
            let node = &mut self.nodes[i];
            hashed = hashed.saturating_add(fill_below(&mut node.lt_pointer, format, &mut sip));
            write_key(format, node.key.key_bytes(), &mut sip);
            sip.write(node.value_hash.as_bytes());
        }
        hashed = hashed.saturating_add(fill_below(&mut self.high_page, format, &mut sip));
        let bytes = sip.finish128();
        self.tree_hash = Some(PageDigest::new(bytes));
        (PageDigest::new(bytes), hashed)
    }
}

/// Fills in the digests of what a pointer holds, writes what stands for the page there to `sip`, and returns how many pages got one.
#[cycle(fill)]
fn fill_below<const N: usize, K: KeyBytes>(
    held: &mut Option<Box<Page<N, K>>>,
    format: PageFormat,
    sip: &mut Sip24,
) -> usize
    requires { HeldCachesHold format K.bytes_of (held_of held.old) }
    ensures pages { held_of held.new ≡ held_with_digests format K.bytes_of (held_of held.old) }
    ensures bytes { HoldsMore sip.old (held_stream format K.bytes_of (held_of held.old)) sip.new }
    ensures count { result ≡ min (held_uncached_pages (held_of held.old)) (2 ^ 64 - 1) }
{
    match held {
        None => {
            write_none(format, sip);
            0
        }
        Some(page) => {
            let (digest, hashed) = page.fill(format);
            write_below(format, &digest, sip);
            hashed
        }
    }
}

/// Writes what stands before the first node of a page.
fn write_head(format: PageFormat, level: u8, node_count: usize, sip: &mut Sip24)
    ensures { HoldsMore sip.old (head_bytes format level node_count) sip.new }
{
    match format {
        PageFormat::V1 => {}
        PageFormat::V2 => {
            sip.write(&[2, level]);
            sip.write(&u64::to_le_bytes(node_count as u64));
        }
    }
}

/// Writes what stands for a page that is not there.
fn write_none(format: PageFormat, sip: &mut Sip24)
    ensures { HoldsMore sip.old (none_bytes format) sip.new }
{
    match format {
        PageFormat::V1 => {}
        PageFormat::V2 => sip.write(&[0]),
    }
}

/// Writes what stands for a page with this digest.
fn write_below(format: PageFormat, digest: &PageDigest, sip: &mut Sip24)
    ensures { HoldsMore sip.old (below_bytes format digest.now) sip.new }
{
    match format {
        PageFormat::V1 => {}
        PageFormat::V2 => sip.write(&[1]),
    }
    sip.write(digest.as_bytes());
}

/// Writes what stands for a key with these bytes.
fn write_key(format: PageFormat, bytes: &[u8], sip: &mut Sip24)
    ensures { HoldsMore sip.old (key_bytes format bytes.now) sip.new }
{
    match format {
        PageFormat::V1 => {}
        PageFormat::V2 => sip.write(&u64::to_le_bytes(bytes.len() as u64)),
    }
    sip.write(bytes);
}

impl<K: Ord + KeyBytes, V, H: Hasher<N, K>, const N: usize> MerkleSearchTree<K, V, H, N> {
    ghost use Rattle.std.specs.Prelude.{◌≢◌, None};
    ghost use Rattle.merkle_tree_theory.specs.Hashed.{hashed_tree, IsHashed};
    ghost use Rattle.merkle_tree_theory.specs.State.{map_of};
    ghost use Rattle.merkle_search_tree.specs.Pages.{root_digest};
    ghost use Rattle.merkle_search_tree.specs.contracts.tree.MerkleSearchTree.{the_row};
    ghost use Rattle.std.specs.Borrow.{sem};
    ghost use Rattle.std.specs.Io.BufRead.{Rests};
    ghost use denote.Param.{number};

    /// How many pages lack a digest, but at most `usize::MAX`: none of a hashed tree. It looks at every page, and takes no memory.
    pub fn pages_to_hash(&self) -> usize
        ensures count { result ≡ min (uncached_pages self.now.root) (2 ^ 64 - 1) }
        ensures hashed { self.now.root_hash ≢ None → result ≡ 0 }
    {
        self.root.missing()
    }

    /// The digest of the root page: SipHash-2-4-128 of its stream under the zero key, whatever the tree's own hasher is. It
    /// fills in the digests that pages lack, changes nothing else, and takes no memory. Trees of equal maps have equal root hashes, under
    /// one hasher, level base and page format; the converse holds only as far as no digests collide, and in format 1 streams can be equal, too.
    ///
    /// Of the pages that lack a digest it hashes the nodes, one page after the other; below a page that has one it doesn't look.
    ///
    /// ```rust crates/merkle_search_tree_kind_tests/src/doc_lines.rt
    /// let mut tree: Tree = MerkleSearchTree::with_defaults(alloc);
    /// tree.upsert(key, &42)?;
    /// let digest = tree.root_hash().clone()?;
    /// ```
    pub fn root_hash(&mut self) -> &RootHash
        ensures* tree { sem 𝓛 (Rests (the_row K.row V.row H.row (number N) K.Ord.own K.PartialEq K.PartialOrd.own K.KeyBytes.own H.Hasher) self.entry
            (IsHashed K.bytes_of self.old)) }
        ensures digest { result.now ≡ root_digest K.bytes_of self.old }
    {
        self.hash_pages();
        match &self.root_hash {
            Some(digest) => digest,
            None => unreachable!(),
        }
    }

    /// The root hash, as [`root_hash`](Self::root_hash) gives it and at its cost, and how many pages were hashed in this call: one for each
    /// page that lacked a digest, but at most `usize::MAX`.
    pub fn root_hash_counted(&mut self) -> (RootHash, usize)
        ensures tree { self.new ≡ hashed_tree K.bytes_of self.old }
        ensures map { map_of self.new ≡ map_of self.old }
        ensures digest { result.0 ≡ root_digest K.bytes_of self.old }
        ensures count { result.1 ≡ min (uncached_pages self.old.root) (2 ^ 64 - 1) }
        ensures hashed { uncached_pages self.new.root ≡ 0 }
    {
        let hashed = self.hash_pages();
        match &self.root_hash {
            Some(digest) => (RootHash::new(PageDigest::new(*digest.as_bytes())), hashed),
            None => unreachable!(),
        }
    }

    /// Fills in the digests that pages lack, keeps the root hash, and returns how many pages were hashed.
    fn hash_pages(&mut self) -> usize
        ensures tree { self.new ≡ hashed_tree K.bytes_of self.old }
        ensures map { map_of self.new ≡ map_of self.old }
        ensures count { result ≡ min (uncached_pages self.old.root) (2 ^ 64 - 1) }
        ensures hashed { uncached_pages self.new.root ≡ 0 }
    {
        let (digest, hashed) = self.root.fill(self.page_format);
        self.root_hash = Some(RootHash::new(digest));
        hashed
    }
}
