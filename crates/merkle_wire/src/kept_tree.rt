//! Trees of digests that are kept anywhere: in memory, in a file.
ghost use Rattle.std.specs.Prelude.{◌≡◌, false, IfOk, IsSome, IsTrue, None, Some, ⊤};
ghost use Rattle.std.specs.Int.NonZero.{non_zero_u8_get};
ghost use Rattle.key_order.specs.Map.{get};
ghost use Rattle.merkle_bytes.specs.Options.{IsOption};
ghost use Rattle.merkle_replica.specs.Descent.{HasPage};
ghost use Rattle.merkle_search_tree.specs.Items.{lent_gap};
ghost use Rattle.merkle_tree_theory.specs.State.{map_of};
ghost use Rattle.merkle_wire.specs.ItsRows.{ForRowsOf, Kept, digests_of};
ghost use Rattle.merkle_wire.specs.Sessions.{IsKeyOf};
ghost use Rattle.merkle_wire.specs.Taking.{HasPageAt, is_digest};

use merkle_digest::{Digest, Hasher, Key, PageDigest, ValueDigest};
use merkle_replica::{Join, Replica, RowHasher};
use merkle_search_tree::builder::PageFormat;
use merkle_search_tree::laws::{
    a_map_has_one_tree, equal_pages_have_equal_maps, every_tree_is_sound,
};
use merkle_search_tree::{Gap, MerkleSearchTree};
use std::alloc::AllocError;
use std::num::NonZeroU8;

/// The tree of digests of the asking side, wherever it is kept. [`MerkleSearchTree`] is one in memory, and [`Replica`] is one with its rows.
///
/// What is asked of it changes nothing of what the side keeps. A call may fail, for example to read a disk, and the catch-up then ends. What a call says
/// of what is kept, it says if the tree is sound after it (`is_sound`).
pub trait KeptTree<const N: usize, K: Key, V: Join, H: RowHasher<N, K, V>> {
    /// Why the tree can't be read: out of memory, or a reason of where it is kept.
    type Error: From<AllocError> + Drop;

    /// The digests of which it is the tree, and the rows, where they are at hand.
    ghost kept: { Self → Kept K V H };

    /// Whether what it has told so far is what is kept: of a file, that the disk gave back what was written. In memory it always is.
    ghost is_sound: { Self → Type 0 };

    /// The level base.
    fn level_base(&self) -> NonZeroU8
        ensures { non_zero_u8_get result ≡ (kept self.now).digests.base };

    /// The page format.
    fn page_format(&self) -> PageFormat
        ensures { result ≡ (kept self.now).digests.format };

    /// The digest of a key, by which it has its level.
    fn digest_of_key(&self, key: &K) -> Digest<N>
        ensures { result ≡ ⟦<H as Hasher<N, K>>⟧.digest_of (kept self.now).digests.hasher key.now };

    /// The digest of a value.
    fn digest_of(&self, value: &V) -> Digest<N>
        ensures { result ≡ ⟦<H as Hasher<N, V>>⟧.digest_of (kept self.now).digests.hasher value.now };

    /// A key of the tree, if it has one.
    fn some_key(&mut self) -> Result<Option<K>, Self::Error>
        ensures key { is_sound self.new → IfOk result (IsOption (IsKeyOf K.cmp (kept self.old).digests.map)) }
        ensures kept { is_sound self.new → kept self.new ≡ kept self.old }
        ensures steady { is_sound self.new → is_sound self.old };

    /// Whether the tree has the key with this digest of its value. [`is_digest`](crate::is_digest) tells it by what [`digest_at`](Self::digest_at) returns.
    fn has_digest(&mut self, key: &K, digest: &[u8]) -> Result<bool, Self::Error>
        ensures has { is_sound self.new → IfOk result (λ has. has ≡ is_digest (get K.cmp (kept self.old).digests.map key.now) digest.now) }
        ensures kept { is_sound self.new → kept self.new ≡ kept self.old }
        ensures steady { is_sound self.new → is_sound self.old };

    /// The digest of the value at a key, if the tree has the key.
    fn digest_at(&mut self, key: &K) -> Result<Option<ValueDigest<N>>, Self::Error>
        ensures digest { is_sound self.new → IfOk result (λ found. found ≡ get K.cmp (kept self.old).digests.map key.now) }
        ensures kept { is_sound self.new → kept self.new ≡ kept self.old }
        ensures steady { is_sound self.new → is_sound self.old };

    /// Whether the page that fills the gap has this digest. If no page fills it, another page may have the digest: the answer is true only if one does.
    fn is_page(&mut self, gap: &Gap<'_, K>, digest: &PageDigest) -> Result<bool, Self::Error>
        ensures there { is_sound self.new → IfOk result (λ is. IsTrue is → ForRowsOf H.laws (kept self.old).digests
            (λ local. HasPage H.laws local digest.now)) }
        ensures lacked { is_sound self.new → IfOk result (λ is. is ≡ false → ForRowsOf H.laws (kept self.old).digests
            (λ local. ¬ HasPageAt H.laws local (lent_gap gap.now) digest.now)) }
        ensures kept { is_sound self.new → kept self.new ≡ kept self.old }
        ensures steady { is_sound self.new → is_sound self.old };
}

/// A tree in memory. It is looked down one path, and pages that lack a digest get one.
impl<const N: usize, K: Key + Drop, V: Join + Drop, H: RowHasher<N, K, V>> KeptTree<N, K, V, H>
    for MerkleSearchTree<K, V, H, N> {
    type Error = AllocError;

    ghost kept = { λ tree. record { digests = digests_of tree; rows = None } };

    ghost is_sound = { λ _. ⊤ };

    fn level_base(&self) -> NonZeroU8 {
        MerkleSearchTree::level_base(self)
    }

    fn page_format(&self) -> PageFormat {
        MerkleSearchTree::page_format(self)
    }

    fn digest_of_key(&self, key: &K) -> Digest<N> {
        self.key_digest(key)
    }

    fn digest_of(&self, value: &V) -> Digest<N> {
        self.value_digest(value)
    }

    fn some_key(&mut self) -> Result<Option<K>, AllocError> {
        first_key(self)
    }

    fn has_digest(&mut self, key: &K, digest: &[u8]) -> Result<bool, AllocError> {
        match self.value_hash(key) {
            None => Ok(false),
            Some(own) => Ok(own.as_bytes().as_slice() == digest),
        }
    }

    fn digest_at(&mut self, key: &K) -> Result<Option<ValueDigest<N>>, AllocError> {
        match self.value_hash(key) {
            None => Ok(None),
            Some(digest) => Ok(Some(digest.clone()?)),
        }
    }

    fn is_page(&mut self, gap: &Gap<'_, K>, digest: &PageDigest) -> Result<bool, AllocError> {
        hash_tree(self);
        Ok(is_page_of(self, gap, digest))
    }
}

/// The tree of a replica, whose rows are at hand.
impl<const N: usize, K: Key + Drop, V: Join + Drop, H: RowHasher<N, K, V>> KeptTree<N, K, V, H>
    for Replica<K, V, H, N> {
    type Error = AllocError;

    ghost kept = { λ replica. record { digests = digests_of replica.tree; rows = Some replica.rows } };

    ghost is_sound = { λ _. ⊤ };

    fn level_base(&self) -> NonZeroU8 {
        self.tree().level_base()
    }

    fn page_format(&self) -> PageFormat {
        self.tree().page_format()
    }

    fn digest_of_key(&self, key: &K) -> Digest<N> {
        self.tree().key_digest(key)
    }

    fn digest_of(&self, value: &V) -> Digest<N> {
        self.tree().value_digest(value)
    }

    fn some_key(&mut self) -> Result<Option<K>, AllocError> {
        first_key(self.tree())
    }

    fn has_digest(&mut self, key: &K, digest: &[u8]) -> Result<bool, AllocError> {
        match self.tree().value_hash(key) {
            None => Ok(false),
            Some(own) => Ok(own.as_bytes().as_slice() == digest),
        }
    }

    fn digest_at(&mut self, key: &K) -> Result<Option<ValueDigest<N>>, AllocError> {
        match self.tree().value_hash(key) {
            None => Ok(None),
            Some(digest) => Ok(Some(digest.clone()?)),
        }
    }

    fn is_page(&mut self, gap: &Gap<'_, K>, digest: &PageDigest) -> Result<bool, AllocError> {
        hash_replica(self);
        Ok(is_page_of(self.tree(), gap, digest))
    }
}

/// The first key of a tree, if it has one.
pub(crate) fn first_key<K: Key + Drop, V: Join, H: RowHasher<N, K, V>, const N: usize>(
    tree: &MerkleSearchTree<K, V, H, N>,
) -> Result<Option<K>, AllocError>
    ensures { IfOk result (IsOption (IsKeyOf K.cmp (map_of tree.now))) }
{
    match tree.node_iter()?.next() {
        None => Ok(None),
        Some(node) => Ok(Some(node.key().clone()?)),
    }
}

/// The key of the first row of a replica, if it has one.
pub(crate) fn first_row_key<K: Key + Drop, V: Join, H: RowHasher<N, K, V>, const N: usize>(
    replica: &Replica<K, V, H, N>,
) -> Result<Option<K>, AllocError>
    ensures { IfOk result (IsOption (IsKeyOf K.cmp replica.now.rows)) }
{
    match replica.rows().first() {
        None => Ok(None),
        Some(row) => Ok(Some(row.0.clone()?)),
    }
}

/// Gives a digest to each page of a tree that lacks one. It looks at the root page alone where none does.
fn hash_tree<K: Key, V: Join, H: RowHasher<N, K, V>, const N: usize>(
    tree: &mut MerkleSearchTree<K, V, H, N>,
)
    ensures hashed { IsSome tree.new.root_hash }
    ensures kept { digests_of tree.new ≡ digests_of tree.old }
{
    if let Some(_) = tree.root_hash_cached() {
        return;
    }
    let _ = tree.root_hash_counted();
}

/// Gives a digest to each page of a replica's tree that lacks one.
fn hash_replica<K: Key, V: Join, H: RowHasher<N, K, V>, const N: usize>(
    replica: &mut Replica<K, V, H, N>,
)
    ensures hashed { IsSome replica.new.tree.root_hash }
    ensures kept { digests_of replica.new.tree ≡ digests_of replica.old.tree }
    ensures rows { replica.new.rows ≡ replica.old.rows }
{
    if let Some(_) = replica.tree().root_hash_cached() {
        return;
    }
    replica.hash();
}

/// Whether the page that fills the gap has this digest, where the tree is hashed.
fn is_page_of<K: Key + Drop, V: Join + Drop, H: RowHasher<N, K, V>, const N: usize>(
    tree: &MerkleSearchTree<K, V, H, N>,
    gap: &Gap<'_, K>,
    digest: &PageDigest,
) -> bool
    requires { IsSome tree.now.root_hash }
    ensures there { IsTrue result → ForRowsOf H.laws (digests_of tree.now) (λ local. HasPage H.laws local digest.now) }
    ensures lacked { result ≡ false → ForRowsOf H.laws (digests_of tree.now) (λ local. ¬ HasPageAt H.laws local (lent_gap gap.now) digest.now) }
{
    every_tree_is_sound(tree);
    a_map_has_one_tree::<K, H, N>();
    equal_pages_have_equal_maps::<K>();
    tree.has_page(gap, digest)
}
