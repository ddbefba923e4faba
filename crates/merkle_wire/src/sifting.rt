//! Whether what came is there already, by a tree of digests.
ghost use Rattle.std.specs.Prelude.{◌≡◌, false, IfOk, IsTrue};
ghost use Rattle.merkle_wire.specs.ItsRows.{ForRowsOf};
ghost use Rattle.merkle_wire.specs.Steps.{below_keys};
ghost use Rattle.merkle_wire.specs.Taking.{HasNodes, has_digest, is_digest};

use crate::kept_tree::KeptTree;
use crate::wanted::Wanted;
use merkle_digest::{Key, PageDigest, Sip24, ValueDigest};
use merkle_replica::{Join, RowHasher};

/// Whether the digest is there and is this one: [`KeptTree::has_digest`] by what [`KeptTree::digest_at`] returns.
///
/// ```rust crates/store_side/src/tree_side.rt
/// let own = find_digest(self.alloc, &mut self.trees, &self.digests, key)?;
/// Ok(is_digest(&own, digest))
/// ```
pub fn is_digest<const N: usize>(own: &Option<ValueDigest<N>>, digest: &[u8]) -> bool
    ensures { result ≡ is_digest own.now digest.now }
{
    match own {
        Some(own) => own.as_bytes().as_slice() == digest,
        None => false,
    }
}

/// Whether the key is there with this digest of its value.
pub(crate) fn has_digest<
    K: Key + Drop,
    V: Join + Drop,
    H: RowHasher<N, K, V>,
    T: KeptTree<N, K, V, H>,
    const N: usize,
>(tree: &mut T, key: &K, digest: &[u8]) -> Result<bool, T::Error>
    ensures has { T.is_sound tree.new → IfOk result (λ has. ForRowsOf H.laws (T.kept tree.old).digests
        (λ local. has ≡ has_digest H.laws local key.now digest.now)) }
    ensures kept { T.is_sound tree.new → T.kept tree.new ≡ T.kept tree.old }
    ensures steady { T.is_sound tree.new → T.is_sound tree.old }
{
    tree.has_digest(key, digest)
}

/// Whether the keys of all nodes are there, and the digest of the digests of their values is this one.
pub(crate) fn has_nodes<
    K: Key + Drop,
    V: Join + Drop,
    H: RowHasher<N, K, V>,
    T: KeptTree<N, K, V, H>,
    const N: usize,
>(
    tree: &mut T,
    nodes: &[(Option<PageDigest>, Wanted<K>)],
    digest: &[u8; 16],
) -> Result<bool, T::Error>
    ensures there { T.is_sound tree.new → IfOk result (λ has. IsTrue has → ForRowsOf H.laws (T.kept tree.old).digests
        (λ s. HasNodes H.laws s (below_keys nodes.now) digest.now)) }
    ensures lacked { T.is_sound tree.new → IfOk result (λ has. has ≡ false → ForRowsOf H.laws (T.kept tree.old).digests
        (λ s. ¬ HasNodes H.laws s (below_keys nodes.now) digest.now)) }
    ensures kept { T.is_sound tree.new → T.kept tree.new ≡ T.kept tree.old }
    ensures steady { T.is_sound tree.new → T.is_sound tree.old }
{
    let mut sip = Sip24::new();
    'nodes: for node in nodes {
        match tree.digest_at(&node.1.key)? {
            None => return Ok(false),
            Some(own) => sip.write(own.as_bytes()),
        }
    }
    Ok(sip.finish128() == *digest)
}
