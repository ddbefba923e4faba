//! Whether the nodes of a page of a peer and this side's own digests at their keys are equal where their digests are.
ghost use Rattle.std.specs.Prelude.{◌≡◌, ◌++◌, IfOk, IfSome, IsSome, IsTrue, OnOk};
ghost use Rattle.merkle_audit.specs.Nodes.{AreFaithful, AreFaithfulIn, AreLookedAt, Differ, HasAll, gaps_among, page_items_over};
ghost use Rattle.merkle_replica.specs.Contents.{side};
ghost use Rattle.merkle_replica.specs.Descent.{HasDigestAt, gaps_of};
ghost use Rattle.merkle_search_tree.specs.Items.{lent_gap, items};
ghost use Rattle.merkle_tree_theory.specs.State.{SameSettings};
ghost use Rattle.merkle_wire.specs.Outlines.{nodes_among};
ghost use Rattle.merkle_wire.specs.Sessions.{HaveFaithfulNodes};

use merkle_digest::{Key, Sip24, ValueDigest};
use merkle_replica::laws::a_replica_has_the_tree_of_its_rows;
use merkle_replica::{Join, Replica, RowHasher};
use merkle_search_tree::laws::{a_map_has_one_tree, every_tree_is_sound};
use merkle_search_tree::{Gap, OutlineItem};
use std::alloc::{AllocError, Global};

/// On how many levels a tree has pages at most.
const LEVELS: u16 = 256;

/// Whether, for each page of the peer's tree at all of whose keys this side has a value too, the digests of the values are equal on both sides
/// where the one digest over them is. The peer is hashed for it, and its rows stay.
///
/// It opens each page of the peer once, level by level, and looks up each key of the peer in the tree of this side at most twice. It takes memory for
/// the gaps of the pages of two levels, and for the items of one page.
///
/// # Errors
///
/// `AllocError` if memory runs out.
pub fn have_faithful_nodes<K: Key + Drop, V: Join + Drop, H: RowHasher<N, K, V>, const N: usize>(
    alloc: Global,
    local: &Replica<K, V, H, N>,
    peer: &mut Replica<K, V, H, N>,
) -> Result<bool, AllocError>
    ensures told { IfOk result (λ are. IsTrue are → HaveFaithfulNodes H.laws (side local.now) (side peer.old)) }
    ensures rows { peer.new.rows ≡ peer.old.rows }
    ensures settings { SameSettings peer.old.tree peer.new.tree }
{
    peer.hash();
    a_map_has_one_tree::<K, H, N>();
    a_replica_has_the_tree_of_its_rows(peer);
    all_are_faithful(alloc, local, peer)
}

/// Whether the nodes of each page of the peer's tree are told apart by the one digest over them.
fn all_are_faithful<K: Key + Drop, V: Join + Drop, H: RowHasher<N, K, V>, const N: usize>(
    alloc: Global,
    local: &Replica<K, V, H, N>,
    peer: &Replica<K, V, H, N>,
) -> Result<bool, AllocError>
    requires { IsSome peer.now.tree.root_hash }
    ensures { IfOk result (λ are. IsTrue are → AreFaithfulIn H.laws (side local.now) peer.now.tree.root) }
{
    every_tree_is_sound(peer.tree());
    let mut gaps = Vec::new(alloc);
    gaps.push(Gap::everywhere())?;
    'levels: for _ in 0..LEVELS {
        if gaps.is_empty() {
            return Ok(true);
        }
        match look_at(alloc, local, peer, &gaps)? {
            None => return Ok(false),
            Some(below) => gaps = below,
        }
    }
    Ok(gaps.is_empty())
}

/// The gaps of the pages right below those over the gaps, where the nodes of each page over one of the gaps are told apart.
fn look_at<'a, K: Key + Drop, V: Join + Drop, H: RowHasher<N, K, V>, const N: usize>(
    alloc: Global,
    local: &Replica<K, V, H, N>,
    peer: &'a Replica<K, V, H, N>,
    gaps: &[Gap<'a, K>],
) -> Result<Option<Vec<Gap<'a, K>>>, AllocError>
    requires { IsSome peer.now.tree.root_hash }
    ensures { IfOk result (λ found. IfSome found (λ below. AreLookedAt H.laws (side local.now) peer.now.tree (gaps_of gaps.now) (gaps_of below.items))) }
{
    let mut below = Vec::new(alloc);
    'gaps: for gap in gaps {
        let list = outline_over(peer, gap)?;
        if !are_faithful(local, &list) {
            return Ok(None);
        }
        add_gaps(&list, &mut below)?;
    }
    Ok(Some(below))
}

/// The items of the page over a gap.
fn outline_over<'a, K: Key + Drop, V: Join + Drop, H: RowHasher<N, K, V>, const N: usize>(
    replica: &'a Replica<K, V, H, N>,
    gap: &Gap<'a, K>,
) -> Result<Vec<OutlineItem<'a, N, K>>, AllocError>
    requires { IsSome replica.now.tree.root_hash }
    ensures { IfOk result (λ list. items list.items ≡ page_items_over H.laws replica.now.tree (lent_gap gap.now)) }
{
    match replica.tree().outline(gap.copied())? {
        Some(list) => Ok(list),
        None => unreachable!(),
    }
}

/// Adds the gaps of the pages among the items.
fn add_gaps<'a, K, const N: usize>(
    list: &[OutlineItem<'a, N, K>],
    gaps: &mut Vec<Gap<'a, K>>,
) -> Result<(), AllocError>
    ensures { OnOk result (gaps_of gaps.new.items ≡ gaps_of gaps.old.items ++ gaps_among (items list.now)) }
{
    'items: for item in list {
        if let OutlineItem::Page(gap, _) = item {
            gaps.push(gap.copied())?;
        }
    }
    Ok(())
}

/// Whether the nodes among the items are told apart from what this side has at their keys by the one digest over them.
fn are_faithful<K: Key + Drop, V: Join + Drop, H: RowHasher<N, K, V>, const N: usize>(
    local: &Replica<K, V, H, N>,
    list: &[OutlineItem<'_, N, K>],
) -> bool
    ensures { IsTrue result → AreFaithful H.laws (side local.now) (nodes_among (items list.now)) }
{
    if has_all(local, list) {
        return true;
    }
    differ(local, list)
}

/// Whether this side has each of the nodes among the items.
fn has_all<K: Key + Drop, V: Join + Drop, H: RowHasher<N, K, V>, const N: usize>(
    local: &Replica<K, V, H, N>,
    list: &[OutlineItem<'_, N, K>],
) -> bool
    ensures { IsTrue result → HasAll H.laws (side local.now) (nodes_among (items list.now)) }
{
    'items: for item in list {
        if let OutlineItem::Node(key, digest) = item {
            if !has_node(local, *key, *digest) {
                return false;
            }
        }
    }
    true
}

/// Whether the key is there with this digest of its value.
fn has_node<K: Key + Drop, V: Join + Drop, H: RowHasher<N, K, V>, const N: usize>(
    local: &Replica<K, V, H, N>,
    key: &K,
    digest: &ValueDigest<N>,
) -> bool
    ensures { IsTrue result → HasDigestAt H.laws (side local.now) key.now digest.now }
{
    match local.value_hash(key) {
        Some(own) => *own == *digest,
        None => false,
    }
}

/// Whether this side lacks the key of one of the nodes among the items, or the one digest over its own digests at their keys is another than that
/// over the digests of the nodes.
fn differ<K: Key + Drop, V: Join + Drop, H: RowHasher<N, K, V>, const N: usize>(
    local: &Replica<K, V, H, N>,
    list: &[OutlineItem<'_, N, K>],
) -> bool
    ensures { IsTrue result → Differ H.laws (side local.now) (nodes_among (items list.now)) }
{
    let mut own = Sip24::new();
    let mut theirs = Sip24::new();
    'items: for item in list {
        if let OutlineItem::Node(key, digest) = item {
            match local.value_hash(*key) {
                None => return true,
                Some(hash) => {
                    own.write(hash.as_bytes());
                    theirs.write(digest.as_bytes());
                }
            }
        }
    }
    own.finish128() != theirs.finish128()
}
