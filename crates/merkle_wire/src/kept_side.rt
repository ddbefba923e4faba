//! Sides that answer, with their trees and rows kept anywhere.
ghost use Rattle.std.specs.Prelude.{◌≡◌, ◌↔◌, IfOk, OnOk, IsSome, IsTrue, length, ⊤};
ghost use Rattle.merkle_replica.specs.Contents.{Contents};
ghost use Rattle.merkle_tree_theory.specs.State.{SameSettings, map_of};
ghost use Rattle.merkle_wire.specs.Replies.{root_page_digest};
ghost use Rattle.merkle_wire.specs.Steps.{AddsValueAt, TellsPage, TellsPart};
ghost use Rattle.merkle_wire.specs.Settings.{AreSettingsBy};
ghost use Rattle.merkle_wire.specs.ItsRows.{digests_of};

use crate::gaps::OwnedGap;
use crate::kept_rows::KeptRows;
use crate::outlines::{Telling, outline_over, tell_outline};
use crate::settings::{Settings, are_settings_of};
use merkle_bytes::Encode;
use merkle_digest::{Hasher, Key, PageDigest};
use merkle_replica::{Join, Replica, RowHasher};
use merkle_search_tree::{MerkleSearchTree, OutlineItem};
use std::alloc::{AllocError, Global};

/// A side that answers: a tree of digests and the rows, wherever they are kept. [`Replica`] is one in memory, and a [`MerkleSearchTree`] with rows that
/// are kept elsewhere ([`KeptRows`]) is one too.
///
/// Each call takes the rows where these stand beside the tree, and `()` where the side has them itself. What is asked of a side changes nothing of what
/// it keeps. A call may fail, for example to read a disk, and the message is then not answered. What a call says of what is kept, it says if the side is
/// sound after it (`is_sound`).
pub trait KeptSide<const N: usize, K: Key + Encode, V: Join + Encode, H: RowHasher<N, K, V>, R> {
    /// Why the tree or the rows can't be read: out of memory, or a reason of where they are kept.
    type Error: From<AllocError> + Drop;

    /// The rows, in ascending key order, and the tree.
    ghost contents: { Self → R → Contents K V H };

    /// Whether what it has told so far is what is kept: of a file, that the disk gave back what was written. In memory it always is.
    ghost is_sound: { Self → Type 0 };

    /// Whether these are the settings of the tree.
    fn has_settings(&self, beside: &R, settings: &Settings<K>) -> bool
        ensures { IsTrue result ↔ AreSettingsBy ⟦<H as Hasher<N, K>>⟧.digest_of N (digests_of (contents self.now beside.now).tree) settings.now };

    /// Gives a digest to each page that lacks one. It comes before the calls below that tell of pages.
    fn hash(&mut self, beside: &R) -> Result<(), Self::Error>
        ensures hashed { is_sound self.new → OnOk result (IsSome (contents self.new beside.now).tree.root_hash) }
        ensures map { is_sound self.new → map_of (contents self.new beside.now).tree ≡ map_of (contents self.old beside.now).tree }
        ensures settings { is_sound self.new → SameSettings (contents self.old beside.now).tree (contents self.new beside.now).tree }
        ensures rows { is_sound self.new → (contents self.new beside.now).rows ≡ (contents self.old beside.now).rows }
        ensures steady { is_sound self.new → is_sound self.old };

    /// How many rows there are.
    fn count(&mut self, beside: &R) -> Result<u64, Self::Error>
        ensures count { is_sound self.new → IfOk result (λ count. count ≡ length (contents self.old beside.now).rows) }
        ensures kept { is_sound self.new → contents self.new beside.now ≡ contents self.old beside.now }
        ensures steady { is_sound self.new → is_sound self.old };

    /// The digest of the root page, where there is a row.
    fn root_digest(&mut self, beside: &R) -> Result<Option<PageDigest>, Self::Error>
        requires hashed { is_sound self.old → IsSome (contents self.old beside.now).tree.root_hash }
        ensures digest { is_sound self.new → IfOk result (λ digest. digest ≡ root_page_digest K.bytes_of (contents self.old beside.now).tree) }
        ensures kept { is_sound self.new → contents self.new beside.now ≡ contents self.old beside.now }
        ensures steady { is_sound self.new → is_sound self.old };

    /// Adds what is told of the page over a gap. [`tell_outline`] does it by the items of that page.
    fn tell_page(
        &mut self,
        alloc: Global,
        beside: &R,
        telling: Telling,
        gap: &OwnedGap<K>,
        bytes: &mut Vec<u8>,
    ) -> Result<(), Self::Error>
        requires hashed { is_sound self.old → IsSome (contents self.old beside.now).tree.root_hash }
        ensures told { is_sound self.new → OnOk result (TellsPage K.cmp K.bytes_of K.encoding V.encoding (contents self.old beside.now) telling gap.now
            bytes.old bytes.new) }
        ensures kept { is_sound self.new → contents self.new beside.now ≡ contents self.old beside.now }
        ensures steady { is_sound self.new → is_sound self.old };

    /// Adds the bytes of the value at a key, where there is one, and returns whether there is.
    fn add_value(&mut self, beside: &R, key: &K, bytes: &mut Vec<u8>) -> Result<bool, Self::Error>
        ensures value { is_sound self.new → IfOk result (AddsValueAt K.cmp V.encoding (contents self.old beside.now).rows key.now bytes.old bytes.new) }
        ensures kept { is_sound self.new → contents self.new beside.now ≡ contents self.old beside.now }
        ensures steady { is_sound self.new → is_sound self.old };

    /// Adds the rows in a gap, or the first of them, as [`KeptRows::add_part`] says.
    fn add_part(
        &mut self,
        beside: &R,
        most_bytes: usize,
        gap: &OwnedGap<K>,
        bytes: &mut Vec<u8>,
    ) -> Result<(), Self::Error>
        ensures part { is_sound self.new → OnOk result (TellsPart K.cmp K.encoding V.encoding (contents self.old beside.now).rows most_bytes gap.now
            bytes.old bytes.new) }
        ensures kept { is_sound self.new → contents self.new beside.now ≡ contents self.old beside.now }
        ensures steady { is_sound self.new → is_sound self.old };
}

/// A tree in memory, beside rows that are kept anywhere.
impl<
    const N: usize,
    K: Key + Encode + Drop,
    V: Join + Encode + Drop,
    H: RowHasher<N, K, V>,
    R: KeptRows<K, V>,
> KeptSide<N, K, V, H, R> for MerkleSearchTree<K, V, H, N> {
    type Error = R::Error;

    ghost contents = { λ tree rows. record { rows = R.rows rows; tree = tree } };

    ghost is_sound = { λ _. ⊤ };

    fn has_settings(&self, _beside: &R, settings: &Settings<K>) -> bool {
        are_settings_of(self, settings)
    }

    fn hash(&mut self, _beside: &R) -> Result<(), R::Error> {
        let _ = self.root_hash_counted();
        Ok(())
    }

    fn count(&mut self, beside: &R) -> Result<u64, R::Error> {
        beside.count()
    }

    fn root_digest(&mut self, _beside: &R) -> Result<Option<PageDigest>, R::Error> {
        Ok(root_digest(self))
    }

    fn tell_page(
        &mut self,
        alloc: Global,
        beside: &R,
        telling: Telling,
        gap: &OwnedGap<K>,
        bytes: &mut Vec<u8>,
    ) -> Result<(), R::Error> {
        tell_page_of(alloc, self, beside, telling, gap, bytes)
    }

    fn add_value(&mut self, beside: &R, key: &K, bytes: &mut Vec<u8>) -> Result<bool, R::Error> {
        beside.add_value(key, bytes)
    }

    fn add_part(
        &mut self,
        beside: &R,
        most_bytes: usize,
        gap: &OwnedGap<K>,
        bytes: &mut Vec<u8>,
    ) -> Result<(), R::Error> {
        beside.add_part(most_bytes, gap, bytes)
    }
}

/// A replica, which has its rows itself.
impl<
    const N: usize,
    K: Key + Encode + Drop,
    V: Join + Encode + Drop,
    H: RowHasher<N, K, V>,
> KeptSide<N, K, V, H, ()> for Replica<K, V, H, N> {
    type Error = AllocError;

    ghost contents = { λ replica _. replica };

    ghost is_sound = { λ _. ⊤ };

    fn has_settings(&self, _beside: &(), settings: &Settings<K>) -> bool {
        are_settings_of(self, settings)
    }

    fn hash(&mut self, _beside: &()) -> Result<(), AllocError> {
        Replica::hash(self);
        Ok(())
    }

    fn count(&mut self, _beside: &()) -> Result<u64, AllocError> {
        KeptRows::count(self)
    }

    fn root_digest(&mut self, _beside: &()) -> Result<Option<PageDigest>, AllocError> {
        Ok(root_digest(self.tree()))
    }

    fn tell_page(
        &mut self,
        alloc: Global,
        _beside: &(),
        telling: Telling,
        gap: &OwnedGap<K>,
        bytes: &mut Vec<u8>,
    ) -> Result<(), AllocError> {
        tell_page_of(alloc, self.tree(), self, telling, gap, bytes)
    }

    fn add_value(
        &mut self,
        _beside: &(),
        key: &K,
        bytes: &mut Vec<u8>,
    ) -> Result<bool, AllocError> {
        KeptRows::add_value(self, key, bytes)
    }

    fn add_part(
        &mut self,
        _beside: &(),
        most_bytes: usize,
        gap: &OwnedGap<K>,
        bytes: &mut Vec<u8>,
    ) -> Result<(), AllocError> {
        KeptRows::add_part(self, most_bytes, gap, bytes)
    }
}

/// The digest of the root page of a tree in memory, where there is a row.
fn root_digest<K: Key, V, H: Hasher<N, K>, const N: usize>(
    tree: &MerkleSearchTree<K, V, H, N>,
) -> Option<PageDigest>
    requires hashed { IsSome tree.now.root_hash }
    ensures { result ≡ root_page_digest K.bytes_of tree.now }
{
    match tree.whole() {
        Some(OutlineItem::Page(_, digest)) => Some(PageDigest::new(*digest.as_bytes())),
        _ => None,
    }
}

/// Writes what is told of the page over a gap, by a tree in memory.
fn tell_page_of<
    K: Key + Encode + Drop,
    V: Encode,
    H: Hasher<N, K>,
    R: KeptRows<K, V>,
    const N: usize,
>(
    alloc: Global,
    tree: &MerkleSearchTree<K, V, H, N>,
    rows: &R,
    telling: Telling,
    gap: &OwnedGap<K>,
    bytes: &mut Vec<u8>,
) -> Result<(), R::Error>
    requires hashed { IsSome tree.now.root_hash }
    ensures { OnOk result (TellsPage K.cmp K.bytes_of K.encoding V.encoding (record { rows = R.rows rows.now; tree = tree.now }) telling gap.now
        bytes.old bytes.new) }
{
    let list = outline_over(tree, gap)?;
    tell_outline(alloc, rows, telling, &list, gap.after.as_ref(), bytes)?;
    Ok(())
}
