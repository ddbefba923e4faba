//! A store that begins with the rows which are at hand in key order, as a program does that reads them from a disk.
ghost use Rattle.std.specs.Prelude.{◌≡◌, [], ◌∷◌, IfOk, IfErr, max, nat_eq};
ghost use Rattle.std.specs.Int.{w64, to_le_bytes};
ghost use Rattle.key_order.specs.Join.{IsJoin};
ghost use Rattle.key_order.specs.Text.{text_order};
ghost use Rattle.merkle_digest.specs.SipHash.{zero_key};
ghost use Rattle.merkle_search_tree.specs.Loading.{LoadFails, BeginsWith};
ghost use Rattle.merkle_tree_theory.specs.Settings.{default_settings};
ghost use Rattle.merkle_tree_theory.specs.State.{HasSettings, SameSettings};
ghost use Rattle.merkle_tree_theory.specs.declared.page_format.PageFormat.TheVariants.{V1};
ghost use Rattle.examples.specs.Texts.{IsItsRootHash, IsRootHashOf};

use merkle_digest::{HashBytes, RootHash, SipHasher};
use merkle_replica::{Join, Replica};
use merkle_search_tree::LoadRefused;
use merkle_search_tree::builder::Builder;
use merkle_search_tree::laws::every_tree_is_sound;
use std::alloc::{AllocError, Global};

/// A store of values by name, under SipHash.
pub type Store<V> = Replica<String, V, SipHasher, 16>;

/// The store of rows that ascend by name, under the default settings. No row is moved.
///
/// # Errors
///
/// Rows that don't ascend, by the place of the first that doesn't, or out of memory.
pub fn open_rows<V: Join + HashBytes + Drop>(
    alloc: Global,
    rows: Vec<(String, V)>,
) -> Result<Store<V>, LoadRefused>
    ensures rows { IfOk result (λ store. store.rows ≡ rows.items) }
    ensures defaults { IfOk result (λ store. HasSettings (default_settings V1) store.tree) }
    ensures refused { IfErr result (λ why. LoadFails text_order (BeginsWith rows.items) why) }
{
    match Replica::from_rows(alloc, Builder::default(), rows) {
        Ok(store) => Ok(store),
        Err(refused) => Err(refused.why),
    }
}

/// The root hash of a store of numbers: the digest of the root page of the tree of its rows. It fills in the digests that are missing.
///
/// # Errors
///
/// That of a digest's clone, which takes no memory.
pub fn root_hash(store: &mut Store<u64>) -> Result<RootHash, AllocError>
    ensures digest { IfOk result (IsItsRootHash (to_le_bytes w64) store.old) }
    ensures rows { store.new.rows ≡ store.old.rows }
    ensures settings { SameSettings store.old.tree store.new.tree }
{
    every_tree_is_sound(store.tree());
    let digest = store.root_hash().clone()?;
    Ok(digest)
}

/// Opens a store of numbers with its rows, puts one more, of which the greater number stays, and returns its root hash too.
///
/// # Errors
///
/// As `open_rows`.
pub fn open_and_put(
    alloc: Global,
    rows: Vec<(String, u64)>,
    name: String,
    number: u64,
) -> Result<(Store<u64>, RootHash), LoadRefused>
    ensures rows { IfOk result (λ opened. IsJoin text_order nat_eq max rows.items ((name, number) ∷ []) opened.0.rows) }
    ensures defaults { IfOk result (λ opened. HasSettings (default_settings V1) opened.0.tree) }
    ensures root_hash { IfOk result (λ opened. IsRootHashOf (to_le_bytes w64) zero_key 16 V1 opened.0.rows opened.1) }
    ensures refused { IfErr result (λ why. LoadFails text_order (BeginsWith rows.items) why) }
{
    let mut store = open_rows(alloc, rows)?;
    store.put(name, number)?;
    let digest = root_hash(&mut store)?;
    Ok((store, digest))
}
