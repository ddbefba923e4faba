//! Rows in memory, as the map whose gaps a table of cells has.
ghost use Rattle.std.specs.Prelude.{◌≡◌, ◌≤◌, IfOk, Some, length, map, string_bytes};
ghost use Rattle.key_order.specs.Map.{get};
ghost use Rattle.merkle_tree_theory.specs.Gap.{is_in_gap, pairs_within};
ghost use Rattle.store_tree.specs.Cells.{bytes_order};
ghost use Rattle.store_tree.specs.Maps.{bytes_pair};
ghost use Rattle.store_tree.specs.Pages.{text_gap};

use merkle_digest::ValueDigest;
use sqlite_trees::store::Store;
use std::alloc::{AllocError, Global};
use store_tree::TreeFault;
use store_tree::pairs::{DIGEST_LEN, Pairs};

/// A key with the digest of its value.
type Row = (String, ValueDigest<DIGEST_LEN>);

/// Keys in ascending order, each with the digest of its value.
#[derive(Drop)]
pub struct SortedRows {
    rows: Vec<Row>,
}

impl SortedRows {
    /// No rows.
    pub fn new(alloc: Global) -> Self {
        SortedRows {
            rows: Vec::new(alloc),
        }
    }

    /// The rows.
    pub fn rows(&self) -> &[Row] {
        &self.rows
    }

    /// Where a key stands, or is to stand.
    fn place(&self, key: &String) -> usize
        ensures { result ≤ length self.now.rows.items }
    {
        'rows: for place in 0..self.rows.len() {
            if self.rows[place].0 >= *key {
                return place;
            }
        }
        self.rows.len()
    }

    /// Sets the digest of a key's value.
    pub fn set(&mut self, key: String, digest: ValueDigest<DIGEST_LEN>) -> Result<(), AllocError> {
        let place = self.place(&key);
        if let Some(row) = self.rows.get_mut(place) {
            if row.0 == key {
                row.1 = digest;
                return Ok(());
            }
        }
        self.rows.insert(place, (key, digest))?;
        Ok(())
    }
}

/// The digest of the value of a key that rows have.
fn look_up(rows: &[Row], key: &String) -> Result<ValueDigest<DIGEST_LEN>, TreeFault>
    ensures { IfOk result (λ digest. get bytes_order (map bytes_pair rows.now) (string_bytes key.now) ≡ Some digest) }
{
    'rows: for (own, digest) in rows {
        if *own == *key {
            return Ok(digest.clone()?);
        }
    }
    Err(TreeFault::Malformed)
}

/// Whether a key is above one and below another, where there are these.
fn is_between(key: &String, after: &Option<String>, before: &Option<String>) -> bool
    ensures { result ≡ is_in_gap bytes_order (string_bytes key.now) (text_gap after.now before.now) }
{
    let is_above = match after {
        None => true,
        Some(low) => low < key,
    };
    let is_below = match before {
        None => true,
        Some(high) => key < high,
    };
    is_above && is_below
}

/// The rows whose keys are above one and below another, where there are these.
#[tactic(auto, using(crate::proofs::Rows::passing))]
fn rows_between(
    alloc: Global,
    rows: &[Row],
    after: &Option<String>,
    before: &Option<String>,
) -> Result<Vec<Row>, AllocError>
    ensures { IfOk result (λ found. map bytes_pair found.items ≡ pairs_within bytes_order (text_gap after.now before.now) (map bytes_pair rows.now)) }
{
    let mut found = Vec::new(alloc);
    'rows: for (key, digest) in rows {
        if is_between(key, after, before) {
            found.push((key.clone()?, digest.clone()?))?;
        }
    }
    Ok(found)
}

impl<S: Store> Pairs<S> for SortedRows {
    ghost hold = { λ pairs trees m. map bytes_pair pairs.rows.items ≡ m };

    ghost stay = { λ pairs old new m others held. held };

    fn digest_at(
        &self,
        _alloc: Global,
        _trees: &mut S,
        key: &String,
    ) -> Result<ValueDigest<DIGEST_LEN>, TreeFault> {
        look_up(&self.rows, key)
    }

    fn within(
        &self,
        alloc: Global,
        _trees: &mut S,
        after: &Option<String>,
        before: &Option<String>,
    ) -> Result<Vec<(String, ValueDigest<DIGEST_LEN>)>, TreeFault> {
        Ok(rows_between(alloc, &self.rows, after, before)?)
    }
}
