//! The rows of one page, read from a store's file.
ghost use Rattle.std.specs.List.{AllByRecursion};
ghost use Rattle.std.specs.Prelude.{◌≡◌, true, IsTrue};
ghost use Rattle.key_order.specs.Map.{IsMap};
ghost use Rattle.key_order.specs.Text.{text_order};
ghost use Rattle.merkle_search_tree.specs.Items.{items};
ghost use Rattle.merkle_wire.specs.Outlines.{nodes_among};
ghost use Rattle.store_file.specs.Ranges.{is_between};

use merkle_bytes::Encode;
use merkle_search_tree::OutlineItem;
use merkle_wire::{KeptRows, OwnedGap};
use std::alloc::AllocError;
use std::marker::Model;
use store_file::Register;
use store_file::rows::register_in;
use store_file::table::Entries;
use store_tree::pairs::DIGEST_LEN;

/// The rows of one page, sorted by key.
#[derive(Drop)]
pub(crate) struct PageRows {
    rows: Entries,
}

impl Model for PageRows {
    ghost use Rattle.key_order.specs.Map.{IsMap};
    ghost use Rattle.key_order.specs.Text.{text_order};
    ghost use Rattle.store_rows.specs.Digests.{TextRows};

    ghost Value = { TextRows };

    ghost view = { λ page. page.rows.items };

    ghost invariant = { λ page. IsMap text_order page.rows.items };
}

impl PageRows {
    /// These rows.
    pub(crate) fn new(rows: Entries) -> PageRows
        requires ascending { IsMap text_order rows.items }
        ensures { result ≡ rows.items }
    {
        PageRows { rows }
    }
}

/// They are at hand, so that the page is told by its rows where these are short. No question for rows is answered by it.
impl KeptRows<String, Register> for PageRows {
    type Error = AllocError;

    ghost rows = { λ page. page };

    fn are_at_hand(&self) -> bool {
        true
    }

    fn count(&self) -> Result<u64, AllocError> {
        Err(AllocError)
    }

    fn add_value(&self, key: &String, bytes: &mut Vec<u8>) -> Result<bool, AllocError> {
        match register_in(&self.rows, key) {
            None => Ok(false),
            Some(register) => {
                register.encode(bytes)?;
                Ok(true)
            }
        }
    }

    fn add_part(
        &self,
        _most_bytes: usize,
        _gap: &OwnedGap<String>,
        _bytes: &mut Vec<u8>,
    ) -> Result<(), AllocError> {
        Err(AllocError)
    }
}

/// Whether a key is between the bounds of a gap.
fn is_within(key: &String, gap: &OwnedGap<String>) -> bool
    ensures { result ≡ is_between gap.now.after gap.now.before key.now }
{
    let is_above = match &gap.after {
        None => true,
        Some(after) => after < key,
    };
    let is_below = match &gap.before {
        None => true,
        Some(before) => key < before,
    };
    is_above && is_below
}

/// Whether the items are nodes alone, whose keys are between the bounds of a gap.
pub(crate) fn are_nodes_within(
    list: &[OutlineItem<'_, DIGEST_LEN, String>],
    gap: &OwnedGap<String>,
) -> bool
    ensures { IsTrue result → AllByRecursion (λ n. is_between gap.now.after gap.now.before n.0 ≡ true) (nodes_among (items list.now)) }
{
    'items: for item in list {
        let OutlineItem::Node(key, _) = item else {
            return false;
        };
        if !is_within(key, gap) {
            return false;
        }
    }
    true
}
