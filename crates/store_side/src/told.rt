//! What a store's file tells a peer, as the bytes of a message.
ghost use Rattle.std.specs.Prelude.{◌≡◌, IfOk, IfSome, OnOk, map};
ghost use Rattle.key_order.specs.Text.{text_order};
ghost use Rattle.merkle_search_tree.specs.Items.{items, lent_gap};
ghost use Rattle.merkle_wire.specs.Outlines.{nodes_among};
ghost use Rattle.merkle_wire.specs.Steps.{AddsValueAt};
ghost use Rattle.store_file.specs.Logs.{IsClean};
ghost use Rattle.store_file.specs.WireRegisters.{register_encoding};
ghost use Rattle.store_side.specs.Answered.{ArePageRows, TellsFilePage, TellsRegisters};
ghost use Rattle.store_side.specs.FileTrees.{IsFile, IsFileOf, KeepsFile, TellsFile};
ghost use Rattle.store_tree.specs.Outlines.{found_items};
ghost use Rattle.store_tree.specs.Texts.{bytes_gap, bytes_item};

use crate::filed::{find_latest, find_outline, find_rows, visit_rows};
use crate::noted::Noted;
use crate::page_rows::{PageRows, are_nodes_within};
use crate::visitors::Told;
use merkle_bytes::Encode;
use merkle_search_tree::{Gap, OutlineItem};
use merkle_wire::laws::equal_bytes_are_told_alike;
use merkle_wire::{OwnedGap, PartTeller, Telling, tell_outline};
use sqlite_trees::store::Store;
use std::alloc::{AllocError, Global};
use store_file::Register;
use store_rows::LatestDigests;
use store_tree::TreeFault;
use store_tree::outline::Outline;
use store_tree::pairs::DIGEST_LEN;

/// Adds the bytes of the latest register of a key, where it has one, and returns whether it has.
pub(crate) fn add_latest<S: Store>(
    alloc: Global,
    trees: &mut S,
    digests: &LatestDigests,
    key: &String,
    bytes: &mut Vec<u8>,
) -> Result<bool, TreeFault>
    requires file { IsFile S.Store digests.now trees.old }
    ensures value { TellsFile S.Store digests.now trees.old trees.new result
        (λ rows. AddsValueAt text_order register_encoding rows key.now bytes.old bytes.new) }
    ensures kept { KeepsFile S.Store digests.now trees.old trees.new }
    ensures steady { IsClean S.Store trees.new → IsClean S.Store trees.old }
{
    let Some(register) = find_latest(alloc, trees, digests, key)? else {
        return Ok(false);
    };
    register.encode(bytes)?;
    Ok(true)
}

/// Adds the rows in a gap, or the first of them. It reads those that it adds and one key more, and takes memory for their bytes.
pub(crate) fn add_rows<S: Store>(
    alloc: Global,
    trees: &mut S,
    digests: &LatestDigests,
    most_bytes: usize,
    gap: &OwnedGap<String>,
    bytes: &mut Vec<u8>,
) -> Result<(), TreeFault>
    requires file { IsFile S.Store digests.now trees.old }
    ensures part { TellsFile S.Store digests.now trees.old trees.new result
        (λ rows _. TellsRegisters rows most_bytes gap.now bytes.old bytes.new) }
    ensures kept { KeepsFile S.Store digests.now trees.old trees.new }
    ensures steady { IsClean S.Store trees.new → IsClean S.Store trees.old }
{
    let mut told = Told {
        part: PartTeller::begin(alloc, most_bytes, gap, bytes)?,
    };
    let whole = visit_rows(alloc, trees, digests, &gap.after, &gap.before, &mut told)?;
    let Told { part } = told;
    part.end::<String, Register>(whole, bytes)?;
    Ok(())
}

/// The items of an outline, or none where there is no outline.
fn items_of<'a>(
    alloc: Global,
    found: &'a Option<Outline>,
    gap: Gap<'a, String>,
) -> Result<Vec<OutlineItem<'a, DIGEST_LEN, String>>, AllocError>
    ensures { IfOk result (λ list. map bytes_item (items list.items) ≡ found_items (bytes_gap (lent_gap gap.entry)) found.entry.now) }
{
    match found {
        None => Ok(Vec::new(alloc)),
        Some(outline) => outline.items(alloc, gap),
    }
}

/// The rows of a page, where rows may be told, no page is below it, and all its keys are in a gap; else none.
fn find_page_rows<S: Store>(
    alloc: Global,
    trees: &mut S,
    digests: &LatestDigests,
    telling: Telling,
    list: &[OutlineItem<'_, DIGEST_LEN, String>],
    gap: &OwnedGap<String>,
) -> Result<Option<PageRows>, TreeFault>
    requires file { IsFile S.Store digests.now trees.old }
    ensures rows { TellsFile S.Store digests.now trees.old trees.new result
        (λ rows found. IfSome found (ArePageRows (nodes_among (items list.now)) rows)) }
    ensures kept { KeepsFile S.Store digests.now trees.old trees.new }
    ensures steady { IsClean S.Store trees.new → IsClean S.Store trees.old }
{
    if telling.most == 0 {
        return Ok(None);
    }
    if !are_nodes_within(list, gap) {
        return Ok(None);
    }
    let rows = find_rows(alloc, trees, digests, &gap.after, &gap.before)?;
    Ok(Some(PageRows::new(rows)))
}

/// Adds what is told of the page over a gap: the digests of the pages below where these are asked for, else its rows where these are short and no page is
/// below it, else its keys with the digests of their values.
pub(crate) fn add_page<S: Store>(
    alloc: Global,
    trees: &mut S,
    digests: &LatestDigests,
    noted: &Noted,
    telling: Telling,
    gap: &OwnedGap<String>,
    bytes: &mut Vec<u8>,
) -> Result<(), TreeFault>
    requires file { IsFileOf digests.now noted.now.rows S.Store trees.old }
    ensures told { IsClean S.Store trees.new
        → OnOk result (TellsFilePage digests.now noted.now.rows telling gap.now bytes.old bytes.new) }
    ensures kept { IsFileOf digests.now noted.now.rows S.Store trees.new }
    ensures steady { IsClean S.Store trees.new → IsClean S.Store trees.old }
{
    equal_bytes_are_told_alike::<String, Register>();
    let found = find_outline(alloc, trees, digests, &gap.after, &gap.before)?;
    let list = items_of(alloc, &found, gap.as_gap())?;
    match find_page_rows(alloc, trees, digests, telling, &list, gap)? {
        Some(page) => {
            tell_outline(alloc, &page, telling, &list, gap.after.as_ref(), bytes)?;
            Ok(())
        }
        None => {
            tell_outline(alloc, noted, telling, &list, gap.after.as_ref(), bytes)?;
            Ok(())
        }
    }
}
