//! What is told of the page over a gap: its nodes, and the pages right below it.
ghost use Rattle.std.specs.Prelude.{◌≡◌, IfOk, OnOk, map};
ghost use Rattle.merkle_search_tree.specs.Items.{items, lent_gap};
ghost use Rattle.merkle_search_tree.specs.Lists.{AddsItems};
ghost use Rattle.merkle_tree_theory.specs.Outline.{page_items};
ghost use Rattle.store_file.specs.Logs.{Makes, MakesAndFinds};
ghost use Rattle.store_file.specs.Transactions.{CommitsNothing};
ghost use Rattle.store_tree.specs.Calls.{FindsInTree};
ghost use Rattle.store_tree.specs.Outlines.{IsOutlineAt, IsOutlineOf, outline_items};
ghost use Rattle.store_tree.specs.Pages.{text_gap};
ghost use Rattle.store_tree.specs.Tables.{HasTable, KeepsOthers};
ghost use Rattle.store_tree.specs.Texts.{bytes_gap, bytes_item};

use crate::cell::digest_in;
use crate::fault::TreeFault;
use crate::over::page_over;
use crate::page::{Node, Page};
use crate::pairs::{DIGEST_LEN, Pairs};
use merkle_digest::{PageDigest, ValueDigest};
use merkle_search_tree::{Gap, OutlineItem};
use sqlite_trees::store::Store;
use std::alloc::{AllocError, Global};

/// A node of a page, and the page before it.
#[derive(Drop)]
pub struct ToldNode {
    /// The digest of the page between the node before it and its key, where there is one.
    pub before: Option<PageDigest>,
    /// Its key.
    pub key: String,
    /// The digest of its value.
    pub digest: ValueDigest<DIGEST_LEN>,
}

/// A page: its nodes in order, and the digests of the pages right below it.
#[derive(Drop)]
pub struct Outline {
    /// The nodes.
    pub nodes: Vec<ToldNode>,
    /// The digest of the page after the last node, where there is one.
    pub last: Option<PageDigest>,
}

impl Outline {
    /// The items of the outline, where this is the outline of the page over the gap: the nodes, and between them the pages, each with the gap that it
    /// fills. It takes memory for the items alone.
    ///
    /// # Errors
    ///
    /// `AllocError` if memory runs out for the items.
    #[tactic(auto, using(crate::proofs::Listing::listing))]
    pub fn items<'a>(
        &'a self,
        alloc: Global,
        gap: Gap<'a, String>,
    ) -> Result<Vec<OutlineItem<'a, DIGEST_LEN, String>>, AllocError>
        ensures { IfOk result (λ list. map bytes_item (items list.items) ≡ outline_items (bytes_gap (lent_gap gap.entry)) self.now) }
    {
        let mut list = Vec::new(alloc);
        let mut after = gap.after;
        'nodes: for node in &self.nodes {
            let key = &node.key;
            let before = Gap {
                after,
                before: Some(key),
            };
            push_page(&node.before, before, &mut list)?;
            list.push(OutlineItem::Node(key, &node.digest))?;
            after = Some(key);
        }
        let behind = Gap {
            after,
            before: gap.before,
        };
        push_page(&self.last, behind, &mut list)?;
        Ok(list)
    }
}

/// Adds a page that fills a gap to a list, where there is one.
fn push_page<'a>(
    page: &'a Option<PageDigest>,
    gap: Gap<'a, String>,
    list: &mut Vec<OutlineItem<'a, DIGEST_LEN, String>>,
) -> Result<(), AllocError>
    ensures { OnOk result (AddsItems (page_items (lent_gap gap.entry) page.now) list.old list.new) }
{
    if let Some(digest) = page {
        list.push(OutlineItem::Page(gap, digest))?;
    }
    Ok(())
}

/// The outline of a page.
fn outline_of(alloc: Global, page: Page) -> Result<Outline, AllocError>
    ensures { IfOk result (IsOutlineOf page) }
{
    let mut nodes = Vec::new(alloc);
    'nodes: for Node {
        before,
        key,
        digest,
    } in page.nodes {
        nodes.push(ToldNode {
            before: digest_in(&before),
            key,
            digest,
        })?;
    }
    Ok(Outline {
        nodes,
        last: digest_in(&page.last),
    })
}

/// The outline of the page over a gap: the page with a key in the gap, which has all keys of the map that are in the gap. There is none if the map has
/// no key there.
///
/// It goes down to the page by a scan of one page a level, and reads the cells and the digests of values of the page. What isn't known of the gaps
/// between its nodes is found out and noted, as by [`root_digest`](crate::root::root_digest). It takes memory for the cells of one page a level.
///
/// # Errors
///
/// [`TreeFault::Database`], [`TreeFault::Malformed`] and [`TreeFault::Memory`]: what it wrote is then to be rolled back.
pub fn outline_over<S: Store, P: Pairs<S>>(
    alloc: Global,
    trees: &mut S,
    pairs: &P,
    after: &Option<String>,
    before: &Option<String>,
) -> Result<Option<Outline>, TreeFault>
    requires table { HasTable S.Store trees.old }
    // Of whatever map the rows are the gaps, they stay those, and this is the outline of its tree over the gap.
    ensures outline { MakesAndFinds S.Store trees.old trees.new result (FindsInTree (P.hold pairs.now) (IsOutlineAt (text_gap after.now before.now))) }
    ensures others { Makes S.Store trees.old trees.new result KeepsOthers }
    ensures uncommitted { CommitsNothing S.Store trees.old trees.new }
{
    let Some(over) = page_over(alloc, trees, pairs, after, before)? else {
        return Ok(None);
    };
    if over.page.nodes.is_empty() {
        return Err(TreeFault::Malformed);
    }
    let told = outline_of(alloc, over.page)?;
    Ok(Some(told))
}
