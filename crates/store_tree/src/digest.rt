//! The digest of a page and the number of its keys, from its nodes.
ghost use Rattle.std.specs.Prelude.{◌≡◌, ◌+◌, ◌++◌, ℕ, List, IfOk};
ghost use Rattle.merkle_digest.specs.SipHash.{zero_key};
ghost use Rattle.merkle_digest.specs.Sip24.{Holds};
ghost use Rattle.merkle_tree_theory.specs.Stream.{head_bytes};
ghost use Rattle.merkle_tree_theory.specs.declared.page_format.PageFormat.TheVariants.{V2};
ghost use Rattle.store_tree.specs.Pages.{digest_by_nodes, known_bytes, known_count, known_of as what_is_known, node_stream, nodes_count};

use crate::cell::Known;
use crate::fault::TreeFault;
use crate::page::{Node, Page};
use crate::pairs::DIGEST_LEN;
use merkle_digest::Sip24;

/// Writes what stands before the first node of a page.
fn write_head(level: u8, count: u64, sip: &mut Sip24)
    ensures { (written : List ℕ) → Holds sip.old zero_key written → Holds sip.new zero_key (written ++ head_bytes V2 level count) }
{
    sip.write(&[2, level]);
    sip.write(&u64::to_le_bytes(count));
}

/// Writes what stands for what is known of a gap.
fn write_known(known: &Known, sip: &mut Sip24)
    ensures { (written : List ℕ) → Holds sip.old zero_key written → Holds sip.new zero_key (written ++ known_bytes known.now) }
{
    match known {
        Known::Unknown => {}
        Known::Nothing => sip.write(&[0]),
        Known::Page { digest, .. } => {
            sip.write(&[1]);
            sip.write(digest);
        }
    }
}

/// Writes what stands for a node and for what is before it.
fn write_node(node: &Node, sip: &mut Sip24)
    ensures { (written : List ℕ) → Holds sip.old zero_key written
        → Holds sip.new zero_key (written ++ node_stream node.now) }
{
    write_known(&node.before, sip);
    sip.write(&u64::to_le_bytes(node.key.len() as u64));
    sip.write(node.key.as_bytes());
    sip.write(node.digest.as_bytes());
}

/// The digest of a page of a level.
fn digest_of(level: u8, page: &Page) -> [u8; DIGEST_LEN]
    ensures { result ≡ digest_by_nodes level page.now }
{
    let mut sip = Sip24::new();
    write_head(level, page.nodes.len() as u64, &mut sip);
    'nodes: for node in &page.nodes {
        write_node(node, &mut sip);
    }
    write_known(&page.last, &mut sip);
    sip.finish128()
}

/// How many keys are known to be in a gap.
pub(crate) fn count_in(known: &Known) -> u64
    ensures { result ≡ known_count known.now }
{
    match known {
        Known::Unknown => 0,
        Known::Nothing => 0,
        Known::Page { count, .. } => *count,
    }
}

/// The sum of two numbers of keys.
fn sum(some: u64, more: u64) -> Result<u64, TreeFault>
    ensures { IfOk result (λ all. all ≡ some + more) }
{
    match some.checked_add(more) {
        Some(all) => Ok(all),
        None => Err(TreeFault::Malformed),
    }
}

/// How many keys a page has, and the pages below it.
fn count_of(page: &Page) -> Result<u64, TreeFault>
    ensures { IfOk result (λ count. count ≡ nodes_count page.now.nodes.items page.now.last) }
{
    let mut count = 0;
    'nodes: for node in &page.nodes {
        count = sum(sum(count, count_in(&node.before))?, 1)?;
    }
    sum(count, count_in(&page.last))
}

/// What is known of a gap in which these nodes of a level stand.
pub(crate) fn known_of(level: u8, page: &Page) -> Result<Known, TreeFault>
    ensures { IfOk result (λ known. known ≡ what_is_known level page.now) }
{
    if page.nodes.is_empty() {
        return Ok(page.last);
    }
    let count = count_of(page)?;
    Ok(Known::Page {
        digest: digest_of(level, page),
        count,
    })
}
