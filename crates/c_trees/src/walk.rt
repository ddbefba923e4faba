//! The pages of a tree and their keys as bytes, as a visitor writes them.

ghost use Rattle.std.specs.Prelude.{◌≡◌, ◌∷◌, ◌++◌, [], false, OnOk, IfOk};
ghost use Rattle.std.specs.Option.{option_map};
ghost use Rattle.c_trees.specs.Pages.{Visited, cache_bytes, page_part, tree_mark};
ghost use Rattle.c_values.specs.Lists.{number_bytes, sized_bytes};

use c_values::{put, put_number, put_text};
use merkle_digest::PageDigest;
use merkle_search_tree::visitor::Visitor;
use merkle_search_tree::{Node, Page};
use std::alloc::{AllocError, Global};

/// The mark of a list of pages.
const PAGES: [u8; 4] = *b"MSTt";

/// What was written of the pages and keys that were visited: how many entries, at most `usize::MAX`, and their bytes; and whether memory was
/// refused for one.
#[derive(Drop)]
pub struct Pages {
    count: usize,
    bytes: Vec<u8>,
    refused: bool,
}

impl Pages {
    /// No page.
    pub fn new(alloc: Global) -> Pages
        ensures none { (result.count ≡ 0) × (result.bytes.items ≡ []) }
        ensures begins { result.refused ≡ false }
    {
        Pages {
            count: 0,
            bytes: Vec::new(alloc),
            refused: false,
        }
    }

    /// The list of what was written, where memory didn't run out.
    pub fn list(&self, alloc: Global) -> Result<Vec<u8>, AllocError>
        ensures whole { IfOk result (λ out. self.now.refused ≡ false) }
        ensures list { IfOk result (λ out. out.items ≡ tree_mark ++ (number_bytes self.now.count ++ self.now.bytes.items)) }
    {
        if self.refused {
            return Err(AllocError);
        }
        let mut out = Vec::new(alloc);
        put(&PAGES, &mut out)?;
        put_number(self.count, &mut out)?;
        put(&self.bytes, &mut out)?;
        Ok(out)
    }
}

/// Writes a page, which is the high page of another or not, and how many keys stand on it.
fn put_page(page: &Page<16, Vec<u8>>, is_high: bool, out: &mut Vec<u8>) -> Result<(), AllocError>
    ensures { OnOk result (out.new.items ≡ out.old.items ++ page_part is_high page.now) }
{
    let kind = if is_high { 2 } else { 1 };
    put(&[kind, page.level()], out)?;
    put_cache(page.hash(), out)?;
    put_number(page.nodes().len(), out)
}

/// Writes the digest that a page has, or that it has none.
fn put_cache(digest: Option<&PageDigest>, out: &mut Vec<u8>) -> Result<(), AllocError>
    ensures { OnOk result (out.new.items ≡ out.old.items ++ cache_bytes (option_map (λ d. d.now) digest.entry)) }
{
    match digest {
        None => put(&[0], out),
        Some(digest) => {
            put(&[1], out)?;
            put(digest.as_bytes(), out)
        }
    }
}

/// Writes the key of a node.
fn put_key(node: &Node<16, Vec<u8>>, out: &mut Vec<u8>) -> Result<(), AllocError>
    ensures { OnOk result (out.new.items ≡ out.old.items ++ (0 ∷ sized_bytes node.now.key.items)) }
{
    put(&[0], out)?;
    put_text(node.key().as_slice(), out)
}

/// Writes each page before those below it, and each key after the page below it, until memory runs out.
impl Visitor<16, Vec<u8>> for Pages {
    ghost step = { λ before call more after. Visited call more before after };

    fn pre_visit_node(&mut self, _node: &Node<16, Vec<u8>>) -> bool {
        true
    }

    fn visit_node(&mut self, node: &Node<16, Vec<u8>>) -> bool {
        if put_key(node, &mut self.bytes).is_err() {
            self.refused = true;
            return false;
        }
        self.count = self.count.saturating_add(1);
        true
    }

    fn post_visit_node(&mut self, _node: &Node<16, Vec<u8>>) -> bool {
        true
    }

    fn visit_page(&mut self, page: &Page<16, Vec<u8>>, high_page: bool) -> bool {
        if put_page(page, high_page, &mut self.bytes).is_err() {
            self.refused = true;
            return false;
        }
        self.count = self.count.saturating_add(1);
        true
    }

    fn post_visit_page(&mut self, _page: &Page<16, Vec<u8>>) -> bool {
        true
    }
}
