//! Traversals, by tables of calls that were worked out by hand.

ghost use Rattle.std.specs.Prelude.{◌≡◌};

use merkle_digest::SipHasher;
use merkle_search_tree::builder::Builder;
use merkle_search_tree::visitor::Visitor;
use merkle_search_tree::{MerkleSearchTree, Node, Page};
use std::alloc::{AllocError, Global};
use std::num::NonZeroU8;

/// A tree with the default hasher. Under SipHash of their two bytes, the highest first, and base 16, the keys 0, 30 and 525 are on
/// level 0, the keys 6, 29, 34 and 524 on level 1, and the keys 107 and 461 on level 2. Under base 4 the key 1 is on level 0, and 0 on
/// level 1.
type Tree = MerkleSearchTree<[u8; 2], u64, SipHasher, 16>;

/// A call, with the key of the node or the first key of the page.
#[derive(Clone, Copy, PartialEq, Eq)]
enum Call {
    VisitPage(Option<u16>, bool),
    PreVisitNode(u16),
    VisitNode(u16),
    PostVisitNode(u16),
    PostVisitPage(Option<u16>),
}

/// Keeps the calls, and returns false to the one that is to be the last.
#[derive(Drop)]
struct Recorder {
    calls: Vec<Call>,
    last: Option<Call>,
}

impl Recorder {
    fn record(&mut self, call: Call) -> bool
        ensures { self.new.last ≡ self.old.last }
    {
        self.calls.push(call).is_ok() && self.last != Some(call)
    }
}

impl Visitor<16, [u8; 2]> for Recorder {
    ghost step = { λ before call answer after. after.last ≡ before.last };

    fn pre_visit_node(&mut self, node: &Node<16, [u8; 2]>) -> bool {
        self.record(Call::PreVisitNode(number_of(node)))
    }

    fn visit_node(&mut self, node: &Node<16, [u8; 2]>) -> bool {
        self.record(Call::VisitNode(number_of(node)))
    }

    fn post_visit_node(&mut self, node: &Node<16, [u8; 2]>) -> bool {
        self.record(Call::PostVisitNode(number_of(node)))
    }

    fn visit_page(&mut self, page: &Page<16, [u8; 2]>, high_page: bool) -> bool {
        self.record(Call::VisitPage(first_number(page), high_page))
    }

    fn post_visit_page(&mut self, page: &Page<16, [u8; 2]>) -> bool {
        self.record(Call::PostVisitPage(first_number(page)))
    }
}

/// The key of a node as a number.
fn number_of(node: &Node<16, [u8; 2]>) -> u16 {
    u16::from_be_bytes(*node.key())
}

/// The first key of the page itself.
fn first_number(page: &Page<16, [u8; 2]>) -> Option<u16> {
    match page.nodes().first() {
        Some(node) => Some(number_of(node)),
        None => None,
    }
}

/// The tree of these keys with this level base, upserted in this order. It fails, too, where the base is 0.
fn tree_of(alloc: Global, level_base: u8, keys: &[u16]) -> Result<Tree, AllocError> {
    let base = NonZeroU8::new(level_base).ok_or(AllocError)?;
    let mut tree: Tree = Builder::default().with_level_base(base).build(alloc);
    for number in keys {
        tree.upsert(number.to_be_bytes(), &1)?;
    }
    Ok(tree)
}

/// The calls of a traversal of the tree of these keys with this level base, upserted in this order.
fn calls_of(
    alloc: Global,
    level_base: u8,
    keys: &[u16],
    last: Option<Call>,
) -> Result<Vec<Call>, AllocError> {
    let tree = tree_of(alloc, level_base, keys)?;
    let mut recorder = Recorder {
        calls: Vec::new(alloc),
        last,
    };
    tree.in_order_traversal(&mut recorder);
    Ok(recorder.calls)
}

/// The calls at the tree of the keys 1 and 0 with base 4: the key 0 is on the root page, and 1 on its high page.
const TWO_PAGES: [Call; 10] = [
    Call::VisitPage(Some(0), false),
    Call::PreVisitNode(0),
    Call::VisitNode(0),
    Call::PostVisitNode(0),
    Call::PostVisitPage(Some(0)),
    Call::VisitPage(Some(1), true),
    Call::PreVisitNode(1),
    Call::VisitNode(1),
    Call::PostVisitNode(1),
    Call::PostVisitPage(Some(1)),
];

/// The calls at a tree of nine keys: 107 and 461 on the root page, 6, 29 and 34 on the page below 107, the page of 0 below 6 and
/// that of 30 below 34; 524 on the high page of the root, and 525 on the high page of that.
const SIX_PAGES: [Call; 39] = [
    Call::VisitPage(Some(107), false),
    Call::PreVisitNode(107),
    Call::VisitPage(Some(6), false),
    Call::PreVisitNode(6),
    Call::VisitPage(Some(0), false),
    Call::PreVisitNode(0),
    Call::VisitNode(0),
    Call::PostVisitNode(0),
    Call::PostVisitPage(Some(0)),
    Call::VisitNode(6),
    Call::PostVisitNode(6),
    Call::PreVisitNode(29),
    Call::VisitNode(29),
    Call::PostVisitNode(29),
    Call::PreVisitNode(34),
    Call::VisitPage(Some(30), false),
    Call::PreVisitNode(30),
    Call::VisitNode(30),
    Call::PostVisitNode(30),
    Call::PostVisitPage(Some(30)),
    Call::VisitNode(34),
    Call::PostVisitNode(34),
    Call::PostVisitPage(Some(6)),
    Call::VisitNode(107),
    Call::PostVisitNode(107),
    Call::PreVisitNode(461),
    Call::VisitNode(461),
    Call::PostVisitNode(461),
    Call::PostVisitPage(Some(107)),
    Call::VisitPage(Some(524), true),
    Call::PreVisitNode(524),
    Call::VisitNode(524),
    Call::PostVisitNode(524),
    Call::PostVisitPage(Some(524)),
    Call::VisitPage(Some(525), true),
    Call::PreVisitNode(525),
    Call::VisitNode(525),
    Call::PostVisitNode(525),
    Call::PostVisitPage(Some(525)),
];

#[test]
fn calls_come_in_order(rt: HostRuntime) -> Result<(), AllocError> {
    let keys = [107, 461, 6, 29, 34, 0, 30, 524, 525];
    assert!(rt; calls_of(rt.alloc(), 16, &keys, None)?.as_slice() == SIX_PAGES.as_slice());
    assert!(rt; calls_of(rt.alloc(), 4, &[1, 0], None)?.as_slice() == TWO_PAGES.as_slice());
    let empty = [Call::VisitPage(None, false), Call::PostVisitPage(None)];
    assert!(rt; calls_of(rt.alloc(), 16, &[], None)?.as_slice() == empty.as_slice());
    Ok(())
}

#[test]
fn a_false_answer_ends_the_traversal(rt: HostRuntime) -> Result<(), AllocError> {
    for i in 0..TWO_PAGES.len() {
        let calls = calls_of(rt.alloc(), 4, &[1, 0], Some(TWO_PAGES[i]))?;
        assert!(rt; calls.as_slice() == &TWO_PAGES[..i + 1]);
    }
    Ok(())
}
