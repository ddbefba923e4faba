//! What follows from that a tree is in memory: its pages have few nodes, its keys are short, and its value digests have their length.

ghost use Rattle.std.specs.Prelude.{◌≡◌, length};
ghost use Rattle.merkle_tree_theory.specs.Tree.{held_of};
ghost use Rattle.merkle_tree_theory.specs.Small.{IsHeldInMemory, BelowIsHeld};

use crate::page::Page;
use merkle_digest::KeyBytes;

impl<const N: usize, K: KeyBytes> Page<N, K> {
    /// Looks at each node of this page and those below it, at the bytes of its key and at its value digest.
    #[cycle(look)]
    pub(crate) fn look(&self)
        ensures { IsHeldInMemory K.bytes_of N self.now }
    {
        'nodes: for i in 0..self.nodes.len() {
            let node = &self.nodes[i];
            look_below(&node.lt_pointer);
            let _ = node.key.key_bytes();
            look_at_bytes(node.value_hash.as_bytes());
        }
        look_below(&self.high_page);
    }
}

/// Looks at what a pointer holds.
#[cycle(look)]
fn look_below<const N: usize, K: KeyBytes>(held: &Option<Box<Page<N, K>>>)
    ensures { BelowIsHeld K.bytes_of N (held_of held.now) }
{
    if let Some(page) = held {
        page.look();
    }
}

/// An array has its length.
fn look_at_bytes<const N: usize>(bytes: &[u8; N])
    ensures { length bytes.now ≡ N }
{
    let _value = *bytes;
}
