//! What docs/TREE.md shows.

ghost use Rattle.std.specs.Prelude.{IfOk, OnErr};
ghost use Rattle.merkle_tree_theory.specs.Settings.{default_settings};
ghost use Rattle.merkle_tree_theory.specs.State.{HasSettings, SameSettings};
ghost use Rattle.merkle_tree_theory.specs.declared.page_format.PageFormat.TheVariants.{V1};
ghost use Rattle.examples.specs.Sync.{SyncEndsEarly, SyncsOneRow};

use anyhow::Result;
use merkle_digest::SipHasher;
use merkle_replica::{Replica, RowHasher, pull_by_turns};
use merkle_search_tree::builder::Builder;
use std::alloc::Global;

/// Puts a row into a new replica, which then makes four pulls by turns with another: while digests are faithful in what is met before
/// each of them, both come to hold the join of that row and the rows of the other. It costs what a put and four pulls do.
///
/// # Errors
///
/// Out of memory: the other replica keeps what the pulls until then brought it, and the new one is given up.
pub fn two_replicas(
    alloc: Global,
    key: String,
    b: &mut Replica<String, u64, SipHasher, 16>,
) -> Result<Replica<String, u64, SipHasher, 16>>
    ensures join { IfOk result (λ a. SyncsOneRow ⟦<SipHasher as RowHasher<16, String, u64>>⟧.laws key 42 b.old a b.new) }
    ensures stopped { OnErr result (SyncEndsEarly ⟦<SipHasher as RowHasher<16, String, u64>>⟧.laws key 42 b.old b.new) }
    ensures defaults { IfOk result (λ a. HasSettings (default_settings V1) a.tree) }
    ensures settings { SameSettings b.old.tree b.new.tree }
{
    let mut a: Replica<String, u64, SipHasher, 16> = Replica::new(alloc, Builder::default());
    a.put(key, 42)?;
    // each pulls from the other, by turns, what is in the ranges of keys in which they differ: both come to hold the join
    pull_by_turns(alloc, &mut a, b, 4)?;
    Ok(a)
}
