//! Trees that came to one map on different ways: their root hash is that of another program for the rows a 1, b 2 and c 3.
use crate::rows::{numbers, text};
use examples::history::replay_and_remove;
use examples::order::{Tree, built_both_ways};
use examples::undo::set_and_remove;
use merkle_search_tree::builder::Builder;
use merkle_search_tree::updates::Update;
use std::test::Fail;

/// The root hash of the three rows.
const ROOT_HASH: &str = "GMC1EXBD3uaR25WicgHHFQ==";

/// Whether a tree has the root hash of the three rows.
fn is_one_tree(rt: &HostRuntime, tree: &mut Tree) -> Result<bool, Fail> {
    let shown = format!(in rt.alloc(); "{}", tree.root_hash())?;
    Ok(shown.as_str() == ROOT_HASH)
}

#[test]
fn rows_in_any_order_make_one_tree(rt: HostRuntime) -> Result<(), Fail> {
    let alloc = rt.alloc();
    for rows in [
        [("c", 3), ("a", 1), ("b", 2)],
        [("b", 2), ("c", 3), ("a", 1)],
        [("a", 1), ("b", 2), ("c", 3)],
    ] {
        let (mut upserted, mut loaded) = built_both_ways(alloc, numbers(alloc, &rows)?)?;
        assert!(rt; is_one_tree(&rt, &mut upserted)?);
        assert!(rt; is_one_tree(&rt, &mut loaded)?);
    }
    Ok(())
}

#[test]
fn a_removal_takes_an_upsert_back(rt: HostRuntime) -> Result<(), Fail> {
    let alloc = rt.alloc();
    let rows = numbers(alloc, &[("c", 3), ("a", 1), ("b", 2)])?;
    let (mut tree, _) = built_both_ways(alloc, rows)?;
    set_and_remove(&mut tree, text(alloc, "d")?, &4)?;
    assert!(rt; is_one_tree(&rt, &mut tree)?);
    Ok(())
}

#[test]
fn a_history_ends_without_the_key(rt: HostRuntime) -> Result<(), Fail> {
    let alloc = rt.alloc();
    let mut updates = Vec::new(alloc);
    for (name, number) in [("d", 4), ("c", 3), ("a", 7), ("b", 2), ("a", 1)] {
        updates.push(Update::Upsert(text(alloc, name)?, number))?;
    }
    let (mut tree, is_gone) = replay_and_remove(
        alloc,
        Builder::default(),
        updates,
        text(alloc, "d")?,
    )?;
    assert!(rt; is_gone);
    assert!(rt; is_one_tree(&rt, &mut tree)?);
    Ok(())
}
