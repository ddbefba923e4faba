//! What the doc comments of `merkle_diff` show.
use merkle_diff::parts::{DiffListBuilder, RangeList};
use merkle_diff::{
    OwnedPageRange, PageRange, PageRangeSnapshot, diff, diff_lists, diff_slices, diff_snapshots,
};
use merkle_digest::PageDigest;
use std::test::Fail;

fn digest(number: u8) -> PageDigest {
    PageDigest::new([number; 16])
}

// The page ranges of the keys 1, 2, 3, 4 and of 1, 2, 3, 5, as docs/TREE.md draws them.
#[test]
fn two_lists_of_page_ranges(rt: HostRuntime) -> Result<(), Fail> {
    let alloc = rt.alloc();
    let local = [
        PageRange::new(&1, &4, digest(1)),
        PageRange::new(&1, &2, digest(2)),
        PageRange::new(&4, &4, digest(3)),
    ];
    let peer = [
        PageRange::new(&1, &5, digest(4)),
        PageRange::new(&1, &2, digest(2)),
        PageRange::new(&5, &5, digest(5)),
    ];
    let found = diff(alloc, local, peer)?;
    assert_eq!(rt; found.len(), 1);
    assert_eq!(rt; (*found[0].start(), *found[0].end()), (2, 5));
    Ok(())
}

#[test]
fn a_snapshot_that_is_kept(rt: HostRuntime) -> Result<(), Fail> {
    let alloc = rt.alloc();
    let mut ranges = Vec::new(alloc);
    ranges.push(OwnedPageRange::new(1, 4, digest(1)))?;
    ranges.push(OwnedPageRange::new(1, 2, digest(2)))?;
    let snapshot = PageRangeSnapshot::from_owned(alloc, ranges)?;
    let copy = snapshot.try_clone()?;
    assert!(rt; copy == snapshot);
    assert!(rt; diff_snapshots(alloc, &copy, &snapshot)?.is_empty());
    Ok(())
}

#[test]
fn ranges_that_meet_become_one(rt: HostRuntime) -> Result<(), Fail> {
    let alloc = rt.alloc();
    let mut list = RangeList::new(alloc);
    list.insert(&12, &15)?;
    list.insert(&2, &8)?;
    list.insert(&7, &9)?;
    let merged = list.into_vec()?;
    assert_eq!(rt; merged.len(), 2);
    assert_eq!(rt; (*merged[0].start(), *merged[0].end()), (2, 9));
    assert_eq!(rt; (*merged[1].start(), *merged[1].end()), (12, 15));
    Ok(())
}

#[test]
fn slices_at_hand(rt: HostRuntime) -> Result<(), Fail> {
    let alloc = rt.alloc();
    let local = [PageRange::new(&1, &4, digest(1))];
    let peer = [PageRange::new(&1, &5, digest(2))];
    let found = diff_slices(alloc, &local, &peer)?;
    assert_eq!(rt; found.len(), 1);
    assert_eq!(rt; (*found[0].start(), *found[0].end()), (1, 5));
    Ok(())
}

#[test]
fn vectors_at_hand(rt: HostRuntime) -> Result<(), Fail> {
    let alloc = rt.alloc();
    let mut theirs = Vec::new(alloc);
    theirs.push(PageRange::new(&1, &5, digest(2)))?;
    let found = diff_lists(alloc, Vec::new(alloc), theirs)?;
    assert_eq!(rt; found.len(), 1);
    assert_eq!(rt; (*found[0].start(), *found[0].end()), (1, 5));
    Ok(())
}

#[test]
fn marks_of_a_builder(rt: HostRuntime) -> Result<(), Fail> {
    let alloc = rt.alloc();
    let mut builder = DiffListBuilder::new(alloc);
    builder.inconsistent(&1, &5)?;
    builder.consistent(&1, &2)?;
    let left = builder.into_diff_vec()?;
    assert_eq!(rt; left.len(), 1);
    assert_eq!(rt; (*left[0].start(), *left[0].end()), (2, 5));
    Ok(())
}
