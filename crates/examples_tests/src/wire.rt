use crate::rows::{are_rows, opened};
use examples::store::Store;
use examples::wire::{WireFault, pull_over_bytes, rows_to_come, send_page_ranges};
use std::alloc::Global;
use std::test::Fail;

/// Two stores that differ at each name, or lack it.
fn two_stores(alloc: Global) -> Result<(Store<u64>, Store<u64>), Fail> {
    let a = opened(alloc, &[("x", 1), ("y", 5)])?;
    let b = opened(alloc, &[("w", 4), ("y", 3), ("z", 2)])?;
    Ok((a, b))
}

/// The greater of both numbers at each name.
const BOTH: [(&str, u64); 4] = [("w", 4), ("x", 1), ("y", 5), ("z", 2)];

/// Whether both have these.
fn have_both(a: &Store<u64>, b: &Store<u64>) -> bool {
    are_rows(a.rows(), &BOTH) && are_rows(b.rows(), &BOTH)
}

#[test]
fn four_pulls_over_bytes_leave_both_with_the_greater_numbers(rt: HostRuntime) -> Result<(), Fail> {
    let (a, b) = &mut two_stores(rt.alloc())?;
    for _ in 0..2 {
        pull_over_bytes(rt.alloc(), a, b)?;
        pull_over_bytes(rt.alloc(), b, a)?;
    }
    assert!(rt; have_both(a, b));
    Ok(())
}

/// What a list of one page range from a to b begins with: all but its digest, of 16 bytes.
const BOUNDS: &[u8] = b"\x01\x01a\x01b\x10";

#[test]
fn a_page_range_is_its_bounds_and_its_digest(rt: HostRuntime) -> Result<(), Fail> {
    let alloc = rt.alloc();
    let mut store = opened(alloc, &[("a", 9), ("b", 7)])?;
    let sent = send_page_ranges(alloc, &mut store)?;
    let Some(digest) = sent.strip_prefix(BOUNDS) else {
        return Err(Fail::from("other bounds"));
    };
    // The tree has one page, so its digest is the root hash.
    assert_eq!(rt; digest, store.root_hash().as_bytes().as_slice());
    Ok(())
}

#[test]
fn the_first_bytes_tell_how_many_rows_come(rt: HostRuntime) -> Result<(), Fail> {
    let alloc = rt.alloc();
    // A count below 128 is one byte; above, its lowest seven bits come first, with 128 more.
    assert!(rt; rows_to_come(alloc, &[3])? == 3);
    assert!(rt; rows_to_come(alloc, &[127, 1, 120])? == 127);
    assert!(rt; rows_to_come(alloc, &[128, 1, 1, 120])? == 128);
    assert!(rt; rows_to_come(alloc, &[172, 2])? == 300);
    assert!(rt; matches!(rows_to_come(alloc, &[172]), Err(WireFault::Malformed)));
    Ok(())
}
