use crate::rows::{are_rows, numbers, text};
use examples::store::open_and_put;
use std::test::Fail;

#[test]
fn rows_and_one_more(rt: HostRuntime) -> Result<(), Fail> {
    let alloc = rt.alloc();
    let rows = numbers(alloc, &[("a", 1), ("c", 3)])?;
    let (store, root_hash) = open_and_put(alloc, rows, text(alloc, "b")?, 2)?;
    assert!(rt; are_rows(store.rows(), &[("a", 1), ("b", 2), ("c", 3)]));
    // All three names are on level 0: SipHash of each name and the SipHash of its number, by another program.
    assert_eq!(rt;
        format!(in alloc; "{root_hash}")?.as_str(),
        "GMC1EXBD3uaR25WicgHHFQ=="
    );
    Ok(())
}
