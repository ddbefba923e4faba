use crate::rows::{are_rows, opened};
use examples::sync::sync;
use std::test::Fail;

#[test]
fn both_hold_the_greater_numbers_of_both(rt: HostRuntime) -> Result<(), Fail> {
    let alloc = rt.alloc();
    let mut a = opened(alloc, &[("x", 1), ("y", 5)])?;
    let mut b = opened(alloc, &[("y", 3), ("z", 2)])?;
    sync(alloc, &mut a, &mut b)?;
    let both = [("x", 1), ("y", 5), ("z", 2)];
    assert!(rt; are_rows(a.rows(), &both));
    assert!(rt; are_rows(b.rows(), &both));
    Ok(())
}
