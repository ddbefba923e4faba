use crate::rows::{are_rows, opened, text};
use examples::readme::two_replicas;
use std::test::Fail;

#[test]
fn both_hold_the_rows_of_both(rt: HostRuntime) -> Result<(), Fail> {
    let alloc = rt.alloc();
    let mut b = opened(alloc, &[("x", 1)])?;
    let a = two_replicas(alloc, text(alloc, "y")?, &mut b)?;
    assert!(rt; are_rows(a.rows(), &[("x", 1), ("y", 42)]));
    assert!(rt; are_rows(b.rows(), &[("x", 1), ("y", 42)]));
    Ok(())
}
