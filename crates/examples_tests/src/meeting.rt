//! Two replicas that meet.

use examples::meeting::{no_numbers, raise_both};
use merkle_replica::agree;
use std::test::Fail;

#[test]
fn two_meet(rt: HostRuntime) -> Result<(), Fail> {
    let mut a = no_numbers(rt.alloc());
    let mut b = no_numbers(rt.alloc());
    let apples = String::from_str(rt.alloc(), "apples")?;
    let pears = String::from_str(rt.alloc(), "pears")?;
    raise_both(&mut a, apples, 3, &mut b, pears, 5)?;
    assert_eq!(rt; a.rows().len(), 2);
    assert!(rt; agree(&mut a, &mut b));
    Ok(())
}
