//! Joins of the values that come with the library.

use merkle_replica::Join;
use std::test::Fail;

#[test]
fn a_join_of_numbers_or_nothing_takes_no_memory(rt: HostRuntime) -> Result<(), Fail> {
    assert_eq!(rt; Join::join(&3, rt.alloc(), &9)?, 9);
    assert_eq!(rt; Join::join(&9, rt.alloc(), &3)?, 9);
    assert_eq!(rt; Join::join(&(), rt.alloc(), &())?, ());
    Ok(())
}
