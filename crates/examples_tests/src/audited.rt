use crate::rows::{are_rows, opened};
use examples::audited::{catch_up_at_hand_audited, catch_up_audited};
use std::test::Fail;

/// The rows of the peer.
const THEIRS: [(&str, u64); 2] = [("b", 7), ("c", 9)];

/// The greatest number at each name.
const JOIN: [(&str, u64); 3] = [("a", 4), ("b", 7), ("c", 9)];

#[test]
fn both_catch_ups_are_known_to_leave_the_join(rt: HostRuntime) -> Result<(), Fail> {
    let mut peer = opened(rt.alloc(), &THEIRS)?;
    let mut first = opened(rt.alloc(), &[("a", 4), ("b", 5)])?;
    let mut second = opened(rt.alloc(), &[("a", 4), ("b", 5)])?;
    assert!(rt; catch_up_audited(rt.alloc(), &mut first, &mut peer) == Ok(true));
    assert!(rt; catch_up_at_hand_audited(&mut second, &mut peer) == Ok(true));
    assert!(rt; are_rows(first.rows(), &JOIN));
    assert!(rt; are_rows(second.rows(), &JOIN));
    assert!(rt; are_rows(peer.rows(), &THEIRS));
    Ok(())
}
