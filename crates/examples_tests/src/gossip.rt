use crate::rows::opened;
use examples::gossip::ranges_to_ask;
use std::test::Fail;

#[test]
fn replicas_that_differ_ask(rt: HostRuntime) -> Result<(), Fail> {
    let alloc = rt.alloc();
    let mut local = opened(alloc, &[("a", 1), ("c", 3)])?;
    let mut peer = opened(alloc, &[("a", 1), ("b", 2), ("c", 3)])?;
    // Each tree has one page, from a to c.
    match ranges_to_ask(alloc, &mut local, &mut peer)?.as_slice() {
        [(first, last)] => assert!(rt; first.as_str() == "a" && last.as_str() == "c"),
        _ => return Err(Fail::from("not one range")),
    }
    Ok(())
}
