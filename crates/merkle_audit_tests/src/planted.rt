//! Audits of replicas whose sides digest values otherwise than each other.
use crate::rows::{Rows, rows_of};
use merkle_audit::{
    are_faithful, digest_their_values_alike, have_faithful_values, is_faithful_session,
};
use merkle_digest::SipHasher;
use merkle_search_tree::builder::Builder;
use std::alloc::{AllocError, Global};
use std::test::Fail;

/// A replica under SipHash with a key of equal bytes.
fn keyed(alloc: Global, byte: u8, rows: &[(&str, u64)]) -> Result<Rows, AllocError> {
    let hasher = SipHasher::new(&[byte; 16]);
    rows_of(alloc, Builder::default().with_hasher(hasher), rows)
}

/// The two sides have hashers of two keys.
#[test]
fn sides_of_two_hashers(rt: HostRuntime) -> Result<(), Fail> {
    let alloc = rt.alloc();
    let mut a = keyed(alloc, 0, &[("apples", 3)])?;
    let mut b = keyed(alloc, 1, &[("apples", 3), ("bananas", 4)])?;
    assert!(rt; !digest_their_values_alike(&a, &b));
    assert!(rt; !digest_their_values_alike(&b, &a));
    assert!(rt; !is_faithful_session(alloc, &mut a, &mut b)?);
    assert!(rt; have_faithful_values(&a, &b));
    assert!(rt; are_faithful(&mut a, &mut b)?);
    Ok(())
}

/// A peer without rows has no value that is digested otherwise.
#[test]
fn a_peer_of_another_hasher_without_rows(rt: HostRuntime) -> Result<(), Fail> {
    let alloc = rt.alloc();
    let mut a = keyed(alloc, 0, &[("apples", 3)])?;
    let mut b = keyed(alloc, 1, &[])?;
    assert!(rt; digest_their_values_alike(&a, &b));
    assert!(rt; !digest_their_values_alike(&b, &a));
    assert!(rt; is_faithful_session(alloc, &mut a, &mut b)?);
    Ok(())
}
