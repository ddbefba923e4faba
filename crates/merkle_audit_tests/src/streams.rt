//! Audits of two pages with different keys and, in format 1, one stream.
use merkle_audit::{are_faithful, have_faithful_nodes, have_faithful_pages, have_faithful_values};
use merkle_digest::SipHasher;
use merkle_replica::Replica;
use merkle_search_tree::builder::{Builder, PageFormat};
use std::alloc::Global;
use std::test::Fail;

/// A replica of byte strings.
type Bytes = Replica<Vec<u8>, u64, SipHasher, 16>;

/// A replica without rows.
fn empty(alloc: Global, format: PageFormat) -> Bytes {
    Replica::new(alloc, Builder::default().with_page_format(format))
}

/// A replica of two keys, and one of a single key: what format 1 writes of the two but for the last digest. All are on level 0.
fn pair(alloc: Global, format: PageFormat) -> Result<(Bytes, Bytes), Fail> {
    let mut two = empty(alloc, format);
    let mut one = empty(alloc, format);
    let mut key = Vec::from_slice(alloc, b"apples")?;
    two.put(key.clone()?, 3)?;
    two.put(Vec::from_slice(alloc, b"cherries")?, 1)?;
    key.extend_from_slice(two.tree().value_digest(&3).as_bytes())?;
    key.extend_from_slice(b"cherries")?;
    one.put(key, 1)?;
    Ok((two, one))
}

#[test]
fn pages_collide_in_format_1(rt: HostRuntime) -> Result<(), Fail> {
    let alloc = rt.alloc();
    let (mut two, mut one) = pair(alloc, PageFormat::V1)?;
    assert!(rt; two.root_hash() == one.root_hash());
    assert!(rt; !have_faithful_pages(&mut two, &mut one)?);
    assert!(rt; !have_faithful_pages(&mut one, &mut two)?);
    assert!(rt; !are_faithful(&mut two, &mut one)?);
    assert!(rt; have_faithful_values(&two, &one));
    assert!(rt; have_faithful_nodes(alloc, &two, &mut one)?);
    Ok(())
}

#[test]
fn pages_do_not_in_format_2(rt: HostRuntime) -> Result<(), Fail> {
    let alloc = rt.alloc();
    let (mut two, mut one) = pair(alloc, PageFormat::V2)?;
    assert!(rt; two.root_hash() != one.root_hash());
    assert!(rt; have_faithful_pages(&mut two, &mut one)?);
    assert!(rt; are_faithful(&mut two, &mut one)?);
    Ok(())
}
