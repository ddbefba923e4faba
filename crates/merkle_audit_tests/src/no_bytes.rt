//! Audits of pages whose digests of keys and values have no byte, so that in format 1 different pages have one stream.
ghost use Rattle.std.specs.Prelude.{◌≡◌, []};
ghost use Rattle.std.proofs.Common.{lit<, refl};

use merkle_audit::{
    are_faithful, digest_their_values_alike, have_faithful_pages, have_faithful_values,
};
use merkle_digest::{Digest, Hasher};
use merkle_replica::Replica;
use merkle_search_tree::builder::Builder;
use std::alloc::{AllocError, Global};

/// A hasher that tells nothing apart, so that in format 1 the stream of a page is that of its keys alone.
#[derive(Drop)]
struct NoBytes;

impl<T: Eq> Hasher<0, T> for NoBytes {
    ghost digest_of = { λ hasher value. [] };

    ghost respects_eq = { λ hasher a b same. refl };

    ghost fits = { lit< tt };

    fn hash(&self, value: &T) -> Digest<0> {
        let _ = value;
        Digest::new([])
    }
}

/// A replica of these keys, whose digests have no byte.
fn texts(alloc: Global, keys: &[&str]) -> Result<Replica<String, u64, NoBytes, 0>, AllocError> {
    let builder = Builder::default().with_hasher(NoBytes);
    let mut replica: Replica<String, u64, NoBytes, 0> = Replica::new(alloc, builder);
    for key in keys {
        let own = String::from_str(alloc, key)?;
        replica.put(own, 1)?;
    }
    Ok(replica)
}

/// Whether the pages of replicas of these keys are faithful.
fn tell_texts(alloc: Global, keys: &[&str], others: &[&str]) -> Result<bool, AllocError> {
    let mut a = texts(alloc, keys)?;
    let mut b = texts(alloc, others)?;
    have_faithful_pages(&mut a, &mut b)
}

// The streams of a page with the keys a and b and of one with the key ab are one.
#[test]
fn pages_of_one_stream_are_found(rt: HostRuntime) -> Result<(), AllocError> {
    assert!(rt; !tell_texts(rt.alloc(), &["a", "b"], &["ab"])?);
    assert!(rt; tell_texts(rt.alloc(), &["a", "b"], &["a", "b"])?);
    assert!(rt; tell_texts(rt.alloc(), &["a", "b"], &["a", "c"])?);
    Ok(())
}

/// A replica of one key with this value.
fn valued(alloc: Global, value: u64) -> Result<Replica<String, u64, NoBytes, 0>, AllocError> {
    let builder = Builder::default().with_hasher(NoBytes);
    let mut replica: Replica<String, u64, NoBytes, 0> = Replica::new(alloc, builder);
    let key = String::from_str(alloc, "apples")?;
    replica.put(key, value)?;
    Ok(replica)
}

// At a key that both have two values have one digest.
#[test]
fn values_that_collide_at_a_key(rt: HostRuntime) -> Result<(), AllocError> {
    let mut a = valued(rt.alloc(), 3)?;
    let mut b = valued(rt.alloc(), 4)?;
    assert!(rt; !have_faithful_values(&a, &b));
    assert!(rt; digest_their_values_alike(&a, &b));
    assert!(rt; have_faithful_pages(&mut a, &mut b)?);
    assert!(rt; !are_faithful(&mut a, &mut b)?);
    Ok(())
}
