//! What the doc comments of `merkle_digest` show. The digest is a published vector of SipHash.
use merkle_digest::{Digest, Hasher, Sip24, SipHasher, ValueDigest, default_level_base, level};
use std::test::Fail;

#[test]
fn a_hasher_with_a_key(rt: HostRuntime) -> Result<(), Fail> {
    let alloc = rt.alloc();
    let hasher = SipHasher::new(&[0, 1, 2, 3, 4, 5, 6, 7, 8, 9, 10, 11, 12, 13, 14, 15]);
    let digest = ValueDigest::new(hasher.hash(&[0u8, 1, 2]));
    assert_eq!(rt;
        *digest.as_bytes(),
        0x9c70b60c5267a94e5f33b6b02985ed51u128.to_be_bytes()
    );
    assert_eq!(rt;
        digest.to_string(alloc)?.as_str(),
        "nHC2DFJnqU5fM7awKYXtUQ=="
    );
    Ok(())
}

#[test]
fn a_message_in_pieces_and_a_level(rt: HostRuntime) {
    let mut sip = Sip24::with_key(&[0, 1, 2, 3, 4, 5, 6, 7, 8, 9, 10, 11, 12, 13, 14, 15]);
    sip.write(&[0]);
    sip.write(&[1, 2]);
    assert_eq!(rt;
        sip.finish128(),
        0x9c70b60c5267a94e5f33b6b02985ed51u128.to_be_bytes()
    );
    let digest = Digest::new([0x00, 0x10, 0x00, 0x11]);
    assert_eq!(rt; level(&digest, default_level_base()), 3);
}
