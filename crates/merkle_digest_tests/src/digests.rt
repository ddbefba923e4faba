use merkle_digest::{Digest, PageDigest, RootHash, ValueDigest};
use std::cmp::Ordering;
use std::io::{Cursor, Write};
use std::test::Fail;

/// The bytes of the text `bananas` and the end of its line.
const BANANAS: [u8; 8] = [0x62, 0x61, 0x6e, 0x61, 0x6e, 0x61, 0x73, 0x0a];

/// Those bytes twice.
const TWICE: [u8; 16] = [
    0x62, 0x61, 0x6e, 0x61, 0x6e, 0x61, 0x73, 0x0a, 0x62, 0x61, 0x6e, 0x61, 0x6e, 0x61, 0x73, 0x0a,
];

#[test]
fn printed_digests(rt: HostRuntime) -> Result<(), Fail> {
    let alloc = rt.alloc();
    let digest = Digest::new(BANANAS);
    assert!(rt; digest.to_string(alloc)?.as_str() == "YmFuYW5hcwo=");
    assert!(rt; ValueDigest::new(digest).to_string(alloc)?.as_str() == "YmFuYW5hcwo=");
    let page = PageDigest::new(TWICE);
    assert!(rt; page.to_string(alloc)?.as_str() == "YmFuYW5hcwpiYW5hbmFzCg==");
    assert!(rt; RootHash::new(page).to_string(alloc)?.as_str() == "YmFuYW5hcwpiYW5hbmFzCg==");
    assert!(rt; Digest::new([]).to_string(alloc)?.as_str() == "");
    Ok(())
}

#[test]
fn printing_takes_no_memory(rt: HostRuntime) -> Result<(), Fail> {
    let mut text = [0; 24];
    let mut room = Cursor::new(&mut text[..]);
    write!(room, "{}", RootHash::new(PageDigest::new(TWICE)))?;
    assert!(rt; &text == b"YmFuYW5hcwpiYW5hbmFzCg==");
    Ok(())
}

#[test]
fn bytes_come_back(rt: HostRuntime) {
    assert!(rt; *Digest::new([42; 4]).as_bytes() == [42; 4]);
    assert!(rt; *Digest::new([42; 16]).as_bytes() == [42; 16]);
    let value = ValueDigest::new(Digest::new(BANANAS));
    assert!(rt; *value.as_bytes() == BANANAS);
    assert!(rt; *value.digest() == Digest::new(BANANAS));
    let page = PageDigest::from(Digest::new(TWICE));
    assert!(rt; page == PageDigest::new(TWICE));
    assert!(rt; *page.as_bytes() == TWICE);
    assert!(rt; *page.digest() == Digest::new(TWICE));
    let root = RootHash::new(page);
    assert!(rt; *root.as_bytes() == TWICE);
    assert!(rt; *root.digest() == Digest::new(TWICE));
}

#[test]
fn clones_are_equal(rt: HostRuntime) -> Result<(), Fail> {
    let page = PageDigest::new(TWICE);
    assert!(rt; page.clone()? == page);
    assert!(rt; page.digest().clone()? == Digest::new(TWICE));
    let root = RootHash::new(page);
    assert!(rt; root.clone()? == root);
    let value = ValueDigest::new(Digest::new(BANANAS));
    assert!(rt; value.clone()? == value);
    Ok(())
}

#[test]
fn the_first_byte_orders_first(rt: HostRuntime) {
    let rows = [
        ([1, 9], [2, 0], Ordering::Less),
        ([2, 0], [1, 9], Ordering::Greater),
        ([1, 1], [1, 2], Ordering::Less),
        ([3, 4], [3, 4], Ordering::Equal),
    ];
    for (a, b, want) in rows {
        assert!(rt;
            Digest::new(a).cmp(&Digest::new(b)) == want,
            "{a:?} and {b:?}"
        );
        assert!(rt;
            (Digest::new(a) == Digest::new(b)) == (want == Ordering::Equal),
            "{a:?} and {b:?}"
        );
        assert!(rt;
            (Digest::new(a) < Digest::new(b)) == (want == Ordering::Less),
            "{a:?} and {b:?}"
        );
    }
}
